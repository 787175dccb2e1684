// The second-by-second rule for one timer: how its copy goes on at a moment.
#![tactic(auto)]

ghost use Rattle.std.specs.Prelude.{true, ◌≡◌};
ghost use Rattle.rule.specs.Laws.{Laws};

use matching::Booking;

pub mod copies; // how a copy goes on at a moment

// How a timer's copy stands. An ended timer is one whose window has closed, and is no state of its own. A place is a number from 0 to 15, in one
// byte: a desk with sixteen of these is copied at every call.
#[derive(Clone, Copy)]
pub enum Copy {
    Free,
    Waiting,
    Prepared { since: u32 },
    Recording { place: u8, mi: bool },
    RunningOn { place: u8, since: u32 },
    ByTheClock,
}

#[derive(Clone, Copy)]
pub struct Timer {
    pub booking: Booking,
    pub copy: Copy,
}

// The laws of the rule for one timer, as a promise of the crate.
pub fn lawful() -> bool
    ensures { (result ≡ true) × Laws }
{
    true
}
