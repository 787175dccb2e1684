// A packet with LUF 1, 'with the label it goes on under': whose timer it means, what that becomes, and why not.
#![tactic(auto)]

ghost use Rattle.std.specs.Prelude.{true, ◌≡◌};
ghost use Rattle.moving.specs.Laws.{Laws};

use matching::Booking;

pub mod judging; // a label update, by the standing label and the timers
pub mod moves; // the timer that it moves

// Refusals 7, 11 and 12, or what the packet asks for.
#[derive(Clone, Copy)]
pub enum Verdict {
    NoMatch,
    NotReal,
    Ended,
    Repeats,
    Moves { slot: usize, booking: Booking },
}

// The laws of label updates, as a promise of the crate.
pub fn lawful() -> bool
    ensures { (result ≡ true) × Laws }
{
    true
}
