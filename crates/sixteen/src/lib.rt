// The sixteen slots as an array: what holds of it as a whole, with no clock and no desk.
#![tactic(auto)]

ghost use Rattle.std.specs.Prelude.{true, ◌≡◌};
ghost use Rattle.sixteen.specs.Laws.{Laws};

pub mod slots; // which are held, live or free, one timer put, and all of them gone on

use rule::Timer;

// The timers after a moment, and how many of them are live.
#[derive(Clone, Copy)]
pub struct GoneOn {
    pub live: u32,
    pub timers: [Timer; 16],
}

// The laws of the sixteen slots, as a promise of the crate.
pub fn lawful() -> bool
    ensures { (result ≡ true) × Laws }
{
    true
}
