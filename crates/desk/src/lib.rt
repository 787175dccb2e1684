// The label desk of four tuners and sixteen timers: its state and its calls.
#![tactic(auto)]

mod asking; // one slot, and how many are live
mod hearing; // packets and labels
mod moments; // seconds, waits, and the moment that every accepted call ends in
mod timers; // adding and cancelling
mod updating; // label updates

ghost use Rattle.std.specs.Prelude.{true, ◌≡◌, Err};
ghost use Rattle.desk.specs.Laws.{Laws};

use places::Stamped;
use rule::Timer;

// `live` is how many timers are live: each moment counts them, so that reading it looks at no slot.
#[derive(Clone, Copy)]
pub struct Desk {
    pub clock: u32,
    pub live: u32,
    pub places: [Stamped; 16],
    pub timers: [Timer; 16],
}

// What a call answers, and the desk that it leaves.
#[derive(Clone, Copy)]
pub struct Said<T, R> {
    pub answer: Result<T, R>,
    pub desk: Desk,
}

impl Desk {
    // 'Its answer is the number alone; desk, clock and lent buffers are unchanged.'
    fn refuse<T: Copy, R: Copy>(self, why: R) -> Said<T, R>
        ensures { result ≡ record { answer = Err why; desk = self } }
    {
        Said {
            answer: Err(why),
            desk: self,
        }
    }
}

// The laws of one call and one moment, as a promise of the crate.
pub fn lawful() -> bool
    ensures { (result ≡ true) × Laws }
{
    true
}
