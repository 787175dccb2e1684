// Moments, seconds and waits. The seconds after which a desk is quiet are not walked one by one: see `pass`.
ghost use Rattle.std.specs.Prelude.{◌<◌, ◌≡◌};
ghost use Rattle.answer.specs.Answer.{first_of, number, after};
ghost use Rattle.desk.specs.Moments.{fresh, moment, clocked_at, next_second, quiet, pass_to, walked_to};
ghost use Rattle.desk.specs.Calls.{time_rows, wait_of, second_of};
ghost use Rattle.reply.specs.Numbers.{told, wait_refusal, wait_answer, second_number};
ghost use Rattle.desk.specs.Numbers.{said_by, left_by};

use crate::{Desk, Said};
use places::any_stands;
use places::standing::no_label;
use reply::{PastEnd, WaitRefusal};
use sixteen::slots::{all_next, any_by_labels, no_timer};

pub(crate) const CLOCK_END: u32 = 3155774400;

// The desk that the passing of seconds leaves, and how many were walked.
#[derive(Clone, Copy)]
pub(crate) struct Pass {
    pub(crate) walked: u32,
    pub(crate) desk: Desk,
}

impl Desk {
    // 'A fresh desk has clock 0, no label at any place and every slot free.'
    pub fn new() -> Desk
        ensures { result ≡ fresh }
    {
        Desk {
            clock: 0,
            live: 0,
            places: [no_label(); 16],
            timers: [no_timer(); 16],
        }
    }

    // 'At each moment every timer's copy goes on', and the count of those that are live is kept.
    #[tactic(auto, unfolding(crate::specs::Moments::moment))]
    fn moment_at(self, s: u32) -> Desk
        ensures { result ≡ moment (clocked_at s self) }
    {
        let next = all_next(s, self.places, self.timers);
        // By a name of its own: the check follows no array straight from a struct's field into a literal.
        let timers = next.timers;
        Desk {
            clock: s,
            live: next.live,
            timers,
            ..self
        }
    }

    // 'Each whole second is a moment.'
    #[tactic(auto, unfolding(crate::specs::Moments::next_second))]
    fn step(self) -> Desk
        requires { self.clock < 4294967295 }
        ensures { result ≡ next_second self }
    {
        self.moment_at(self.clock + 1)
    }

    pub(crate) fn moment(self) -> Desk
        ensures { result ≡ moment self }
    {
        self.moment_at(self.clock)
    }

    // 'No label stands and nothing is recording or running on.'
    #[tactic(auto, unfolding(crate::specs::Moments::quiet))]
    fn quiet(self) -> bool
        ensures { result ≡ quiet self }
    {
        !any_stands(self.clock, self.places) && !any_by_labels(self.timers)
    }

    // 'A call at t first passes every second up to t.' Of a quiet desk the moment at t leaves what all those seconds would: a label that has
    // lapsed stays so, a copy that is prepared falls back to waiting, and 'clock copies then follow from the time alone'.
    pub(crate) fn pass(self, t: u32) -> Pass
        ensures { (result.walked ≡ walked_to t self) × (result.desk ≡ pass_to t self) }
    {
        let mut d = self;
        let mut n: u32 = 0;
        // A `while`: its end is the clock, which a desk that is quiet does not wait for.
        while d.clock < t {
            if d.quiet() {
                return Pass {
                    walked: n,
                    desk: d.moment_at(t),
                };
            }
            d = d.step();
            n += 1;
        }
        Pass { walked: n, desk: d }
    }

    // Refusals 9 and 10, in this order.
    pub(crate) fn timely(self, time: u32) -> Result<(), WaitRefusal>
        ensures { told wait_refusal result ≡ first_of (time_rows self time) tt }
    {
        if time < self.clock {
            return Err(WaitRefusal::Before);
        }
        if CLOCK_END < time {
            return Err(WaitRefusal::Past);
        }
        Ok(())
    }

    // 'Wait: 9, 10.'
    #[tactic(auto, unfolding(crate::specs::Calls::wait_of))]
    pub fn wait(self, time: u32) -> Said<u32, WaitRefusal>
        ensures { (wait_answer result.answer ≡ said_by (wait_of time self)) × (result.desk ≡ left_by self (wait_of time self)) }
    {
        match self.timely(time) {
            Err(r) => self.refuse(r),
            Ok(()) => {
                let p = self.pass(time);
                // 'Each accepted call' is a moment, also a wait to the present second.
                Said {
                    answer: Ok(p.walked),
                    desk: p.desk.moment(),
                }
            }
        }
    }

    // One second passes, but not past the clock's end.
    #[tactic(auto, unfolding(crate::specs::Calls::second_of))]
    pub fn second(self) -> Said<(), PastEnd>
        ensures { (second_number result.answer ≡ number (second_of self)) × (result.desk ≡ after self (second_of self)) }
    {
        if CLOCK_END <= self.clock {
            return self.refuse(PastEnd);
        }
        Said {
            answer: Ok(()),
            desk: self.step(),
        }
    }
}
