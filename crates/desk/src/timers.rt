// Adding and cancelling.
ghost use Rattle.std.specs.Prelude.{◌≡◌};
ghost use Rattle.answer.specs.Answer.{first_of, and_then, number, after};
ghost use Rattle.calendar.specs.Calendar.{window_in};
ghost use Rattle.matching.specs.declared.Booking.{Booking};
ghost use Rattle.sixteen.specs.Sixteen.{slot_of};
ghost use Rattle.desk.specs.Calls.{room_in, with_timer, add_rows, add_of, timer_at, slot_rows, cancel_of};
ghost use Rattle.reply.specs.Numbers.{told, add_answer, no_timer_number, cancel_number};
ghost use Rattle.desk.specs.Numbers.{said_by, left_by};

use crate::{Desk, Said};
use clocked::out_of_range;
use matching::Booking;
use reply::{AddRefusal, NoTimer};
use rule::copies::is_held;
use rule::{Copy, Timer};
use sixteen::slots::{any_holds, no_timer, put_timer, room, timer_at};

impl Desk {
    fn with_timer(self, slot: usize, t: Timer) -> Desk
        ensures { result ≡ with_timer slot t self }
    {
        Desk {
            timers: put_timer(self.timers, slot, t),
            ..self
        }
    }

    // The slot that a timer takes: 'add: 11 to 14', with 17 'between 11 and 12', in this order.
    #[tactic(auto, unfolding(crate::specs::Calls::room_in))]
    fn slot_for(self, b: Booking) -> Result<usize, AddRefusal>
        ensures { add_answer result ≡ and_then (window_in b.pil b.year) (λ w. first_of (add_rows b self w) (slot_of (room_in self))) }
    {
        let w = calendar::window_of(b.pil, b.year).ok_or(AddRefusal::NotReal)?;
        if out_of_range(b) {
            return Err(AddRefusal::OutOfRange);
        }
        if w.closes <= self.clock {
            return Err(AddRefusal::Ended);
        }
        if any_holds(self.clock, self.timers, b) {
            return Err(AddRefusal::Held);
        }
        room(self.clock, self.timers).ok_or(AddRefusal::Full)
    }

    // 'Add: 11 to 14', and 17.
    #[tactic(auto, unfolding(crate::specs::Calls::add_of))]
    pub fn add(
        self,
        cni: u16,
        pil: u32,
        year: u8,
        tuner: u8,
        length: u16,
    ) -> Said<usize, AddRefusal>
        ensures { (let b : Booking = record { cni = cni; pil = pil; year = year; tuner = tuner; length = length } in
            (add_answer result.answer ≡ said_by (add_of b self)) × (result.desk ≡ left_by self (add_of b self))) }
    {
        let booking = Booking {
            pil,
            cni,
            length,
            year,
            tuner,
        };
        match self.slot_for(booking) {
            Ok(slot) => {
                let t = Timer {
                    booking,
                    copy: Copy::Waiting,
                };
                Said {
                    answer: Ok(slot),
                    desk: self.with_timer(slot, t).moment(),
                }
            }
            Err(r) => self.refuse(r),
        }
    }

    // The timer that a slot holds: refusal 15 where it is 'above 15 or free'.
    pub(crate) fn timer(self, slot: usize) -> Result<Timer, NoTimer>
        ensures { told no_timer_number result ≡ first_of (slot_rows slot self) (timer_at self slot) }
    {
        let t = timer_at(self.timers, slot);
        if 15 < slot || !is_held(t.copy) {
            return Err(NoTimer);
        }
        Ok(t)
    }

    // 'Cancelling frees a slot and ends its copy.'
    #[tactic(auto, unfolding(crate::specs::Calls::cancel_of))]
    pub fn cancel(self, slot: usize) -> Said<(), NoTimer>
        ensures { (cancel_number result.answer ≡ number (cancel_of slot self)) × (result.desk ≡ after self (cancel_of slot self)) }
    {
        match self.timer(slot) {
            Ok(_) => Said {
                answer: Ok(()),
                desk: self.with_timer(slot, no_timer()).moment(),
            },
            Err(r) => self.refuse(r),
        }
    }
}
