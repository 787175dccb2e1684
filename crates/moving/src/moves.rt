// The timer that a label update moves, among the sixteen.
ghost use Rattle.std.specs.Prelude.{◌≡◌};
ghost use Rattle.moving.specs.Moving.{moved_in};

use matching::Booking;
use rule::Timer;
use sixteen::slots::{any_holds, no_timer, put_timer, timer_at};

// 'If another timer held the new label in that year, that one is kept and the moved one cancelled.'
pub fn moved_in(s: u32, slot: usize, b: Booking, timers: [Timer; 16]) -> [Timer; 16]
    ensures { result ≡ moved_in s slot b timers }
{
    let others = put_timer(timers, slot, no_timer());
    if any_holds(s, others, b) {
        return others;
    }
    let t = Timer {
        booking: b,
        ..timer_at(timers, slot)
    };
    put_timer(timers, slot, t)
}
