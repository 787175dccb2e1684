// The sixteen slots.
ghost use Rattle.std.specs.Prelude.{◌&&◌, not, map, position, ◌≡◌, get_or, set};
ghost use Rattle.answer.specs.Lists.{some, count};
ghost use Rattle.rule.specs.Rule.{by_labels_timer, live_timer, next_timer};
ghost use Rattle.sixteen.specs.Sixteen.{no_timer, active, same_booking, room_at};

use crate::GoneOn;
use matching::Booking;
use matching::windows::ended_at;
use places::Stamped;
use rule::copies::{is_by_labels, is_held, is_live, next_timer};
use rule::{Copy, Timer};

pub fn no_timer() -> Timer
    ensures { result ≡ no_timer }
{
    Timer {
        booking: Booking {
            pil: 0,
            cni: 0,
            length: 0,
            year: 0,
            tuner: 0,
        },
        copy: Copy::Free,
    }
}

// Past the last slot there is no timer. A function, and `put_timer`, by the laws `timer_at_unique` and `put_timer_unique`.
pub fn timer_at(timers: [Timer; 16], slot: usize) -> Timer
    ensures { result ≡ get_or timers slot no_timer }
{
    answer::at_or(timers, slot, no_timer())
}

// Past the last slot nothing is put.
pub fn put_timer(timers: [Timer; 16], slot: usize, t: Timer) -> [Timer; 16]
    ensures { result ≡ set timers slot t }
{
    answer::put(timers, slot, t)
}

// 'Held and not ended.'
fn active(s: u32, t: Timer) -> bool
    ensures { result ≡ active s t }
{
    is_held(t.copy) && !ended_at(s, t.booking)
}

// 'Two timers are the same if all three agree.'
fn same_booking(a: Booking, b: Booking) -> bool
    ensures { result ≡ same_booking a b }
{
    (a.cni == b.cni) & (a.pil == b.pil) & (a.year == b.year)
}

// 'The same timer is held and not ended': the window is computed only where the booking is the same.
fn holds(s: u32, b: Booking, t: Timer) -> bool
    ensures { result ≡ (active s t && same_booking b t.booking) }
{
    same_booking(b, t.booking) && active(s, t)
}

pub fn any_holds(s: u32, timers: [Timer; 16], b: Booking) -> bool
    ensures { result ≡ some (λ t. active s t && same_booking b t.booking) timers }
{
    timers.iter().any(|t| holds(s, b, *t))
}

// The same by the library's word for it, `position`, which a chain is proved by.
fn first_room(s: u32, timers: [Timer; 16]) -> Option<usize>
    ensures { result ≡ position (λ t. not (active s t)) timers }
{
    timers.iter().position(|t| !active(s, *t))
}

// 'The lowest slot that is free or whose window has ended.'
#[tactic(auto, using(places::proofs::Search::by_position))]
pub fn room(s: u32, timers: [Timer; 16]) -> Option<usize>
    ensures { result ≡ room_at s timers }
{
    first_room(s, timers)
}

// 'At each moment every timer's copy goes on', and those that are live then are counted on the way. A free slot stays free, so there is
// nothing to do for it, and nothing to count.
pub fn all_next(s: u32, places: [Stamped; 16], timers: [Timer; 16]) -> GoneOn
    ensures { let next = map (next_timer s places) timers in result ≡ record { live = count live_timer next; timers = next } }
{
    let mut out = timers;
    let mut live: u32 = 0;
    for i in 0..16 {
        let t = out[i];
        if is_held(t.copy) {
            let next = next_timer(s, places, t);
            live += u32::from(is_live(next.copy));
            out[i] = next;
        }
    }
    GoneOn { live, timers: out }
}

// 'Recording or running on.'
pub fn any_by_labels(timers: [Timer; 16]) -> bool
    ensures { result ≡ some by_labels_timer timers }
{
    timers.iter().any(|t| is_by_labels(t.copy))
}
