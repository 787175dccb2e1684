// A label update, judged at its packet's second.
ghost use Rattle.std.specs.Prelude.{◌<◌, ◌&&◌, ◌≡◌, position};
ghost use Rattle.answer.specs.Answer.{first_of, and_then};
ghost use Rattle.calendar.specs.Calendar.{window_in};
ghost use Rattle.matching.specs.Matching.{matches};
ghost use Rattle.rule.specs.Rule.{held};
ghost use Rattle.moving.specs.Moving.{moves, year_for, moved_to, window_rows, verdict_answer, update_for};

use crate::Verdict;
use calendar::window_of;
use label::Label;
use label::pil::parts;
use matching::Booking;
use matching::seeing::matches;
use places::Stamped;
use rule::Timer;
use rule::copies::is_held;
use sixteen::slots::timer_at;

// A free slot has no timer that could match.
fn matched(s: u32, l: Stamped, t: Timer) -> bool
    ensures { result ≡ (held t.copy && matches s t.booking l) }
{
    is_held(t.copy) && matches(s, t.booking, l)
}

// The lowest slot whose timer the standing label matches.
fn meant(s: u32, l: Stamped, timers: [Timer; 16]) -> Option<usize>
    ensures { result ≡ position (λ t. held t.copy && matches s t.booking l) timers }
{
    timers.iter().position(|t| matched(s, l, *t))
}

// 'In its own year, or in the next year if the month goes from 12 to 1.'
fn year_for(b: Booking, pil: u32) -> u8
    requires { b.year < 255 }
    ensures { result ≡ year_for b pil }
{
    if (parts(b.pil).month == 12) & (parts(pil).month == 1) {
        return b.year + 1;
    }
    b.year
}

// 'It keeps its slot, home tuner and length.'
#[tactic(auto, unfolding(crate::specs::Moving::moved_to))]
fn moved_to(l: Label, b: Booking) -> Booking
    requires { b.year < 255 }
    ensures { result ≡ moved_to l b }
{
    Booking {
        pil: l.pil,
        cni: l.cni,
        year: year_for(b, l.pil),
        ..b
    }
}

// 'Then 11, then 12, for the new label and year.'
fn in_time(s: u32, slot: usize, b: Booking) -> Verdict
    ensures { verdict_answer result ≡ and_then (window_in b.pil b.year) (λ w. first_of (window_rows s w) (moves slot b)) }
{
    match window_of(b.pil, b.year) {
        None => Verdict::NotReal,
        Some(w) if w.closes <= s => Verdict::Ended,
        Some(_) => Verdict::Moves { slot, booking: b },
    }
}

// The standing label and the timers are those of the packet's second, which passing the seconds before it does not change.
pub fn judge(s: u32, old: Stamped, l: Label, timers: [Timer; 16]) -> Verdict
    ensures { verdict_answer result ≡ update_for s old l timers }
{
    let Some(slot) = meant(s, old, timers) else {
        return Verdict::NoMatch;
    };
    if (l.cni == old.cni) & (l.pil == old.pil) {
        return Verdict::Repeats;
    }
    in_time(s, slot, moved_to(l, timer_at(timers, slot).booking))
}
