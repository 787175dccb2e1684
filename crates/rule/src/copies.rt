// Moments: the copy's next state, by cases of its present one. The second and the places are two parameters, as each definition has them: a
// struct of both would stand in every clause, taken apart.
ghost use Rattle.std.specs.Prelude.{◌-◌, cond, ◌≡◌, ltb};
ghost use Rattle.matching.specs.Matching.{sight_of};
ghost use Rattle.clocked.specs.Clocked.{clocked};
ghost use Rattle.rule.specs.Rule.{recording_at, clock_or, not_live, prepare_for, from_prepared, moves_or, held, next_copy, next_timer, by_labels, is_live};

use crate::{Copy, Timer};
use clocked::on_time;
use matching::seeing::{matches, sight_of};
use matching::windows::open_at;
use matching::{Booking, Sight};
use places::failing::labels_fail;
use places::{Stamped, label_at};

// 'It runs on while s - v < 30.'
const RUN_FOR: u64 = 30;

// 'Prepared without a break for more than 60 seconds.'
const PREPARE_FOR: u64 = 60;

// 'It remembers the MI of the label there.'
#[tactic(auto, unfolding(crate::specs::Rule::recording_at))]
fn recording_at(places: [Stamped; 16], p: u8) -> Copy
    ensures { result ≡ recording_at places p }
{
    Copy::Recording {
        place: p,
        mi: label_at(places, p as usize).mi,
    }
}

// The time is asked first: most timers' days are others, and then no place is looked at.
fn is_clocked(s: u32, places: [Stamped; 16], b: Booking) -> bool
    ensures { result ≡ clocked s places b }
{
    on_time(s, b) && labels_fail(s, places, b.tuner)
}

// By the clock, 'which comes before prepared, and before the start after its 60 seconds, and ends it', or else what is said next.
#[tactic(auto, unfolding(crate::specs::Rule::clock_or))]
fn clock_or(s: u32, places: [Stamped; 16], b: Booking, next: Copy) -> Copy
    ensures { result ≡ clock_or s places b next }
{
    if is_clocked(s, places, b) {
        return Copy::ByTheClock;
    }
    next
}

// 'Not live: the lowest match with PRF 0 makes it recording. Failing that, any match with PRF 1 makes it prepared. Else it waits.'
// 'The copy keeps the second at which it became prepared.'
fn not_live(s: u32, places: [Stamped; 16], b: Booking, seen: Sight) -> Copy
    ensures { result ≡ not_live s places b seen }
{
    match seen {
        Sight::Nothing => clock_or(s, places, b, Copy::Waiting),
        Sight::Prepare(_) => clock_or(s, places, b, Copy::Prepared { since: s }),
        Sight::Start(q) => recording_at(places, q),
    }
}

// 'Now starts recording at the lowest place that matches.' As in `stands`, the sum has 64 bits.
fn kept_or_started(s: u32, places: [Stamped; 16], v: u32, q: u8) -> Copy
    ensures { result ≡ cond (ltb prepare_for (s - v)) (recording_at places q) (Copy.Prepared v) }
{
    if v as u64 + PREPARE_FOR < s as u64 {
        return recording_at(places, q);
    }
    Copy::Prepared { since: v }
}

// 'The lowest place with a match and PRF 0', or else what is said next.
fn moves_or(places: [Stamped; 16], seen: Sight, next: Copy) -> Copy
    ensures { result ≡ moves_or places seen next }
{
    match seen {
        Sight::Start(q) => recording_at(places, q),
        _ => next,
    }
}

// 'A closed window comes before all of these: it ends a recording or run-on at once', and so does one that 'isn't open yet'. A label that still
// matches has an open window, so that is asked for only where none does, and the window of a recording that stays is computed once.
// A copy that is not live moves to the lowest place with PRF 0 too, so `not_live` needs no `moves_or` before it.
fn from_recording(s: u32, places: [Stamped; 16], b: Booking, p: u8, mi: bool) -> Copy
    ensures { result ≡ next_copy s places b (Copy.Recording p mi) }
{
    let own = label_at(places, p as usize);
    if matches(s, b, own) {
        return Copy::Recording {
            place: p,
            mi: own.mi,
        };
    }
    if !open_at(s, b) {
        return Copy::Waiting;
    }
    let seen = sight_of(s, places, b);
    if mi {
        return not_live(s, places, b, seen);
    }
    moves_or(places, seen, Copy::RunningOn { place: p, since: s })
}

// As in `stands`, the sum has 64 bits.
fn from_running_on(s: u32, places: [Stamped; 16], b: Booking, p: u8, v: u32) -> Copy
    ensures { result ≡ next_copy s places b (Copy.RunningOn p v) }
{
    if !open_at(s, b) {
        return Copy::Waiting;
    }
    let seen = sight_of(s, places, b);
    if (s as u64) < v as u64 + RUN_FOR {
        return moves_or(places, seen, Copy::RunningOn { place: p, since: v });
    }
    not_live(s, places, b, seen)
}

// A copy that is not live sees nothing while its window is not open, and is not by the clock, so nothing asks here whether it is.
fn from_waiting(s: u32, places: [Stamped; 16], b: Booking) -> Copy
    ensures { result ≡ not_live s places b (sight_of s places b) }
{
    not_live(s, places, b, sight_of(s, places, b))
}

// 'Without a break': what waits has no second, and being prepared later counts anew. As in `from_waiting`, nothing asks whether the window
// is open.
fn from_prepared(s: u32, places: [Stamped; 16], b: Booking, v: u32) -> Copy
    ensures { result ≡ from_prepared s places b v (sight_of s places b) }
{
    match sight_of(s, places, b) {
        Sight::Nothing => clock_or(s, places, b, Copy::Waiting), // a break
        Sight::Prepare(q) => clock_or(s, places, b, kept_or_started(s, places, v, q)),
        Sight::Start(q) => recording_at(places, q),
    }
}

// The copy's next state, by cases of its present one.
fn next_copy(s: u32, places: [Stamped; 16], b: Booking, c: Copy) -> Copy
    ensures { result ≡ next_copy s places b c }
{
    match c {
        Copy::Free => Copy::Free,
        Copy::Waiting | Copy::ByTheClock => from_waiting(s, places, b), // 'treated as not live'
        Copy::Prepared { since } => from_prepared(s, places, b, since),
        Copy::Recording { place, mi } => from_recording(s, places, b, place, mi),
        Copy::RunningOn { place, since } => from_running_on(s, places, b, place, since),
    }
}

#[tactic(auto, unfolding(crate::specs::Rule::next_timer))]
pub fn next_timer(s: u32, places: [Stamped; 16], t: Timer) -> Timer
    ensures { result ≡ next_timer s places t }
{
    Timer {
        copy: next_copy(s, places, t.booking, t.copy),
        ..t
    }
}

// 'Recording or running on', which is walked to its end; being by the clock 'follows from the time alone'.
pub fn is_by_labels(c: Copy) -> bool
    ensures { result ≡ by_labels c }
{
    matches!(c, Copy::Recording { .. } | Copy::RunningOn { .. })
}

// 'Live means recording or running on'; by the clock 'counts as live'.
pub fn is_live(c: Copy) -> bool
    ensures { result ≡ is_live c }
{
    is_by_labels(c) || matches!(c, Copy::ByTheClock)
}

// A slot that is not free.
pub fn is_held(c: Copy) -> bool
    ensures { result ≡ held c }
{
    !matches!(c, Copy::Free)
}
