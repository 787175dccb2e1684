// From a programme of a preview page to a timer.
#![tactic(auto)]

ghost use Rattle.std.specs.Prelude.{true, ◌≡◌};
ghost use Rattle.booked.specs.Timer.{minutes_of, length_of, pil_of, timer_of};
ghost use Rattle.booked.specs.Laws.{Laws};

use announced::Time;
use preview::Programme;

// What a timer is added with: the year is that of 2000 to 2099, the length is in minutes.
#[derive(Clone, Copy)]
pub struct Booked {
    pub pil: u32,
    pub cni: u16,
    pub length: u16,
    pub year: u8,
}

fn minutes(t: Time) -> u16
    ensures { result ≡ minutes_of t }
{
    t.hour as u16 * 60 + t.minute as u16
}

// 'Past midnight counts on.'
#[tactic(auto, unfolding(crate::specs::Timer::length_of))]
fn length_of(start: Time, finish: Time) -> u16
    ensures { result ≡ length_of start finish }
{
    let from = minutes(start);
    let to = minutes(finish);
    if from <= to {
        to - from
    } else {
        (to + 1440).saturating_sub(from)
    }
}

// 'PIL (date and original time)'.
#[tactic(auto, unfolding(crate::specs::Timer::pil_of))]
fn pil_of(q: Programme) -> u32
    ensures { result ≡ pil_of q }
{
    let t = q.original;
    let date = q.day as u32 * 16 + q.month as u32;
    let time = t.hour as u32 * 64 + t.minute as u32;
    date * 2048 + time
}

// '2500 gives no timer': an item not worth recording.
#[tactic(auto, unfolding(crate::specs::Timer::timer_of))]
pub fn timer_of(q: Programme) -> Option<Booked>
    ensures { result ≡ timer_of q }
{
    if q.original.hour == 25 && q.original.minute == 0 {
        return None;
    }
    Some(Booked {
        pil: pil_of(q),
        cni: q.network,
        length: length_of(q.start, q.finish),
        year: q.year,
    })
}

// The laws of a programme's timer, as a promise of the crate.
pub fn lawful() -> bool
    ensures { (result ≡ true) × Laws }
{
    true
}
