// When the window of a PIL opens and closes (EN 300 231, clause 9.3), and the second that it announces.
#![tactic(auto)]

ghost use Rattle.std.specs.Prelude.{true, ◌≡◌};
ghost use Rattle.calendar.specs.Calendar.{real_in, opening, closing, announced_at, validity_answer, window_in};
ghost use Rattle.calendar.specs.Laws.{Laws};

use label::pil::parts;

mod days; // leap years, month lengths, the days of the clock

// From the second `opens` up to, not including, the second `closes`.
#[derive(Clone, Copy)]
pub struct Window {
    pub opens: u32,
    pub closes: u32,
}

const MINUTE: u64 = 60;

const HOUR: u64 = 3600;

const DAY: u64 = 86400;

#[tactic(auto, unfolding(crate::specs::Calendar::real_in))]
fn real_in(pil: u32, year: u8) -> bool
    ensures { result ≡ real_in pil year }
{
    let p = parts(pil);
    days::day_exists(year, p.month, p.day) & (p.hour <= 23) & (p.minute <= 59)
}

// In sixty-four bits, which hold any day's seconds, also those of a day past the clock's end.
#[tactic(auto, unfolding(crate::specs::Calendar::opening))]
fn opening_of(date: u32, hour: u8) -> u64
    ensures { result ≡ opening date hour }
{
    let midnight = u64::from(date) * DAY;
    if 3 < hour {
        return midnight;
    }
    (midnight + 20 * HOUR).saturating_sub(DAY)
}

#[tactic(auto, unfolding(crate::specs::Calendar::closing))]
fn closing_of(date: u32) -> u64
    ensures { result ≡ closing date }
{
    (u64::from(date) + 1) * DAY + 4 * HOUR
}

// None is refusal 11.
#[tactic(auto, using(crate::proofs::Windows::accepted, crate::proofs::Windows::within_clock), unfolding(crate::specs::Calendar::window_in, crate::specs::Calendar::opens_at, crate::specs::Calendar::closes_at))]
pub fn window_of(pil: u32, year: u8) -> Option<Window>
    ensures { validity_answer result ≡ window_in pil year }
{
    if (99 < year) | !(pil < 1048576) | !real_in(pil, year) {
        return None;
    }
    let p = parts(pil);
    let date = days::day_number(year, p.month, p.day);
    Some(Window {
        opens: opening_of(date, p.hour) as u32,
        closes: closing_of(date) as u32,
    })
}

// 'Its announced second', of whatever PIL and year: a caller that wants it real asks for the window.
#[tactic(auto, unfolding(crate::specs::Calendar::announced_at))]
pub fn announced_of(pil: u32, year: u8) -> u64
    ensures { result ≡ announced_at pil year }
{
    let p = parts(pil);
    let date = days::day_number(year, p.month, p.day);
    u64::from(date) * DAY + u64::from(p.hour) * HOUR + u64::from(p.minute) * MINUTE
}

// The laws of the calendar, as a promise of the crate.
pub fn lawful() -> bool
    ensures { (result ≡ true) × Laws }
{
    true
}
