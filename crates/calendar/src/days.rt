// The days of the clock's years, counted from 2000.
ghost use Rattle.std.specs.Prelude.{◌&&◌, cond, ◌≡◌};
ghost use Rattle.calendar.specs.Calendar.{leap, days_in, day_exists, days_before_month, days_before_year, day_number};

use answer::at_or;

// The days of the months 0 to 12 where the year is not leap: there is no month 0.
const MONTH_LENGTHS: [u8; 13] = [0, 31, 28, 31, 30, 31, 30, 31, 31, 30, 31, 30, 31];

// The days before each of them: the sums of these.
const DAYS_BEFORE: [u16; 13] = [0, 0, 31, 59, 90, 120, 151, 181, 212, 243, 273, 304, 334];

// The leap day, where it counts.
#[tactic(auto, unfolding(crate::specs::Calendar::leap))]
fn leap_day(year: u8, counts: bool) -> u8
    ensures { result ≡ cond (counts && leap year) 1 0 }
{
    u8::from(counts & (year % 4 == 0))
}

#[tactic(auto, unfolding(crate::specs::Calendar::days_in))]
fn days_in(year: u8, month: u8) -> u8
    ensures { result ≡ days_in year month }
{
    at_or(MONTH_LENGTHS, month as usize, 0) + leap_day(year, month == 2)
}

#[tactic(auto, unfolding(crate::specs::Calendar::day_exists))]
pub(crate) fn day_exists(year: u8, month: u8, day: u8) -> bool
    ensures { result ≡ day_exists year month day }
{
    (1 <= day) & (day <= days_in(year, month))
}

#[tactic(auto, using(crate::proofs::Counting::days_before_month_table))]
fn days_before_month(year: u8, month: u8) -> u16
    ensures { result ≡ days_before_month year month }
{
    at_or(DAYS_BEFORE, month as usize, 365) + u16::from(leap_day(year, 2 < month))
}

// In closed form: one leap day for each fourth year, the first included.
#[tactic(auto, using(crate::proofs::Counting::closed_form))]
fn days_before_year(year: u8) -> u32
    ensures { result ≡ days_before_year year }
{
    let years = u32::from(year);
    365 * years + (years + 3) / 4
}

#[tactic(auto, using(crate::proofs::Counting::closed_form), unfolding(crate::specs::Calendar::day_number))]
pub(crate) fn day_number(year: u8, month: u8, day: u8) -> u32
    ensures { result ≡ day_number year month day }
{
    (days_before_year(year)
        + u32::from(days_before_month(year, month))
        + u32::from(day)).saturating_sub(1)
}
