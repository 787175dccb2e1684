// The ranges of a programme's fields.
ghost use Rattle.std.specs.Prelude.{◌||◌, ◌≡◌, ltb};
ghost use Rattle.programmes.specs.Written.{outside_offset, outside_finish, outside_series};

use group::Offset;
use programmes::Finish;

// 'Month not 1 to 12, day not 1 to 31, hour above 23, minute above 59.'
pub(crate) fn outside_time(month: u8, day: u8, hour: u8, minute: u8) -> bool
    ensures { result ≡ (ltb month 1 || ltb 12 month || ltb day 1 || ltb 31 day || ltb 23 hour || ltb 59 minute) }
{
    (month < 1) | (12 < month) | (day < 1) | (31 < day) | (23 < hour) | (59 < minute)
}

// 'Row not 1 to 24, column above 39.'
pub(crate) fn outside_screen(row: u8, column: u8) -> bool
    ensures { result ≡ (ltb row 1 || ltb 24 row || ltb 39 column) }
{
    (row < 1) | (24 < row) | (39 < column)
}

// 'Offset beyond 63 either way'; minus 0 is east.
pub(crate) fn outside_offset(o: Offset) -> bool
    ensures { result ≡ outside_offset o }
{
    match o {
        Offset::East(quarters) => 63 < quarters,
        Offset::West(quarters) => (quarters < 1) | (63 < quarters),
    }
}

// 'A finishing time beyond 23:59 or a duration beyond 39:59.'
pub(crate) fn outside_finish(x: Finish) -> bool
    ensures { result ≡ outside_finish x }
{
    match x {
        Finish::Absent => false,
        Finish::Time(hour, minute) => (23 < hour) | (59 < minute),
        Finish::Duration(hours, minutes) => (39 < hours) | (59 < minutes),
    }
}

pub(crate) fn outside_series(x: Option<u8>) -> bool
    ensures { result ≡ outside_series x }
{
    match x {
        None => false,
        Some(code) => 127 < code,
    }
}
