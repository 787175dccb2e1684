// The lines of a listing.
#![tactic(auto, using(text::proofs::Printing::printing))]

ghost use Rattle.std.specs.Prelude.{◌++◌};
ghost use Rattle.text.specs.Columns.{signed};
ghost use Rattle.text.specs.Printed.{Printed};
ghost use Rattle.listing.specs.Listing.{plus, hour_minute, finish_column, offset_column, series_column};
ghost use Rattle.listing.specs.Listing.{beginning, ending, programme_line, count_line, refusal_line};

use group::Offset;
use programmes::{Finish, Programme};
use text::Printer;

fn put_time(out: &mut Printer<'_>, h: u8, m: u8, duration: bool)
    ensures { Printed out.old (signed plus duration ++ hour_minute h m) out.new }
{
    out.sign(b'+', duration);
    out.hour_minute(h, m);
}

// '`-`, `h:m` for a time or `+h:m` for a duration.'
fn put_finish(out: &mut Printer<'_>, x: Finish)
    ensures { Printed out.old (finish_column x) out.new }
{
    match x {
        Finish::Absent => out.sign(b'-', true),
        Finish::Time(h, m) => put_time(out, h, m, false),
        Finish::Duration(h, m) => put_time(out, h, m, true),
    }
}

// 'With `-` where it is negative.'
fn put_offset(out: &mut Printer<'_>, o: Offset)
    ensures { Printed out.old (offset_column o) out.new }
{
    match o {
        Offset::East(q) => out.quarters(q, false),
        Offset::West(q) => out.quarters(q, true),
    }
}

// '`-` or its code.'
fn put_series(out: &mut Printer<'_>, s: Option<u8>)
    ensures { Printed out.old (series_column s) out.new }
{
    match s {
        None => out.sign(b'-', true),
        Some(k) => out.column(k as usize, 3),
    }
}

// '`G row column day month hour minute`.'
fn put_beginning(out: &mut Printer<'_>, q: Programme)
    ensures { Printed out.old (beginning q) out.new }
{
    out.put(b'G');
    out.pair(q.row, q.column);
    out.pair(q.day, q.month);
    out.pair(q.hour, q.minute);
}

// '`finish country source offset flag series`.'
fn put_ending(out: &mut Printer<'_>, q: Programme)
    ensures { Printed out.old (ending q) out.new }
{
    put_finish(out, q.finish);
    out.pair(q.country, q.source);
    put_offset(out, q.offset);
    out.column(usize::from(q.controlled), 3);
    put_series(out, q.series);
}

#[tactic(auto, using(text::proofs::Printing::printing), unfolding(crate::specs::Listing::programme_line))]
pub(crate) fn programme_line(out: &mut Printer<'_>, q: Programme)
    ensures { Printed out.old (programme_line q) out.new }
{
    put_beginning(out, q);
    put_ending(out, q);
    out.put(b'\n');
}

// 'Then `Z count`.'
#[tactic(auto, unfolding(crate::specs::Listing::count_line))]
pub(crate) fn count_line(out: &mut Printer<'_>, count: usize)
    ensures { Printed out.old (count_line count) out.new }
{
    out.number_line(b'Z', count);
}

// 'For a refused page `R number` alone.'
#[tactic(auto, unfolding(crate::specs::Listing::refusal_line))]
pub(crate) fn refusal_line(out: &mut Printer<'_>, number: u8)
    ensures { Printed out.old (refusal_line number) out.new }
{
    out.number_line(b'R', number as usize);
}
