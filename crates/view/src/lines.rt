// The lines of a page.
#![tactic(auto, using(text::proofs::Printing::printing))]

ghost use Rattle.std.specs.Prelude.{◌≡◌};
ghost use Rattle.text.specs.Printed.{Printed};
ghost use Rattle.view.specs.View.{time_column, hexadecimal, network_column, offset_column, record_of};
ghost use Rattle.view.specs.View.{beginning, middle, ending, programme_line, count_line, refusal_line};
ghost use Rattle.view.specs.Reported.{longest_line};

use announced::Time;
use figures::Offset;
use preview::Programme;
use text::Printer;

fn put_time(out: &mut Printer<'_>, t: Time)
    ensures { Printed out.old (time_column t) out.new }
{
    out.put(b' ');
    out.hour_minute(t.hour, t.minute);
}

// A number's last hexadecimal digit.
fn figure(n: u16) -> u8
    ensures { result ≡ hexadecimal n }
{
    let d = (n % 16) as u8;
    if d < 10 { b'0' + d } else { b'A' - 10 + d }
}

// 'Four hexadecimal digits.'
fn put_network(out: &mut Printer<'_>, n: u16)
    ensures { Printed out.old (network_column n) out.new }
{
    out.put(b' ');
    out.put(figure(n / 4096));
    out.put(figure(n / 256));
    out.put(figure(n / 16));
    out.put(figure(n));
}

// 'With `-` where it is negative.'
fn put_offset(out: &mut Printer<'_>, o: Offset)
    ensures { Printed out.old (offset_column o) out.new }
{
    match o {
        Offset::Plus(q) => out.quarters(q, false),
        Offset::Minus(q) => out.quarters(q, true),
    }
}

fn record(original: Time) -> u8
    ensures { result ≡ record_of original }
{
    u8::from(original.hour != 25 || original.minute != 0)
}

// '`V row column start finish ..`.'
fn put_beginning(out: &mut Printer<'_>, q: Programme)
    ensures { Printed out.old (beginning q) out.new }
{
    out.put(b'V');
    out.pair(q.row, q.column);
    put_time(out, q.start);
    put_time(out, q.finish);
}

// '`.. day month year network ..`.'
#[tactic(auto, using(text::proofs::Printing::printing), unfolding(crate::specs::View::middle))]
fn put_middle(out: &mut Printer<'_>, q: Programme)
    ensures { Printed out.old (middle q) out.new }
{
    out.pair(q.day, q.month);
    out.column(q.year as usize, 3);
    put_network(out, q.network);
}

// '`.. original offset type record`.'
#[tactic(auto, using(text::proofs::Printing::printing), unfolding(crate::specs::View::ending))]
fn put_ending(out: &mut Printer<'_>, q: Programme)
    ensures { Printed out.old (ending q) out.new }
{
    put_time(out, q.original);
    put_offset(out, q.offset);
    out.pair(q.pty, record(q.original));
}

pub(crate) fn programme_line(out: &mut Printer<'_>, q: Programme)
    ensures { Printed out.old (programme_line q) out.new }
{
    put_beginning(out, q);
    put_middle(out, q);
    put_ending(out, q);
    out.put(b'\n');
}

// 'Then `Z count`.'
#[tactic(auto, unfolding(crate::specs::View::count_line))]
pub(crate) fn count_line(out: &mut Printer<'_>, count: usize)
    ensures { Printed out.old (count_line count) out.new }
{
    out.number_line(b'Z', count);
}

// 'For a refused page `R number` alone.'
#[tactic(auto, unfolding(crate::specs::View::refusal_line))]
pub(crate) fn refusal_line(out: &mut Printer<'_>, number: u8)
    ensures { Printed out.old (refusal_line number) out.new }
{
    out.number_line(b'R', number as usize);
}
