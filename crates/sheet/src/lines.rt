// The lines that a sheet prints.
#![tactic(auto, using(text::proofs::Printing::printing), unfolding(crate::specs::Sheet::decimal))]

ghost use Rattle.std.specs.Prelude.{◌+◌, ◌≤◌, ◌∷◌, [], ◌++◌, length};
ghost use Rattle.reply.specs.Numbers.{add_answer};
ghost use Rattle.answer.specs.Text.{space, line_feed, Stored};
ghost use Rattle.text.specs.Printed.{Printed};
ghost use Rattle.sheet.specs.Sheet.{decimal, timer_line, packet_line};
ghost use Rattle.sheet.specs.Pieces.{longest};

use reply::{AddRefusal, Refusal};
use text::Printer;

// A line's letter and the space after it.
fn open_line(out: &mut Printer<'_>, letter: u8)
    ensures { Printed out.old (letter ∷ space ∷ []) out.new }
{
    out.put(letter);
    out.put(b' ');
}

// A line's last number, and its end.
fn end_line(out: &mut Printer<'_>, n: usize)
    ensures { Printed out.old (decimal n ++ (line_feed ∷ [])) out.new }
{
    out.decimal(n, 2);
    out.put(b'\n');
}

fn refusal(out: &mut Printer<'_>, n: usize)
    ensures { Printed out.old (33 ∷ decimal n ++ (line_feed ∷ [])) out.new }
{
    out.put(b'!');
    end_line(out, n);
}

fn put_timer(out: &mut Printer<'_>, a: Result<usize, AddRefusal>)
    ensures { Printed out.old (timer_line (add_answer a)) out.new }
{
    open_line(out, b'T');
    match a {
        Ok(slot) => end_line(out, slot),
        Err(r) => refusal(out, r.number() as usize),
    }
}

// '`T slot` or `T !number` per timer.'
pub(crate) fn timer_line(out: &mut [u8], at: usize, a: Result<usize, AddRefusal>) -> usize
    requires { at + longest ≤ length out.old }
    ensures { Stored out.old at (timer_line (add_answer a)) result out.new }
{
    let mut printer = Printer { buffer: out, at };
    put_timer(&mut printer, a);
    printer.at
}

// '`P answer live` per packet.'
pub(crate) fn packet_line(out: &mut [u8], at: usize, answer: u8, live: u32) -> usize
    requires { at + longest ≤ length out.old }
    ensures { Stored out.old at (packet_line answer live) result out.new }
{
    let mut printer = Printer { buffer: out, at };
    open_line(&mut printer, b'P');
    printer.decimal(answer as usize, 2);
    printer.put(b' ');
    end_line(&mut printer, live as usize);
    printer.at
}

// 'Then `Z live`', or `X live` in its place.
pub(crate) fn last_line(out: &mut [u8], at: usize, letter: u8, live: u32) -> usize
    requires { at + longest ≤ length out.old }
    ensures { Stored out.old at (letter ∷ space ∷ decimal live ++ (line_feed ∷ [])) result out.new }
{
    let mut printer = Printer { buffer: out, at };
    open_line(&mut printer, letter);
    end_line(&mut printer, live as usize);
    printer.at
}
