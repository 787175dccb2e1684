// The lines of a report.
#![tactic(auto, using(text::proofs::Printing::printing))]

ghost use Rattle.std.specs.Prelude.{cond, ◌≡◌, ◌∷◌, []};
ghost use Rattle.answer.specs.Text.{space, digit};
ghost use Rattle.text.specs.Printed.{Printed};
ghost use Rattle.report.specs.Report.{a_line, tuner_line, last_line};

use crate::Tuner;
use answer::digit;
use text::Printer;

// Ten digits hold each of the numbers.
const DIGITS: usize = 10;

// A line's letter and its tuner.
fn open_line(out: &mut Printer<'_>, tuner: u32)
    ensures { Printed out.old (65 ∷ space ∷ digit tuner ∷ []) out.new }
{
    out.put(b'A');
    out.put(b' ');
    out.put(digit(tuner as usize));
}

// '`A tuner clean mended bytes refused`.'
fn a_line(out: &mut Printer<'_>, tuner: u32, h: Tuner)
    ensures { Printed out.old (a_line tuner h) out.new }
{
    open_line(out, tuner);
    out.column(h.clean as usize, DIGITS);
    out.column(h.mended as usize, DIGITS);
    out.column(h.bytes as usize, DIGITS);
    out.column(h.refused as usize, DIGITS);
    out.put(b'\n');
}

// 'For each of the tuners 0 to 3 that a packet came from.'
pub(crate) fn tuner_line(out: &mut Printer<'_>, tuner: u32, h: Tuner)
    ensures { Printed out.old (tuner_line tuner h) out.new }
{
    if h.clean == 0 && h.mended == 0 && h.refused == 0 {
        return;
    }
    a_line(out, tuner, h);
}

fn letter(whole: bool) -> u8
    ensures { result ≡ cond whole 90 88 }
{
    if whole { b'Z' } else { b'X' }
}

// 'Then `Z`', or `X` in its place.
pub(crate) fn last_line(out: &mut Printer<'_>, whole: bool)
    ensures { Printed out.old (last_line whole) out.new }
{
    out.put(letter(whole));
    out.put(b'\n');
}
