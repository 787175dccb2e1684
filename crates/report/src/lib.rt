// What is printed of four tuners, stored in a buffer.
#![tactic(auto)]

mod lines; // the lines

ghost use Rattle.std.specs.Prelude.{true, ◌≡◌, get_or};
ghost use Rattle.text.specs.Printed.{Printed};
ghost use Rattle.report.specs.Laws.{Laws};
ghost use Rattle.report.specs.Report.{silence, report};
ghost use Rattle.report.specs.Room.{longest, length_in, stored_in};

use crate::lines::{last_line, tuner_line};
use text::Printer;

// No report is longer.
const LONGEST: usize = 194;

// What came from one tuner: packets read clean, packets read with mended bytes, mended bytes in all, packets refused.
#[derive(Clone, Copy)]
pub struct Tuner {
    pub clean: u32,
    pub mended: u32,
    pub bytes: u32,
    pub refused: u32,
}

// 'For each of the tuners 0 to 3 .. in order .. then `Z`.'
fn put_report(out: &mut Printer<'_>, tuners: [Tuner; 4], whole: bool)
    ensures { Printed out.old (report (λ k. get_or tuners k silence) whole) out.new }
{
    tuner_line(out, 0, tuners[0]);
    tuner_line(out, 1, tuners[1]);
    tuner_line(out, 2, tuners[2]);
    tuner_line(out, 3, tuners[3]);
    last_line(out, whole);
}

// The report, where it fits. 0 where it does not, and no `Option`: so many bytes are written out, and no caller has a case for it.
#[tactic(auto, unfolding(crate::specs::Room::length_in, crate::specs::Room::stored_in))]
pub fn report(tuners: [Tuner; 4], whole: bool, out: &mut [u8]) -> usize
    ensures { (result ≡ length_in out.old (report (λ k. get_or tuners k silence) whole))
        × (out.new ≡ stored_in out.old (report (λ k. get_or tuners k silence) whole)) }
{
    if out.len() < LONGEST {
        return 0;
    }
    let mut printer = Printer { buffer: out, at: 0 };
    put_report(&mut printer, tuners, whole);
    printer.at
}

// The laws of a report, as a promise of the crate.
pub fn lawful() -> bool
    ensures { (result ≡ true) × Laws }
{
    true
}
