// The lines of a page, one after the other.
ghost use Rattle.std.specs.Prelude.{◌≤◌, ◌++◌, length, take};
ghost use Rattle.answer.specs.Text.{Stored};
ghost use Rattle.text.specs.Printed.{Printed};
ghost use Rattle.preview.specs.Taken.{reading_answer};
ghost use Rattle.view.specs.View.{programme_lines, count_line};
ghost use Rattle.view.specs.Reported.{read_lines};

use crate::lines::{count_line, programme_line, refusal_line};
use answer::least;
use preview::{Page, Programme, Refusal};
use text::Printer;

// No page has more programmes.
const MOST: usize = 24;

// 'For each programme .. then `Z count`.'
fn put_page(out: &mut Printer<'_>, programmes: [Programme; 24], count: usize)
    ensures { Printed out.old (programme_lines (take count programmes) ++ count_line count) out.new }
{
    let shown = &programmes[..least(count, MOST)];
    for q in shown {
        programme_line(out, *q);
    }
    count_line(out, count);
}

// 'For a refused page `R number` alone.'
#[tactic(auto, unfolding(crate::specs::Reported::read_lines))]
fn put_reading(out: &mut Printer<'_>, reading: Result<Page, Refusal>)
    ensures { Printed out.old (read_lines (reading_answer reading)) out.new }
{
    match reading {
        Ok(page) => put_page(out, page.programmes, page.count),
        Err(refusal) => refusal_line(out, refusal.number()),
    }
}

// From the buffer's first place on.
pub(crate) fn print(out: &mut [u8], reading: Result<Page, Refusal>) -> usize
    requires { length (read_lines (reading_answer reading)) ≤ length out.old }
    ensures { Stored out.old 0 (read_lines (reading_answer reading)) result out.new }
{
    let mut printer = Printer { buffer: out, at: 0 };
    put_reading(&mut printer, reading);
    printer.at
}
