// What is printed of a preview page: its bytes read, as far as they are collected, and its programmes told.
#![tactic(auto)]

mod lines; // the lines, stored in a buffer
mod page; // the lines one after the other

ghost use Rattle.std.specs.Prelude.{true, ◌≡◌};
ghost use Rattle.view.specs.Reported.{ReportedAs};
ghost use Rattle.view.specs.Laws.{Laws};

use collected::Collected;

// No print of a page is longer.
const LONGEST: usize = 1542;

// The input's end prints what the page is answered with, where it fits. 0 where it does not, and no `Option`, as in `report`.
pub fn report(collected: Collected, out: &mut [u8]) -> usize
    ensures { ReportedAs out.old collected result out.new }
{
    if out.len() < LONGEST {
        return 0;
    }
    page::print(out, collected.read())
}

// The laws of what is printed, as a promise of the crate.
pub fn lawful() -> bool
    ensures { (result ≡ true) × Laws }
{
    true
}
