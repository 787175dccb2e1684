// The sheet program's work: what a sheet's bytes make the desk say, however they arrive in pieces.
#![tactic(auto)]

mod acts; // what a whole item does to the desk, and prints
mod lines; // the lines, stored in a buffer
mod pieces; // a sheet fed piece by piece, and closed

ghost use Rattle.std.specs.Prelude.{true, ◌≡◌};
ghost use Rattle.sheet.specs.Laws.{Laws};

use desk::Desk;
use items::Split;

// A sheet as far as it has been played: the desk, and the items as far as they are split.
#[derive(Clone, Copy)]
pub struct Sheet {
    pub desk: Desk,
    pub split: Split,
}

// A piece that was taken: the sheet after it, and the place after what it printed.
#[derive(Clone, Copy)]
pub struct Fed {
    pub sheet: Sheet,
    pub at: usize,
}

// The laws of a sheet, as a promise of the crate.
pub fn lawful() -> bool
    ensures { (result ≡ true) × Laws }
{
    true
}
