// How bad each tuner's aerial is: its packets in a sheet, counted as they are read, however the sheet arrives in pieces.
#![tactic(auto)]

mod counts; // one packet more
mod pieces; // a sheet fed piece by piece, and reported

ghost use Rattle.std.specs.Prelude.{true, ◌≡◌};
ghost use Rattle.tally.specs.Laws.{Laws};

use items::Split;
use report::Tuner;

// A sheet as far as its packets have been counted: the items as far as they are split, and the four tuners.
#[derive(Clone, Copy)]
pub struct Tally {
    pub split: Split,
    pub tuners: [Tuner; 4],
}

// The laws of the counts, as a promise of the crate.
pub fn lawful() -> bool
    ensures { (result ≡ true) × Laws }
{
    true
}
