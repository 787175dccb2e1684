// What is printed of a page: its packets collected, however they arrive in pieces, read, and listed.
#![tactic(auto)]

mod lines; // the lines, stored in a buffer
mod pieces; // a page fed piece by piece, and reported

ghost use Rattle.std.specs.Prelude.{true, ◌≡◌};
ghost use Rattle.listing.specs.Laws.{Laws};

use held::Held;

// A page as far as it has arrived: its first bytes, up to the end of a seventeenth packet, and how many there are.
#[derive(Clone, Copy)]
pub struct Collected {
    pub held: Held<714>,
}

// The laws of the listing, as a promise of the crate.
pub fn lawful() -> bool
    ensures { (result ≡ true) × Laws }
{
    true
}
