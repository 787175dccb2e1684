// A preview page's bytes collected, however they arrive in pieces, and read.
#![tactic(auto)]

ghost use Rattle.std.specs.Prelude.{true, ◌≡◌, take};
ghost use Rattle.preview.specs.Taken.{ReadAs};
ghost use Rattle.collected.specs.Collected.{held_in, held, blank, after_piece, is_full, left};
ghost use Rattle.collected.specs.Laws.{Laws};

use answer::least;
use held::{Collecting, Held};
use preview::{Page, Refusal};

// A byte more than a page has: what follows it decides nothing.
const DECIDING: usize = 961;

// A page as far as it has arrived: its first bytes, one more than a page has, and how many there are.
#[derive(Clone, Copy)]
pub struct Collected {
    pub held: Held<961>,
}

fn read_first(bytes: [u8; 961], n: usize) -> Result<Page, Refusal>
    ensures { ReadAs (take (held_in n) bytes) result }
{
    let end = least(n, DECIDING);
    preview::read(&bytes[..end])
}

impl Collected {
    #[tactic(auto, unfolding(crate::specs::Collected::blank))]
    pub fn new() -> Collected
        ensures { result ≡ blank }
    {
        Collected { held: Held::new() }
    }

    // As many bytes of a piece as find room are kept.
    #[tactic(auto, unfolding(crate::specs::Collected::after_piece))]
    pub fn feed(self, piece: &[u8]) -> Collected
        ensures value { result ≡ after_piece piece.now self }
        ensures piece_value { piece.exit.now ≡ piece.entry.now }
    {
        Collected {
            held: self.held.feed(piece),
        }
    }

    // Whether no byte more decides anything (law `settled`).
    pub fn full(self) -> bool
        ensures { result ≡ is_full self }
    {
        self.held.full()
    }

    // The page, where the input ends here.
    #[tactic(auto, unfolding(crate::specs::Collected::held, held::specs::Held::held))]
    pub fn read(self) -> Result<Page, Refusal>
        ensures { ReadAs (held self) result }
    {
        read_first(self.held.bytes, self.held.length)
    }
}

impl Collecting for Collected {
    ghost left = { left };

    ghost after = { after_piece };

    fn fed(self, piece: &[u8]) -> Collected {
        self.feed(piece)
    }

    fn is_full(self) -> bool {
        self.full()
    }
}

// The laws of a page as it is collected, as a promise of the crate.
pub fn lawful() -> bool
    ensures { (result ≡ true) × Laws }
{
    true
}
