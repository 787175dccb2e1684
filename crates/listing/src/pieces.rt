// A page fed piece by piece, and its listing reported.
ghost use Rattle.std.specs.Prelude.{◌≤◌, ◌≡◌, ◌++◌, length, take};
ghost use Rattle.answer.specs.Text.{Stored};
ghost use Rattle.text.specs.Printed.{Printed};
ghost use Rattle.programmes.specs.Written.{programmes_of};
ghost use Rattle.listing.specs.Listing.{programme_lines, count_line};
ghost use Rattle.listing.specs.Pieces.{held_in, blank, after_piece, is_full, left, reported_by, out_after, ReadAs, read_lines};

use crate::Collected;
use crate::lines::{count_line, programme_line, refusal_line};
use answer::least;
use held::{Collecting, Held};
use programmes::{Page, Refusal};
use text::Printer;

// Seventeen packets: a seventeenth has no designation left, and what follows it decides nothing.
const DECIDING: usize = 714;

// No page has more programmes.
const MOST: usize = 103;

// No listing is longer.
const LONGEST: usize = 5568;

// 'For each programme .. then `Z count`.'
fn put_page(out: &mut Printer<'_>, page: Page)
    ensures { Printed out.old (programme_lines (programmes_of page) ++ count_line page.count) out.new }
{
    let shown = &page.programmes[..least(page.count, MOST)];
    for q in shown {
        programme_line(out, *q);
    }
    count_line(out, page.count);
}

// 'For a refused page `R number` alone.'
#[tactic(auto, unfolding(crate::specs::Pieces::read_lines))]
fn put_reading(out: &mut Printer<'_>, reading: Result<Page, Refusal>)
    ensures { Printed out.old (read_lines reading) out.new }
{
    match reading {
        Ok(page) => put_page(out, page),
        Err(refusal) => refusal_line(out, refusal.number()),
    }
}

// From the buffer's first place on.
#[tactic(auto, using(text::proofs::Printing::stored))]
fn print(out: &mut [u8], reading: Result<Page, Refusal>) -> usize
    requires { length (read_lines reading) ≤ length out.old }
    ensures { Stored out.old 0 (read_lines reading) result out.new }
{
    let mut printer = Printer { buffer: out, at: 0 };
    put_reading(&mut printer, reading);
    printer.at
}

fn read_held(bytes: [u8; 714], n: usize) -> Result<Page, Refusal>
    ensures { ReadAs (take (held_in n) bytes) result }
{
    let end = least(n, DECIDING);
    preselection::read(&bytes[..end])
}

impl Collected {
    #[tactic(auto, unfolding(crate::specs::Pieces::blank))]
    pub fn new() -> Collected
        ensures { result ≡ blank }
    {
        Collected { held: Held::new() }
    }

    // As many bytes of a piece as find room are kept.
    #[tactic(auto, unfolding(crate::specs::Pieces::after_piece))]
    pub fn feed(self, piece: &[u8]) -> Collected
        ensures value { result ≡ after_piece piece.now self }
        ensures piece_value { piece.exit.now ≡ piece.entry.now }
    {
        Collected {
            held: self.held.feed(piece),
        }
    }

    // Whether no byte more decides anything (law `settled`).
    pub fn full(self) -> bool
        ensures { result ≡ is_full self }
    {
        self.held.full()
    }

    // The input's end prints the listing, where it fits.
    pub fn report(self, out: &mut [u8]) -> usize
        ensures { (result ≡ reported_by out.old self) × (out.new ≡ out_after out.old self) }
    {
        if out.len() < LONGEST {
            return 0;
        }
        print(out, read_held(self.held.bytes, self.held.length))
    }
}

impl Collecting for Collected {
    ghost left = { left };

    ghost after = { after_piece };

    fn fed(self, piece: &[u8]) -> Collected {
        self.feed(piece)
    }

    fn is_full(self) -> bool {
        self.full()
    }
}
