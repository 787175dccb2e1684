// What the figures of a format mean, and whether they are permitted.
#![tactic(auto)]

ghost use Rattle.std.specs.Prelude.{true, ◌≡◌};
ghost use Rattle.figures.specs.Taken.{found_from};
ghost use Rattle.figures.specs.Laws.{Laws};

use formats::Start;

mod meaning; // what a format's figures mean

// 'The offset is a signed count of quarter hours.'
#[derive(Clone, Copy)]
pub enum Offset {
    Plus(u8),
    Minus(u8),
}

// What a format tells: hours and minutes, a day, month and year, a number, or that its figures are not permitted.
#[derive(Clone, Copy)]
pub enum Value {
    Text,
    Wrong,
    Single(u8, u8),
    Double(u8, u8, u8, u8),
    Original(u8, u8),
    Date(u8, u8, u8),
    Network(u16),
    Offset(Offset),
    Pty(u8),
    Word(u8),
}

// A format's value, and what its figures add to the page's sum.
#[derive(Clone, Copy)]
pub struct Found {
    pub value: Value,
    pub sum: u8,
}

// What the first n of eleven codes tell after a start.
#[tactic(auto, unfolding(crate::specs::Taken::found_by, crate::specs::Taken::found_from))]
pub fn found_in(s: Start, n: usize, codes: [u8; 11]) -> Found
    ensures { result ≡ found_from s n codes }
{
    let kind = formats::kind_of(s, n, codes);
    Found {
        value: meaning::value_of(kind, codes),
        sum: sums::sum_of(kind, codes),
    }
}

// The laws of the figures, as a promise of the crate.
pub fn lawful() -> bool
    ensures { (result ≡ true) × Laws }
{
    true
}
