// A preview page of EN 300 231 clause 7.3.1: 24 rows of 40 characters, read into its programmes.
#![tactic(auto)]

ghost use Rattle.std.specs.Prelude.{true, ◌≡◌};
ghost use Rattle.preview.specs.Taken.{read_number, ReadAs};
ghost use Rattle.preview.specs.Laws.{Laws};

use announced::Time;
use figures::Offset;
use table::Table;

mod paired; // the programmes as they are given
mod taking; // a row, one code at a time

// A programme of a page: the place of its title, both its times, its network and date, its original time, its offset and its type.
#[derive(Clone, Copy)]
pub struct Programme {
    pub row: u8,
    pub column: u8,
    pub start: Time,
    pub finish: Time,
    pub network: u16,
    pub day: u8,
    pub month: u8,
    pub year: u8,
    pub original: Time,
    pub offset: Offset,
    pub pty: u8,
}

// The first `count` are the page's, in page order.
#[derive(Clone, Copy)]
pub struct Page {
    pub count: usize,
    pub programmes: [Programme; 24],
}

// Why a page is not read: refusals 23, 24 and 25.
#[derive(Clone, Copy, PartialEq, Eq)]
pub enum Refusal {
    Length,
    Unreadable,
    WrongWord,
}

impl Refusal {
    // The paper's number.
    pub fn number(self) -> u8
        ensures { result ≡ read_number self }
    {
        match self {
            Refusal::Length => 23,
            Refusal::Unreadable => 24,
            Refusal::WrongWord => 25,
        }
    }
}

// One pass over the page, code by code; '23 .., 24 .., 25 .., in that order', and of a refused page no programme is told.
pub fn read(bytes: &[u8]) -> Result<Page, Refusal>
    ensures read_as { ReadAs bytes.now result }
    ensures bytes_value { bytes.exit.now ≡ bytes.entry.now }
{
    if bytes.len() != 960 {
        return Err(Refusal::Length);
    }
    let mut t = Table::new();
    for r in 0..24 {
        t = taking::take_row(bytes, r, t);
    }
    if t.high | !taking::is_readable(t) {
        return Err(Refusal::Unreadable);
    }
    if !t.words.agree(t.sum) {
        return Err(Refusal::WrongWord);
    }
    Ok(paired::page_of(t))
}

// The laws of a page, as a promise of the crate.
pub fn lawful() -> bool
    ensures { (result ≡ true) × Laws }
{
    true
}
