// A row of a preview page, taken one code at a time: the formats and the title that it contains.
#![tactic(auto)]

ghost use Rattle.std.specs.Prelude.{true, ◌≡◌};
ghost use Rattle.rows.specs.Laws.{Laws};
ghost use Rattle.rows.specs.Taken.{found_here, titled_by, is_text_value, row_next, row_start, count_after};

use codes::Colour;
use figures::{Found, Value};
use formats::Start;

mod title; // the title that is being read

// The title that is being read: none, one whose pair has begun, one without text so far, one with text; or the row has had its title.
#[derive(Clone, Copy)]
pub enum Reading {
    Nothing,
    Opened,
    Empty,
    Filled,
    Done,
}

// The colour in force; what the last mark starts, how many codes have come since, the first eleven of them; the title that is being
// read, and the column of its pair.
#[derive(Clone, Copy)]
pub struct Row {
    pub colour: Colour,
    pub start: Start,
    pub count: usize,
    pub codes: [u8; 11],
    pub title: Reading,
    pub column: u8,
}

fn count_after(n: usize) -> usize
    ensures { result ≡ count_after n }
{
    if n < 12 {
        return n + 1;
    }
    n
}

pub fn is_text(v: Value) -> bool
    ensures { result ≡ is_text_value v }
{
    matches!(v, Value::Text)
}

impl Row {
    pub fn new() -> Row
        ensures { result ≡ row_start }
    {
        Row {
            colour: Colour::Plain,
            start: Start::Nothing,
            count: 0,
            codes: [0; 11],
            title: Reading::Nothing,
            column: 0,
        }
    }

    // 'Where open figures are a format, they are given out', at an end.
    #[tactic(auto, unfolding(crate::specs::Taken::kind_here, crate::specs::Taken::found_here, figures::specs::Taken::found_by, figures::specs::Taken::found_from, figures::specs::Permitted::permitted, figures::specs::Permitted::value_of, sums::specs::Counted::counted))]
    pub fn found(self, end: bool) -> Found
        ensures { result ≡ found_here self end }
    {
        if end {
            return figures::found_in(self.start, self.count, self.codes);
        }
        Found {
            value: Value::Text,
            sum: 0,
        }
    }

    // 'A second equal `+`, `%` or `:` ends a title being read that has text before the pair', and so does the row's end.
    pub fn titled(self, pair: bool, text: bool) -> bool
        ensures { result ≡ titled_by self pair text }
    {
        text & (pair & title::is_filled(self.title))
    }

    // After a code at column p, where a pair begins or not, and no format has been given out or one has.
    #[tactic(auto, unfolding(crate::specs::Taken::row_next))]
    pub fn next(self, c: u8, p: u8, pair: bool, text: bool) -> Row
        ensures { result ≡ row_next self c p pair text }
    {
        let row = Row {
            colour: codes::colour_by(self.colour, c),
            title: title::next(self.colour, self.title, c, pair, text),
            column: title::column(self.colour, self.column, c, p, pair),
            ..self
        };
        if codes::is_mark(c) {
            return Row {
                start: formats::start_of(self.colour, c),
                count: 0,
                ..row
            };
        }
        // Past the eleventh nothing is kept.
        Row {
            count: count_after(self.count),
            codes: answer::put(self.codes, self.count, c),
            ..row
        }
    }
}

// The laws of a row, as a promise of the crate.
pub fn lawful() -> bool
    ensures { (result ≡ true) × Laws }
{
    true
}
