// The table that the contents of a preview page are entered into: what is announced so far, the original times so far, the sum of the
// figures and the protection words.
#![tactic(auto)]

ghost use Rattle.std.specs.Prelude.{true, ◌≡◌};
ghost use Rattle.figures.specs.Permitted.{words_of};
ghost use Rattle.table.specs.Table.{one_more, no_announcement, no_original, entered, word_after, words_after, agreed, is_wrong, table_start, after_format, titled_at, with_code};
ghost use Rattle.table.specs.Laws.{Laws};

use announced::{Announcement, Stage, Time};
use figures::{Found, Offset, Value};
use originals::{Data, Original};

// The protection words so far: none, all the same, or different ones.
#[derive(Clone, Copy)]
pub enum Words {
    Nothing,
    Same(u8),
    Different,
}

// The first `count` places, and blanks after them; more than 24 count as 25.
#[derive(Clone, Copy)]
pub struct Entries<T> {
    pub count: usize,
    pub places: [T; 24],
}

// What has come of times and titles, and of data; the sum of the figures; whether figures were not permitted, or a code no code.
#[derive(Clone, Copy)]
pub struct Table {
    pub stage: Stage,
    pub announcements: Entries<Announcement>,
    pub carried: Data,
    pub originals: Entries<Original>,
    pub sum: u8,
    pub words: Words,
    pub wrong: bool,
    pub high: bool,
}

fn one_more(n: usize) -> usize
    ensures { result ≡ one_more n }
{
    if n < 25 {
        return n + 1;
    }
    n
}

fn no_announcement() -> Announcement
    ensures { result ≡ no_announcement }
{
    Announcement {
        row: 0,
        column: 0,
        start: Time { hour: 0, minute: 0 },
        finish: Time { hour: 0, minute: 0 },
    }
}

fn no_original() -> Original
    ensures { result ≡ no_original }
{
    Original {
        hour: 0,
        minute: 0,
        network: 0,
        day: 0,
        month: 0,
        year: 0,
        offset: Offset::Plus(0),
        pty: 0,
    }
}

// 'AT-2 formats are entered in the order of their appearance', and programmes likewise. Past the last place nothing is put, which no page
// comes to (law `at_most_24` of `preview`).
fn entered<T: Copy>(all: Entries<T>, more: Option<T>) -> Entries<T>
    ensures { result ≡ entered all more }
{
    match more {
        Some(x) => Entries {
            count: one_more(all.count),
            places: answer::put(all.places, all.count, x),
        },
        None => all,
    }
}

fn word_after(w: Words, n: u8) -> Words
    ensures { result ≡ word_after w n }
{
    match w {
        Words::Nothing => Words::Same(n),
        Words::Same(m) if m == n => w,
        _ => Words::Different,
    }
}

fn words_after(w: Words, v: Value) -> Words
    ensures { result ≡ words_after w (words_of v) }
{
    match v {
        Value::Word(n) => word_after(w, n),
        _ => w,
    }
}

fn is_wrong(v: Value) -> bool
    ensures { result ≡ is_wrong v }
{
    matches!(v, Value::Wrong)
}

impl Words {
    // 'At least one protection word stands on the page, .. and each one is this sum.'
    pub fn agree(self, sum: u8) -> bool
        ensures { result ≡ agreed self sum }
    {
        match self {
            Words::Same(n) => n == sum,
            _ => false,
        }
    }
}

impl Table {
    pub fn new() -> Table
        ensures { result ≡ table_start }
    {
        Table {
            stage: Stage::First,
            announcements: Entries {
                count: 0,
                places: [no_announcement(); 24],
            },
            carried: Data::new(),
            originals: Entries {
                count: 0,
                places: [no_original(); 24],
            },
            sum: 0,
            words: Words::Nothing,
            wrong: false,
            high: false,
        }
    }

    // 'Entering the contents from the formats found into the columns concerned.'
    #[tactic(auto, unfolding(crate::specs::Table::after_format))]
    pub fn format(self, f: Found) -> Table
        ensures { result ≡ after_format self f }
    {
        Table {
            stage: self.stage.after(f.value),
            announcements: entered(self.announcements, self.stage.told(f.value)),
            carried: self.carried.after(f.value),
            originals: entered(self.originals, self.carried.given(f.value)),
            sum: self.sum.wrapping_add(f.sum),
            words: words_after(self.words, f.value),
            wrong: self.wrong | is_wrong(f.value),
            ..self
        }
    }

    // 'Any PTL formats occurring are entered in the row of the table that contains the last time entry.'
    #[tactic(auto, unfolding(crate::specs::Table::titled_at))]
    pub fn titled(self, row: u8, column: u8) -> Table
        ensures { result ≡ titled_at self row column }
    {
        Table {
            stage: self.stage.titled(row, column),
            announcements: entered(self.announcements, self.stage.entitled(row, column)),
            ..self
        }
    }

    // 'A code is 0 to 127.'
    #[tactic(auto, unfolding(crate::specs::Table::with_code))]
    pub fn coded(self, c: u8) -> Table
        ensures { result ≡ with_code self c }
    {
        Table {
            high: self.high | (127 < c),
            ..self
        }
    }
}

// The laws of the table, as a promise of the crate.
pub fn lawful() -> bool
    ensures { (result ≡ true) × Laws }
{
    true
}
