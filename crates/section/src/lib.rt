// The timers section of a sheet, out of a preview page that arrives in pieces behind the number of a home tuner.
#![tactic(auto)]

ghost use Rattle.std.specs.Prelude.{true, ◌≡◌};
ghost use Rattle.preview.specs.Taken.{reading_answer};
ghost use Rattle.section.specs.Asked.{nothing, after_piece, is_full, left, SectionAs};
ghost use Rattle.section.specs.Laws.{Laws};

use collected::Collected;
use held::Collecting;
use preview::Refusal;

mod timers; // a page's timers as the entries of a sheet

// What is written: the first `length` bytes.
#[derive(Clone, Copy)]
pub struct Section {
    pub length: usize,
    pub bytes: [u8; 217],
}

// How many timers there are so far, and their entries behind the place of their count.
#[derive(Clone, Copy)]
struct Entries {
    count: usize,
    bytes: [u8; 217],
}

// What is asked for, as far as it has arrived: the home tuner, once a byte has, and the page.
#[derive(Clone, Copy)]
pub struct Asked {
    pub tuner: Option<u8>,
    pub page: Collected,
}

impl Asked {
    #[tactic(auto, unfolding(crate::specs::Asked::nothing))]
    pub fn new() -> Asked
        ensures { result ≡ nothing }
    {
        Asked {
            tuner: None,
            page: Collected::new(),
        }
    }

    // The first byte of all is the home tuner, and what follows is the page.
    pub fn feed(self, piece: &[u8]) -> Asked
        ensures value { result ≡ after_piece piece.now self }
        ensures piece_value { piece.exit.now ≡ piece.entry.now }
    {
        match self.tuner {
            Some(_) => Asked {
                page: self.page.feed(piece),
                ..self
            },
            None if piece.is_empty() => self,
            None => Asked {
                tuner: Some(piece[0]),
                page: self.page.feed(&piece[1..]),
            },
        }
    }

    // Whether no byte more decides anything (law `settled`).
    pub fn full(self) -> bool
        ensures { result ≡ is_full self }
    {
        self.tuner.is_some() && self.page.full()
    }

    // The input's end: the section, or why the page is refused.
    pub fn section(self) -> Result<Section, Refusal>
        ensures { SectionAs self (reading_answer result) }
    {
        timers::section_of(self.tuner.unwrap_or(0), self.page.read())
    }
}

impl Collecting for Asked {
    ghost left = { left };

    ghost after = { after_piece };

    fn fed(self, piece: &[u8]) -> Asked {
        self.feed(piece)
    }

    fn is_full(self) -> bool {
        self.full()
    }
}

// The laws of a page's timers section, as a promise of the crate.
pub fn lawful() -> bool
    ensures { (result ≡ true) × Laws }
{
    true
}
