// The programmes of a page: what its preselection packets mean, what they are written as, and the PIL of each.
#![tactic(auto)]

ghost use Rattle.std.specs.Prelude.{true, ◌≡◌};
ghost use Rattle.programmes.specs.Laws.{Laws};
ghost use Rattle.programmes.specs.Meaning.{nothing};
ghost use Rattle.programmes.specs.Page.{blank, read_number};
ghost use Rattle.programmes.specs.Written.{refusal_number, written_number};

use group::Offset;

pub mod pil; // from a programme to a timer

#[derive(Clone, Copy)]
pub enum Finish {
    Absent,
    Time(u8, u8),
    Duration(u8, u8),
}

#[derive(Clone, Copy)]
pub struct Programme {
    pub row: u8,
    pub column: u8,
    pub day: u8,
    pub month: u8,
    pub hour: u8,
    pub minute: u8,
    pub finish: Finish,
    pub country: u8,
    pub source: u8,
    pub offset: Offset,
    pub controlled: bool,
    pub series: Option<u8>,
}

impl Programme {
    // What stands where a page has no programme.
    pub fn blank() -> Programme
        ensures { result ≡ blank }
    {
        Programme {
            row: 0,
            column: 0,
            day: 0,
            month: 0,
            hour: 0,
            minute: 0,
            finish: Finish::Absent,
            country: 0,
            source: 0,
            offset: Offset::East(0),
            controlled: false,
            series: None,
        }
    }
}

// The first `count` are the page's, in page order.
#[derive(Clone, Copy)]
pub struct Page {
    pub count: usize,
    pub programmes: [Programme; 103],
}

// 'These three data groups activate their functions in the sequence and remain until redefined.'
#[derive(Clone, Copy)]
pub struct InForce {
    pub source: Option<(u8, u8)>, // country and programme source
    pub date: Option<(u8, u8)>, // month and day
    pub offset: Offset,
}

impl InForce {
    // 'In the case that no LTO is transmitted, UTC is presumed.'
    pub fn nothing() -> InForce
        ensures { result ≡ nothing }
    {
        InForce {
            source: None,
            date: None,
            offset: Offset::East(0),
        }
    }
}

// Why a page is not read: refusals 20, 21, 18 and 22.
#[derive(Clone, Copy, PartialEq, Eq)]
pub enum Refusal {
    Length,
    Damaged,
    OtherPacket,
    Lacking,
}

impl Refusal {
    // The paper's number.
    pub fn number(self) -> u8
        ensures { result ≡ read_number self }
    {
        match self {
            Refusal::Length => 20,
            Refusal::Damaged => 21,
            Refusal::OtherPacket => 18,
            Refusal::Lacking => 22,
        }
    }
}

// Why programmes are not written: refusals 20 and 19.
#[derive(Clone, Copy, PartialEq, Eq)]
pub enum WriteRefusal {
    WrongLength,
    OutOfRange,
}

impl WriteRefusal {
    // The paper's number.
    pub fn number(self) -> u8
        ensures { result ≡ refusal_number self }
    {
        match self {
            WriteRefusal::WrongLength => 20,
            WriteRefusal::OutOfRange => 19,
        }
    }
}

// The paper's number of what became of programmes to be written, or 0 where they took some packets.
pub fn written_number(written: Result<u8, WriteRefusal>) -> u8
    ensures { result ≡ written_number written }
{
    match written {
        Err(refusal) => refusal.number(),
        Ok(_) => 0,
    }
}

// The laws of the page, as a promise of the crate.
pub fn lawful() -> bool
    ensures { (result ≡ true) × Laws }
{
    true
}
