// Networks, dates, offsets, types and original times of a preview page, in page order: each original time with what it is carried on to.
#![tactic(auto)]

ghost use Rattle.std.specs.Prelude.{true, ◌≡◌};
ghost use Rattle.originals.specs.Data.{nothing, original_by, data_of};
ghost use Rattle.originals.specs.Taken.{data_start, after_network, after_date, after_offset, after_type, after_original, may_end, data_from, originals_from, given_of};
ghost use Rattle.originals.specs.Laws.{Laws};

use figures::{Offset, Value};

#[derive(Clone, Copy)]
pub struct Date {
    pub day: u8,
    pub month: u8,
    pub year: u8,
}

// What has been given before: 'until it is replaced'.
#[derive(Clone, Copy)]
pub struct InForce {
    pub network: Option<u16>,
    pub date: Option<Date>,
    pub offset: Offset,
    pub pty: u8,
}

// An original time with its network, date, offset and type.
#[derive(Clone, Copy)]
pub struct Original {
    pub hour: u8,
    pub minute: u8,
    pub network: u16,
    pub day: u8,
    pub month: u8,
    pub year: u8,
    pub offset: Offset,
    pub pty: u8,
}

// What is in force; whether a type stands since the last original time; whether the page may end here; and whether what no page may
// have has come.
#[derive(Clone, Copy)]
pub struct Data {
    pub force: InForce,
    pub typed: bool,
    pub ended: bool,
    pub wrong: bool,
}

// 'No offset yet is 0, no type is 0.'
fn nothing() -> InForce
    ensures { result ≡ nothing }
{
    InForce {
        network: None,
        date: None,
        offset: Offset::Plus(0),
        pty: 0,
    }
}

// What is not in force yet counts as 0; no page that is read has such an original time (`original`).
#[tactic(auto, unfolding(crate::specs::Data::original_by))]
fn original_by(f: InForce, hour: u8, minute: u8) -> Original
    ensures { result ≡ original_by f hour minute }
{
    let date = f.date.unwrap_or(Date {
        day: 0,
        month: 0,
        year: 0,
    });
    Original {
        hour,
        minute,
        network: f.network.unwrap_or(0),
        day: date.day,
        month: date.month,
        year: date.year,
        offset: f.offset,
        pty: f.pty,
    }
}

impl Data {
    pub fn new() -> Data
        ensures { result ≡ data_start }
    {
        Data {
            force: nothing(),
            typed: false,
            ended: false,
            wrong: false,
        }
    }

    // 'A CNI figure .. remains valid for the items following on the same page .. until it is replaced'; so do a date and an offset.
    // 'After a type no network comes before the next original time.'
    #[tactic(auto, unfolding(crate::specs::Data::with_network))]
    fn networked(self, n: u16) -> Data
        ensures { result ≡ after_network self n }
    {
        Data {
            force: InForce {
                network: Some(n),
                ..self.force
            },
            ended: false,
            wrong: self.wrong | self.typed,
            ..self
        }
    }

    #[tactic(auto, unfolding(crate::specs::Data::with_date))]
    fn dated(self, date: Date) -> Data
        ensures { result ≡ after_date self date.day date.month date.year }
    {
        Data {
            force: InForce {
                date: Some(date),
                ..self.force
            },
            ended: false,
            ..self
        }
    }

    #[tactic(auto, unfolding(crate::specs::Data::with_offset))]
    fn offset(self, offset: Offset) -> Data
        ensures { result ≡ after_offset self offset }
    {
        Data {
            force: InForce {
                offset,
                ..self.force
            },
            ended: false,
            ..self
        }
    }

    #[tactic(auto, unfolding(crate::specs::Data::with_type))]
    fn typed(self, pty: u8) -> Data
        ensures { result ≡ after_type self pty }
    {
        Data {
            force: InForce { pty, ..self.force },
            typed: true,
            ended: false,
            ..self
        }
    }

    // 'Before the first original time stand a network and a date.'
    #[tactic(auto, unfolding(crate::specs::Data::with_type))]
    fn original(self) -> Data
        ensures { result ≡ after_original self }
    {
        let complete = self.force.network.is_some() & self.force.date.is_some();
        Data {
            force: InForce {
                pty: 0,
                ..self.force
            },
            typed: false,
            ended: true,
            wrong: self.wrong | !complete,
        }
    }

    #[tactic(auto, unfolding(crate::specs::Taken::data_from))]
    pub fn after(self, v: Value) -> Data
        ensures { result ≡ data_from self (data_of v) }
    {
        match v {
            Value::Original(_, _) => self.original(),
            Value::Date(day, month, year) => self.dated(Date { day, month, year }),
            Value::Network(n) => self.networked(n),
            Value::Offset(o) => self.offset(o),
            Value::Pty(n) => self.typed(n),
            _ => self,
        }
    }

    // The original time that a format is, with what is in force.
    #[tactic(auto, unfolding(crate::specs::Taken::originals_from))]
    pub fn given(self, v: Value) -> Option<Original>
        ensures { result ≡ given_of (originals_from self (data_of v)) }
    {
        match v {
            Value::Original(hour, minute) => Some(original_by(self.force, hour, minute)),
            _ => None,
        }
    }

    // 'Each value comes before an original time.'
    pub fn ends(self) -> bool
        ensures { result ≡ may_end self }
    {
        !self.wrong & self.ended
    }
}

// The laws of the data, as a promise of the crate.
pub fn lawful() -> bool
    ensures { (result ≡ true) × Laws }
{
    true
}
