// Times and titles of a preview page, in page order: the programmes that they announce.
#![tactic(auto)]

ghost use Rattle.std.specs.Prelude.{true, ◌≡◌};
ghost use Rattle.announced.specs.Times.{marks_of};
ghost use Rattle.announced.specs.Taken.{after_single, after_double, after_title, by_time, by_title, may_end, stage_from, announced_from, told_of};
ghost use Rattle.announced.specs.Laws.{Laws};

use figures::Value;

#[derive(Clone, Copy)]
pub struct Time {
    pub hour: u8,
    pub minute: u8,
}

// A programme's title place, its start and its finish.
#[derive(Clone, Copy)]
pub struct Announcement {
    pub row: u8,
    pub column: u8,
    pub start: Time,
    pub finish: Time,
}

// What has come last: nothing; a single time, which may be the last finish or not; it and its title's place; a double time; it and its
// title; or what no page may have.
#[derive(Clone, Copy)]
pub enum Stage {
    First,
    Single(Time, bool),
    Titled(Time, u8, u8),
    Double(Time, Time),
    Ended,
    Wrong,
}

// 'In each case .. the fixed sequence': a second time without a title between is what no page may have.
fn after_single(s: Stage, t: Time) -> Stage
    ensures { result ≡ after_single s t }
{
    match s {
        Stage::First | Stage::Ended => Stage::Single(t, false),
        Stage::Titled(_, _, _) => Stage::Single(t, true),
        _ => Stage::Wrong,
    }
}

fn after_double(s: Stage, t: Time, u: Time) -> Stage
    ensures { result ≡ after_double s t u }
{
    match s {
        Stage::First | Stage::Titled(_, _, _) | Stage::Ended => Stage::Double(t, u),
        _ => Stage::Wrong,
    }
}

// 'The finishing time of an item .. results only from the starting time of the following item', or from a last time.
fn by_time(s: Stage, t: Time) -> Option<Announcement>
    ensures { result ≡ told_of (by_time s t) }
{
    match s {
        Stage::Titled(start, row, column) => Some(Announcement {
            row,
            column,
            start,
            finish: t,
        }),
        _ => None,
    }
}

impl Stage {
    // After a format: only times count here.
    #[tactic(auto, unfolding(crate::specs::Taken::stage_from))]
    pub fn after(self, v: Value) -> Stage
        ensures { result ≡ stage_from self (marks_of v) }
    {
        match v {
            Value::Single(hour, minute) => after_single(self, Time { hour, minute }),
            Value::Double(hour, minute, h, m) => {
                let start = Time { hour, minute };
                let finish = Time { hour: h, minute: m };
                after_double(self, start, finish)
            }
            _ => self,
        }
    }

    // What a format announces: a programme that is complete with its time.
    #[tactic(auto, unfolding(crate::specs::Taken::announced_from))]
    pub fn told(self, v: Value) -> Option<Announcement>
        ensures { result ≡ told_of (announced_from self (marks_of v)) }
    {
        match v {
            Value::Single(hour, minute) | Value::Double(hour, minute, _, _) => by_time(
                self,
                Time { hour, minute },
            ),
            _ => None,
        }
    }

    // 'Further titles before the next time are parts of the same title.'
    pub fn titled(self, row: u8, column: u8) -> Stage
        ensures { result ≡ after_title self row column }
    {
        match self {
            Stage::First => Stage::Wrong,
            Stage::Single(start, _) => Stage::Titled(start, row, column),
            Stage::Double(_, _) => Stage::Ended,
            _ => self,
        }
    }

    // What a title announces: the programme of a double time.
    pub fn entitled(self, row: u8, column: u8) -> Option<Announcement>
        ensures { result ≡ told_of (by_title self row column) }
    {
        match self {
            Stage::Double(start, finish) => Some(Announcement {
                row,
                column,
                start,
                finish,
            }),
            _ => None,
        }
    }

    // 'The last S, with no title, stands exactly if the last programme is single.'
    pub fn ends(self) -> bool
        ensures { result ≡ may_end self }
    {
        matches!(self, Stage::Single(_, true) | Stage::Ended)
    }
}

// The laws of times and titles, as a promise of the crate.
pub fn lawful() -> bool
    ensures { (result ≡ true) × Laws }
{
    true
}
