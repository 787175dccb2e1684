// A page's data groups taken one at a time: what is in force, what is held, and what each makes of the programmes so far.
#![tactic(auto)]

ghost use Rattle.std.specs.Prelude.{true, ◌≡◌};
ghost use Rattle.programmes.specs.Meaning.{in_force, is_start, is_terminator, programme_by};
ghost use Rattle.programmes.specs.declared.Finish.TheVariants as finish;
ghost use Rattle.sequence.specs.Laws.{Laws};
ghost use Rattle.sequence.specs.Sequence.{start, held_after, state_after, finish_of, pair_by, change_by};

use group::Group;
use programmes::{Finish, InForce, Programme};

// What a group does to the programmes so far.
#[derive(Clone, Copy)]
pub enum Change {
    Nothing,
    Begins(Programme),
    Finishes(Finish),
    InSeries(u8),
}

// What is in force, the Starting or Finishing Hours group that waits for its Minutes group, whether a terminator has come, and
// whether a Starting Hours group came without its source or date.
#[derive(Clone, Copy)]
pub struct State {
    pub force: InForce,
    pub held: Group,
    pub ended: bool,
    pub lacking: bool,
}

#[tactic(auto, unfolding(programmes::specs::Meaning::in_force))]
fn force_after(f: InForce, g: Group) -> InForce
    ensures { result ≡ in_force f g }
{
    match g {
        Group::Source(country, source) => InForce {
            source: Some((country, source)),
            ..f
        },
        Group::Date(month, day) => InForce {
            date: Some((month, day)),
            ..f
        },
        Group::Offset(_, offset) => InForce { offset, ..f },
        _ => f,
    }
}

// 'Only triplets that are no group may stand between' a pair.
fn held_after(held: Group, g: Group) -> Group
    ensures { result ≡ held_after held g }
{
    match g {
        Group::Other => held,
        Group::Start(_, _, _) | Group::Finish(_, _, _) => g,
        _ => Group::Other,
    }
}

fn is_start(g: Group) -> bool
    ensures { result ≡ is_start g }
{
    matches!(g, Group::Start(_, _, _))
}

fn is_terminator(g: Group) -> bool
    ensures { result ≡ is_terminator g }
{
    matches!(g, Group::Terminator)
}

fn finish_of(hour: u8, minute: u8, duration: bool) -> Finish
    ensures { result ≡ finish_of hour minute duration }
{
    if duration {
        return Finish::Duration(hour, minute);
    }
    Finish::Time(hour, minute)
}

fn programme_of(
    f: InForce,
    row: u8,
    hour: u8,
    controlled: bool,
    column: u8,
    minute: u8,
) -> Programme
    ensures { result ≡ programme_by f row hour controlled column minute finish.Absent None }
{
    let (country, source) = f.source.unwrap_or((0, 0));
    let (month, day) = f.date.unwrap_or((0, 0));
    Programme {
        row,
        column,
        day,
        month,
        hour,
        minute,
        finish: Finish::Absent,
        country,
        source,
        offset: f.offset,
        controlled,
        series: None,
    }
}

// 'This pair also includes the cursor position': what a Minutes group makes of the group held.
fn pair(f: InForce, held: Group, column: u8, minute: u8) -> Change
    ensures { result ≡ pair_by f held column minute }
{
    match held {
        Group::Start(row, hour, controlled) => {
            Change::Begins(programme_of(f, row, hour, controlled, column, minute))
        }
        Group::Finish(_, hour, duration) => Change::Finishes(finish_of(hour, minute, duration)),
        _ => Change::Nothing,
    }
}

impl State {
    pub fn new() -> State
        ensures { result ≡ start }
    {
        State {
            force: InForce::nothing(),
            held: Group::Other,
            ended: false,
            lacking: false,
        }
    }

    // 'Nothing after it counts.'
    #[tactic(auto, unfolding(crate::specs::Sequence::state_after))]
    pub fn next(self, g: Group) -> State
        ensures { result ≡ state_after self g }
    {
        if self.ended {
            return self;
        }
        let f = self.force;
        State {
            force: force_after(f, g),
            held: held_after(self.held, g),
            ended: is_terminator(g),
            lacking: self.lacking | (is_start(g) & !(f.source.is_some() & f.date.is_some())),
        }
    }

    #[tactic(auto, unfolding(crate::specs::Sequence::change_by))]
    pub fn change(self, g: Group) -> Change
        ensures { result ≡ change_by self g }
    {
        if self.ended {
            return Change::Nothing;
        }
        match g {
            Group::Minutes(column, minute) => pair(self.force, self.held, column, minute),
            Group::Series(code) => Change::InSeries(code),
            _ => Change::Nothing,
        }
    }
}

// The laws of the sequence, as a promise of the crate.
pub fn lawful() -> bool
    ensures { (result ≡ true) × Laws }
{
    true
}
