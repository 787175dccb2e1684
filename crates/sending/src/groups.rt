// The groups of one programme, each after those that are there.
#![tactic(auto, unfolding(crate::specs::Sending::sent))]

ghost use Rattle.std.specs.Prelude.{◌<◌, ◌∷◌, [], ◌≡◌};
ghost use Rattle.group.specs.declared.Group.TheVariants as group;
ghost use Rattle.programmes.specs.Written.{source_sent, date_sent, offset_sent, pair_sent, finish_sent, series_sent, groups_of};
ghost use Rattle.sending.specs.Sending.{sent};

use crate::Words;
use group::Group;
use programmes::{Finish, InForce, Programme};

impl Words {
    // Past the last triplet nothing is put.
    fn push(self, g: Group) -> Words
        requires { self.count < 1000 }
        ensures { result ≡ sent self (g ∷ []) }
    {
        Words {
            count: self.count + 1,
            bits: answer::put(self.bits, self.count, group::bits_of(g)),
        }
    }

    // 'It writes source, date and offset where they change.'
    fn source(self, f: InForce, q: Programme) -> Words
        requires { self.count < 1000 }
        ensures { result ≡ sent self (source_sent f q) }
    {
        if f.source == Some((q.country, q.source)) {
            return self;
        }
        self.push(Group::Source(q.country, q.source))
    }

    fn date(self, f: InForce, q: Programme) -> Words
        requires { self.count < 1000 }
        ensures { result ≡ sent self (date_sent f q) }
    {
        if f.date == Some((q.month, q.day)) {
            return self;
        }
        self.push(Group::Date(q.month, q.day))
    }

    fn offset(self, f: InForce, q: Programme) -> Words
        requires { self.count < 1000 }
        ensures { result ≡ sent self (offset_sent f q) }
    {
        if f.offset == q.offset {
            return self;
        }
        self.push(Group::Offset(q.row, q.offset))
    }

    // 'The Starting Time Hours data group and the Minutes data group.'
    fn pair(self, q: Programme) -> Words
        requires { self.count < 900 }
        ensures { result ≡ sent self (pair_sent q) }
    {
        self.push(Group::Start(q.row, q.hour, q.controlled))
            .push(Group::Minutes(q.column, q.minute))
    }

    fn end(self, q: Programme, hour: u8, minute: u8, duration: bool) -> Words
        requires { self.count < 900 }
        ensures { result ≡ sent self (group.Finish q.row hour duration ∷ group.Minutes q.column minute ∷ []) }
    {
        self.push(Group::Finish(q.row, hour, duration))
            .push(Group::Minutes(q.column, minute))
    }

    // 'With the programme's own row and column in the offset's and the finish's groups.'
    fn finish(self, q: Programme) -> Words
        requires { self.count < 900 }
        ensures { result ≡ sent self (finish_sent q.row q.column q.finish) }
    {
        match q.finish {
            Finish::Absent => self,
            Finish::Time(hour, minute) => self.end(q, hour, minute, false),
            Finish::Duration(hours, minutes) => self.end(q, hours, minutes, true),
        }
    }

    fn series(self, q: Programme) -> Words
        requires { self.count < 1000 }
        ensures { result ≡ sent self (series_sent q.series) }
    {
        match q.series {
            None => self,
            Some(code) => self.push(Group::Series(code)),
        }
    }

    pub(crate) fn programme(self, f: InForce, q: Programme) -> Words
        requires { self.count < 850 }
        ensures { result ≡ sent self (groups_of f q) }
    {
        self.source(f, q)
            .date(f, q)
            .offset(f, q)
            .pair(q)
            .finish(q)
            .series(q)
    }
}
