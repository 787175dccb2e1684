// Programmes as the triplets that they are sent in: each one's groups, one after the other, and whether a field is outside its range.
#![tactic(auto)]

mod groups; // the groups of one programme
mod ranges; // the ranges of its fields

ghost use Rattle.std.specs.Prelude.{◌<◌, true, [], ◌≡◌};
ghost use Rattle.answer.specs.Lists.{some};
ghost use Rattle.programmes.specs.Written.{groups_of, force_of, outside, programmes_of};
ghost use Rattle.sending.specs.Laws.{Laws};
ghost use Rattle.sending.specs.Sending.{words_of, sent};

use crate::ranges::{outside_finish, outside_offset, outside_screen, outside_series, outside_time};
use group::Group;
use programmes::{InForce, Page, Programme};

// The eighteen bits of each triplet of sixteen packets, terminators where no group is, and how many groups there are, which may be
// more.
#[derive(Clone, Copy)]
pub struct Words {
    pub count: usize,
    pub bits: [u32; 208],
}

#[tactic(auto, using(crate::proofs::Tests::outside_by))]
pub fn outside(q: Programme) -> bool
    ensures { result ≡ outside q }
{
    (15 < q.country)
        | (127 < q.source)
        | outside_time(q.month, q.day, q.hour, q.minute)
        | outside_screen(q.row, q.column)
        | outside_offset(q.offset)
        | outside_finish(q.finish)
        | outside_series(q.series)
}

pub fn any_outside(page: Page) -> bool
    ensures { result ≡ some outside (programmes_of page) }
{
    page.programmes.iter().take(page.count).any(|q| outside(*q))
}

fn force_of(q: Programme) -> InForce
    ensures { result ≡ force_of q }
{
    InForce {
        source: Some((q.country, q.source)),
        date: Some((q.month, q.day)),
        offset: q.offset,
    }
}

// The triplets so far, and what is in force after them.
#[derive(Clone, Copy)]
struct Sent {
    words: Words,
    force: InForce,
}

// 'These three data groups .. remain until redefined.'
fn sent_after(s: Sent, q: Programme) -> Sent
    requires { s.words.count < 850 }
    ensures { (result.words ≡ sent s.words (groups_of s.force q)) × (result.force ≡ force_of q) }
{
    Sent {
        words: s.words.programme(s.force, q),
        force: force_of(q),
    }
}

fn terminators() -> Words
    ensures { result ≡ words_of [] }
{
    Words {
        count: 0,
        bits: [group::bits_of(Group::Terminator); 208],
    }
}

pub fn words_of(page: Page) -> Words
    ensures { result ≡ words_of (programmes_of page) }
{
    let mut s = Sent {
        words: terminators(),
        force: InForce::nothing(),
    };
    for q in &page.programmes[..page.count.min(103)] {
        s = sent_after(s, *q);
    }
    s.words
}

// The laws of the triplets of programmes, as a promise of the crate.
pub fn lawful() -> bool
    ensures { (result ≡ true) × Laws }
{
    true
}
