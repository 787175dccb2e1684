// One programme's sixteen bytes: of a programme, stored, and taken as one.
ghost use Rattle.std.specs.Prelude.{◌+◌, ◌≤◌, ◌≡◌, length};
ghost use Rattle.std.proofs.lemmas.List.Edits.{sets};
ghost use Rattle.fields.specs.Fields.{finish_kind, finish_hour, finish_minute, side, quarters, programme_bytes};
ghost use Rattle.fields.specs.Fields.{finish_by, offset_by, programme_at};

use group::Offset;
use programmes::{Finish, Programme};

fn finish_kind(f: Finish) -> u8
    ensures { result ≡ finish_kind f }
{
    match f {
        Finish::Absent => 0,
        Finish::Time(_, _) => 1,
        Finish::Duration(_, _) => 2,
    }
}

fn finish_hour(f: Finish) -> u8
    ensures { result ≡ finish_hour f }
{
    match f {
        Finish::Absent => 0,
        Finish::Time(h, _) | Finish::Duration(h, _) => h,
    }
}

fn finish_minute(f: Finish) -> u8
    ensures { result ≡ finish_minute f }
{
    match f {
        Finish::Absent => 0,
        Finish::Time(_, m) | Finish::Duration(_, m) => m,
    }
}

fn side(o: Offset) -> u8
    ensures { result ≡ side o }
{
    u8::from(matches!(o, Offset::West(_)))
}

fn quarters(o: Offset) -> u8
    ensures { result ≡ quarters o }
{
    match o {
        Offset::East(n) | Offset::West(n) => n,
    }
}

#[tactic(auto, unfolding(crate::specs::Fields::programme_bytes))]
pub(crate) fn bytes_of(q: Programme) -> [u8; 16]
    ensures { result ≡ programme_bytes q }
{
    [
        q.row,
        q.column,
        q.day,
        q.month,
        q.hour,
        q.minute,
        finish_kind(q.finish),
        finish_hour(q.finish),
        finish_minute(q.finish),
        q.country,
        q.source,
        side(q.offset),
        quarters(q.offset),
        u8::from(q.controlled),
        u8::from(q.series.is_some()),
        q.series.unwrap_or(0),
    ]
}

pub(crate) fn put(out: &mut [u8], at: usize, bytes: [u8; 16])
    requires { at + 16 ≤ length out.old }
    ensures { out.new ≡ sets out.old at bytes }
{
    out[at..at + 16].copy_from_slice(&bytes);
}

fn finish_by(kind: u8, h: u8, m: u8) -> Finish
    ensures { result ≡ finish_by kind h m }
{
    match kind {
        0 => Finish::Absent,
        1 => Finish::Time(h, m),
        _ => Finish::Duration(h, m),
    }
}

fn offset_by(s: u8, n: u8) -> Offset
    ensures { result ≡ offset_by s n }
{
    if s == 0 {
        return Offset::East(n);
    }
    Offset::West(n)
}

#[tactic(auto, unfolding(crate::specs::Fields::programme_at))]
pub(crate) fn programme_at(f: &[u8], at: usize) -> Programme
    requires { at + 16 ≤ length f.now }
    ensures { result ≡ programme_at f.now at }
{
    Programme {
        row: f[at],
        column: f[at + 1],
        day: f[at + 2],
        month: f[at + 3],
        hour: f[at + 4],
        minute: f[at + 5],
        finish: finish_by(f[at + 6], f[at + 7], f[at + 8]),
        country: f[at + 9],
        source: f[at + 10],
        offset: offset_by(f[at + 11], f[at + 12]),
        controlled: f[at + 13] != 0,
        series: (f[at + 14] != 0).then_some(f[at + 15]),
    }
}
