// One programme's sixteen bytes: of a programme, and stored.
ghost use Rattle.std.specs.Prelude.{◌+◌, ◌≤◌, ◌≡◌, length};
ghost use Rattle.std.proofs.lemmas.List.Edits.{sets};
ghost use Rattle.viewed.specs.Viewed.{side, quarters, programme_bytes};

use figures::Offset;
use preview::Programme;

fn side(o: Offset) -> u8
    ensures { result ≡ side o }
{
    match o {
        Offset::Plus(_) => 0,
        Offset::Minus(_) => 1,
    }
}

fn quarters(o: Offset) -> u8
    ensures { result ≡ quarters o }
{
    match o {
        Offset::Plus(n) => n,
        Offset::Minus(n) => n,
    }
}

#[tactic(auto, unfolding(crate::specs::Viewed::programme_bytes))]
pub(crate) fn bytes_of(q: Programme) -> [u8; 16]
    ensures { result ≡ programme_bytes q }
{
    let start = q.start;
    let finish = q.finish;
    let original = q.original;
    let o = q.offset;
    [
        q.row,
        q.column,
        start.hour,
        start.minute,
        finish.hour,
        finish.minute,
        q.day,
        q.month,
        q.year,
        (q.network / 256 % 256) as u8,
        (q.network % 256) as u8,
        original.hour,
        original.minute,
        side(o),
        quarters(o),
        q.pty,
    ]
}

pub(crate) fn put(out: &mut [u8], at: usize, bytes: [u8; 16])
    requires { at + 16 ≤ length out.old }
    ensures { out.new ≡ sets out.old at bytes }
{
    out[at..at + 16].copy_from_slice(&bytes);
}
