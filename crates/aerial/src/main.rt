// Tells how bad each aerial is: standard input in large pieces through `tally`, and its report to standard output.
#![tactic(auto)]

ghost use Rattle.std.specs.Prelude.{◌≤◌, ◌≡◌, length};
ghost use Rattle.std.proofs.lemmas.List.Edits.{sets};
ghost use Rattle.report.specs.Room.{longest};
ghost use Rattle.tally.specs.Pieces.{end_told};

use std::io::{Read, Write};
use tally::Tally;

// A report that finds room is stored whole.
#[tactic(auto, unfolding(tally::specs::Pieces::reported_by, tally::specs::Pieces::out_after))]
fn reported(tally: Tally, ended: bool, out: &mut [u8]) -> usize
    requires { longest ≤ length out.old }
    ensures { (result ≡ length (end_told ended tally)) × (out.new ≡ sets out.old 0 (end_told ended tally)) }
{
    tally.report(ended, out)
}

#[derive(Clone, Copy)]
struct Turn {
    got: usize,
    ended: bool,
    tally: Tally,
}

// One piece.
fn count_piece<R: Read, E: Write>(from: &mut R, told: &mut E, tally: Tally) -> Turn {
    let mut piece = [0u8; 4096];
    let got = streams::read(
        from,
        told,
        &mut piece,
        b"aerial: the input could not be read",
    );
    Turn {
        got: got.count,
        ended: got.ended,
        tally: tally.feed(&piece[..got.count]),
    }
}

// Reads up to the input's end, and no further than bytes decide something. By no `streams::collect`: what came before a read that fails is
// reported too.
#[tactic(auto, using(items::proofs::Taking::deciding_less))]
fn main(rt: HostRuntime) {
    let mut from = rt.stdin();
    let mut to = rt.stdout();
    let mut told = rt.stderr();
    let mut tally = Tally::new();
    let mut left = items::deciding();
    let mut ended = false;
    while left > 0 {
        let t = count_piece(&mut from, &mut told, tally);
        tally = t.tally;
        ended = t.ended;
        left = items::still_deciding(left, t.got, tally.left_over());
    }
    let mut out = [0u8; 4096];
    let n = reported(tally, ended, &mut out);
    streams::write(
        &mut to,
        &mut told,
        &out,
        n,
        b"aerial: the output could not be written",
    );
}
