// Plays a sheet: standard input in large pieces through `sheet`, and what it prints in large pieces to standard output.
#![tactic(auto)]

ghost use Rattle.std.specs.Prelude.{ℕ, Some, ◌+◌, ◌*◌, ◌≤◌, ◌≡◌, length};
ghost use Rattle.sheet.specs.Pieces.{longest};

use sheet::{Fed, Sheet};
use std::io::{Read, Write};

// What a piece of 4,096 bytes may print.
const SHARE: usize = 32768;

// A piece that finds room is taken, and stays within its share of it.
fn taken(sheet: Sheet, piece: &[u8], out: &mut [u8], at: usize) -> Fed
    requires { at + longest * length piece.now ≤ length out.old }
    ensures { result.at ≤ at + longest * length piece.now }
{
    sheet.feed(piece, out, at).unwrap()
}

// The same of the last line.
fn closed(sheet: Sheet, ended: bool, out: &mut [u8], at: usize) -> usize
    requires { at + longest ≤ length out.old }
    ensures { result ≤ at + longest }
{
    sheet.close(ended, out, at).unwrap()
}

#[derive(Clone, Copy)]
struct Turn {
    got: usize,
    ended: bool,
    sheet: Sheet,
    at: usize,
}

// One piece.
fn play_piece<R: Read, E: Write>(
    from: &mut R,
    told: &mut E,
    sheet: Sheet,
    out: &mut [u8],
    at: usize,
) -> Turn
    requires { at + longest * 4096 ≤ length out.old }
    ensures { result.at ≤ at + longest * 4096 }
{
    let mut piece = [0u8; 4096];
    let got = streams::read(from, told, &mut piece, b"play: the input could not be read");
    let fed = taken(sheet, &piece[..got.count], out, at);
    Turn {
        got: got.count,
        ended: got.ended,
        sheet: fed.sheet,
        at: fed.at,
    }
}

fn write<W: Write, E: Write>(to: &mut W, told: &mut E, out: &[u8], at: usize) -> bool {
    streams::write(to, told, out, at, b"play: the output could not be written")
}

// A buffer that might not hold what another piece prints is written out, and begun anew. None where it cannot be written.
fn flush<W: Write, E: Write>(to: &mut W, told: &mut E, out: &[u8], at: usize) -> Option<usize>
    ensures { (next : ℕ) → result ≡ Some next → next ≤ longest * 4096 }
{
    if at <= SHARE {
        return Some(at);
    }
    if write(to, told, out, at) {
        return Some(0);
    }
    None
}

// Reads up to the input's end, and no further than bytes decide something. Output that cannot be written ends the program. By no
// `streams::collect`: each piece prints.
#[tactic(auto, using(items::proofs::Taking::deciding_less))]
fn main(rt: HostRuntime) {
    let mut from = rt.stdin();
    let mut to = rt.stdout();
    let mut told = rt.stderr();
    let mut out = [0u8; 65536];
    let mut sheet = Sheet::new();
    let mut at: usize = 0;
    let mut left = items::deciding();
    let mut ended = false;
    while left > 0 {
        let t = play_piece(&mut from, &mut told, sheet, &mut out, at);
        let Some(next) = flush(&mut to, &mut told, &out, t.at) else {
            return;
        };
        sheet = t.sheet;
        at = next;
        ended = t.ended;
        left = items::still_deciding(left, t.got, sheet.left_over());
    }
    let end = closed(sheet, ended, &mut out, at);
    write(&mut to, &mut told, &out, end);
}
