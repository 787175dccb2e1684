// Standard input and output for the programs that read a sheet. What cannot be read or written is told on standard error.
#![tactic(auto)]

ghost use Rattle.std.specs.Prelude.{◌≡◌, ◌↔◌, ◌<◌, ◌≤◌, ◌⊎◌, false, None, Some, IfErr, IfOk, IfSome, OnErr, OnOk, IsTrue, length, min, take};
ghost use Rattle.std.specs.Io.KnownBytes.{Appends, Consumes, IsAtEnd};
ghost use Rattle.std.specs.IoError.{error_kind};
ghost use Rattle.held.specs.Held.{Collects};

use held::Collecting;
use std::io::{Cursor, Error, ErrorKind, Read, Result, Write};
use std::str;

// A read that is interrupted is tried again. Nothing says that this ends, so at the thousandth time it is one that failed.
const TRIES: u32 = 1000;

fn interrupted(got: &Result<usize>) -> bool
    ensures ok { OnOk got.now (result ≡ false) }
    ensures err { IfErr got.now (λ e. IsTrue result ↔ (error_kind e ≡ ErrorKind.Interrupted)) }
{
    match got {
        Ok(_) => false,
        Err(e) => e.kind() == ErrorKind::Interrupted,
    }
}

// The system's words for an error: what is printed of it, without the number that stands behind them.
fn words(printed: &[u8]) -> &[u8] {
    match str::from_utf8(printed) {
        Ok(text) => match text.rsplit_once(" (os error ") {
            Some((words, _)) => words.as_bytes(),
            None => printed,
        },
        Err(_) => printed,
    }
}

// A line of what failed, and why. Where that cannot be told either, nothing is.
fn tell<E: Write>(told: &mut E, failed: &[u8], error: &Error) {
    let mut printed = Cursor::new([0u8; 256]);
    let _ = write!(printed, "{error}");
    let n = printed.position();
    let text = printed.into_inner();
    let _ = told.write_all(failed);
    let _ = told.write_all(b": ");
    if n <= 256 {
        let _ = told.write_all(words(&text[..n as usize]));
    }
    let _ = told.write_all(b"\n");
}

// What a read gave: how many bytes at the start of the piece, and whether the input has ended. One that fails gives none, as the end
// does, but is not the end.
#[derive(Clone, Copy)]
pub struct Got {
    pub count: usize,
    pub ended: bool,
}

fn given<E: Write>(told: &mut E, got: Result<usize>, piece: &[u8], failed: &[u8]) -> Got
    ensures prefix_len { result.count ≤ length piece.now }
    ensures counted { result.count ≡ length (take result.count piece.now) }
    ensures count { IfOk got (λ n. result.count ≡ min n (length piece.now)) }
    ensures none { OnErr got (result.count ≡ 0) }
    ensures ended { IsTrue result.ended → got ≡ Ok 0 }
{
    match got {
        Ok(n) => Got {
            count: n.min(piece.len()),
            ended: n == 0,
        },
        Err(e) => {
            tell(told, failed, &e);
            Got {
                count: 0,
                ended: false,
            }
        }
    }
}

// One read, tried again where it is interrupted; where it fails, `failed` is told.
pub fn read<R: Read, E: Write>(from: &mut R, told: &mut E, piece: &mut [u8], failed: &[u8]) -> Got
    ensures prefix_len { result.count ≤ length piece.new }
    ensures counted { result.count ≡ length (take result.count piece.new) }
    ensures failed_value { failed.exit.now ≡ failed.entry.now }
    ensures bytes { Consumes (R.remaining from.old) (R.remaining from.new) (take result.count piece.new) }
    ensures end { IsTrue result.ended → 0 < length piece.old → IsAtEnd (R.remaining from.new) }
{
    for _ in 1..TRIES {
        let got = from.read(piece);
        if !interrupted(&got) {
            return given(told, got, piece, failed);
        }
    }
    let got = from.read(piece);
    given(told, got, piece, failed)
}

// What is collected up to the input's end, and no further than bytes decide something. Nothing where the end was not seen: where a
// read fails, `failed` is told.
pub fn collect<R: Read, E: Write, C: Collecting>(
    from: &mut R,
    told: &mut E,
    nothing: C,
    failed: &[u8],
) -> Option<C>
    ensures seen { (c : C) → result ≡ Some c → (C.left c ≡ 0) ⊎ IsAtEnd (R.remaining from.new) }
    ensures collected { IfSome result (λ c. Collects C.after (R.remaining from.old) (R.remaining from.new) nothing c) }
    ensures undecided { result ≡ None → (c : C) × Collects C.after (R.remaining from.old) (R.remaining from.new) nothing c × (0 < C.left c) }
    ensures failed_value { failed.exit.now ≡ failed.entry.now }
{
    let mut page = nothing;
    while !page.is_full() {
        let mut piece = [0u8; 4096];
        let got = read(from, told, &mut piece, failed);
        page = page.fed(&piece[..got.count]);
        if got.ended {
            return Some(page);
        }
        if got.count == 0 {
            return None;
        }
    }
    Some(page)
}

// The first n bytes; where they cannot be written, or there are not so many, `failed` is told.
pub fn write<W: Write, E: Write>(
    to: &mut W,
    told: &mut E,
    out: &[u8],
    n: usize,
    failed: &[u8],
) -> bool
    ensures lent_value { (out.exit.now ≡ out.entry.now) × (failed.exit.now ≡ failed.entry.now) }
    ensures enough { IsTrue result → n ≤ length out.now }
    ensures bytes { IsTrue result → Appends (W.contents to.old) (W.contents to.new) (take n out.now) }
{
    let mut error = Error::from(ErrorKind::InvalidInput);
    if n <= out.len() {
        match to.write_all(&out[..n]) {
            Ok(()) => return true,
            Err(e) => error = e,
        }
    }
    tell(told, failed, &error);
    false
}
