// Writes the timers section of a sheet from a preview page: standard input, the home tuner's byte and then the page, in large pieces
// through `section`, and what it writes to standard output. A refused page's number is told on standard error.
#![tactic(auto)]

use answer::digit;
use section::Asked;
use std::io::Write;

// 'A refused page gives its number on standard error': each has two digits.
fn tell_refused<E: Write>(told: &mut E, number: u8) {
    let n = number as usize;
    let _ = told.write_all(b"timers: refused ");
    let _ = told.write_all(&[digit(n / 10), digit(n), b'\n']);
}

fn close<W: Write, E: Write>(to: &mut W, told: &mut E, asked: Asked) {
    match asked.section() {
        Err(refusal) => tell_refused(told, refusal.number()),
        Ok(section) => {
            streams::write(
                to,
                told,
                &section.bytes,
                section.length,
                b"timers: the output could not be written",
            );
        }
    }
}

// Reads up to the input's end, and no further than bytes decide something. Of a page whose end was not seen nothing is written: it may
// be longer.
fn main(rt: HostRuntime) {
    let mut from = rt.stdin();
    let mut to = rt.stdout();
    let mut told = rt.stderr();
    let asked = streams::collect(
        &mut from,
        &mut told,
        Asked::new(),
        b"timers: the input could not be read",
    );
    if let Some(asked) = asked {
        close(&mut to, &mut told, asked);
    }
}
