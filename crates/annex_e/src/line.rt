// One line of print: the sequence, the time, and for each event its recorder, its announced hour and its state.
use crate::events::{RECORDER, Sequence};
use crate::rows::OFF;
use answer::digit;
use desk::Desk;
use reply::{NoTimer, State};
use std::io::Write;

// What cannot be written is left out.
fn text<W: Write>(to: &mut W, s: &[u8]) {
    let _ = to.write_all(s);
}

// By bytes, and no `write!`: that is written in pieces of its own, and where one is left out, so are those after it.
fn two<W: Write>(to: &mut W, n: u32) {
    text(to, &[digit(n as usize / 10), digit(n as usize)]);
}

fn hour_and_minute<W: Write>(to: &mut W, n: u32) {
    two(to, n / 100);
    text(to, b":");
    two(to, n);
}

fn time<W: Write>(to: &mut W, at: u32) {
    hour_and_minute(to, at / 100);
    text(to, b":");
    two(to, at);
}

// A place as tuner/LCI.
fn place<W: Write>(to: &mut W, p: u8) {
    text(to, &[b'0' + p / 4 % 4, b'/', b'0' + p % 4]);
}

fn state<W: Write>(to: &mut W, s: State) {
    match s {
        State::Waiting => text(to, b"waiting"),
        State::Prepared => text(to, b"prepared"),
        State::Recording { place: p } => {
            text(to, b"recording ");
            place(to, p);
        }
        State::RunningOn { place: p } => {
            text(to, b"running on ");
            place(to, p);
        }
        State::Ended => text(to, b"ended"),
        State::ByTheClock => text(to, b"by the clock"),
    }
}

fn answer<W: Write>(to: &mut W, a: Result<State, NoTimer>) {
    match a {
        Ok(s) => state(to, s),
        Err(NoTimer) => text(to, b"no timer"),
    }
}

fn event<W: Write>(to: &mut W, desk: &Desk, slot: usize, e: u32) {
    if e == OFF {
        return;
    }
    text(to, b" | VCR");
    text(to, &[digit((e / RECORDER) as usize)]);
    text(to, b" ");
    hour_and_minute(to, e);
    text(to, b" ");
    answer(to, desk.ask(slot));
}

pub(crate) fn print<W: Write>(to: &mut W, desk: &Desk, s: Sequence, at: u32) {
    let _ = write!(to, "{}", s.number);
    text(to, b" ");
    time(to, at);
    for (slot, e) in s.events.iter().enumerate() {
        event(to, desk, slot, *e);
    }
    text(to, b"\n");
}
