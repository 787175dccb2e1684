// An answer: byte 0 the number of the refusal or 0; 1 to 4 what is given; 5 what is live; then the state and the place of each slot
// from 0 to 16, or 15 and 0 where asking is refused.
use desk::Desk;
use reply::{Refusal, State};

// 0 where the state has none.
fn place_of(s: State) -> u8 {
    match s {
        State::Recording { place } | State::RunningOn { place } => place,
        _ => 0,
    }
}

fn slot(d: Desk, i: usize) -> [u8; 2] {
    match d.ask(i) {
        Ok(s) => [s.number(), place_of(s)],
        Err(r) => [r.number(), 0],
    }
}

pub(crate) fn bytes_of(d: Desk, number: u8, value: u32) -> [u8; 40] {
    let mut out = [0u8; 40];
    out[0] = number;
    out[1..5].copy_from_slice(&value.to_be_bytes());
    out[5] = (d.live() % 256) as u8;
    for i in 0..17 {
        out[6 + 2 * i..8 + 2 * i].copy_from_slice(&slot(d, i));
    }
    out
}
