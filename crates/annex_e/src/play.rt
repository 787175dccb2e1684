// Labels into packets, packets into the desk, and a line of print at each row's time.
use crate::events::{Sequence, length_of};
use crate::line;
use crate::numbers::{YEAR, label_of, pil_of, second_of};
use crate::rows::{DAY, OFF, Row, rows_of};
use desk::Desk;
use label::Label;
use std::io::Write;

// Each sequence is of one station, and its tuner is the home tuner of every event.
const TUNER: u8 = 0;

fn packet_of(l: Label) -> [u8; 42] {
    let mut bytes = [0u8; 42];
    let _ = writer::write(l, &mut bytes);
    bytes
}

// The desk is lent: one that each of these takes and gives lies on the stack for each.
fn send(desk: &mut Desk, s: Sequence, time: u32, lci: u8, sent: u32) {
    if sent == OFF {
        return;
    }
    let bytes = packet_of(label_of(s.month, s.cni, lci, sent));
    *desk = desk.packet(TUNER, time, &bytes).desk;
}

fn send_all(desk: &mut Desk, s: Sequence, time: u32, sent: [u32; 4]) {
    for lci in 0..4 {
        send(desk, s, time, lci, sent[lci as usize]);
    }
}

// Once in each second up to `until`, which is not among them.
fn repeat(desk: &mut Desk, s: Sequence, from: u32, until: u32, sent: [u32; 4]) {
    for time in from..until {
        send_all(desk, s, time, sent);
    }
}

fn book(desk: Desk, s: Sequence, event: u32) -> Desk {
    if event == OFF {
        return desk;
    }
    let pil = pil_of(s.month, event);
    let length = length_of(s.number, event);
    desk.add(s.cni, pil, YEAR, TUNER, length).desk
}

fn booked(s: Sequence) -> Desk {
    let mut d = Desk::new();
    for event in s.events {
        d = book(d, s, event);
    }
    d
}

// A row's labels go on to the next row, where there is one; where that is another day's, for a minute, so that no night is played.
fn end_of(month: u8, at: u32, next: Option<&Row>) -> u32 {
    let from = second_of(month, at);
    let Some(row) = next else {
        return from;
    };
    let until = second_of(month, row.0);
    if at / DAY != row.0 / DAY && from + 60 < until {
        return from + 60;
    }
    until
}

fn play_row<W: Write>(to: &mut W, desk: &mut Desk, s: Sequence, row: &Row, next: Option<&Row>) {
    let Row(at, sent) = *row;
    let from = second_of(s.month, at);
    send_all(desk, s, from, sent);
    *desk = desk.wait(from).desk;
    line::print(to, desk, s, at);
    repeat(desk, s, from + 1, end_of(s.month, at, next), sent);
}

pub(crate) fn play<W: Write>(to: &mut W, s: Sequence) {
    let mut d = booked(s);
    let rows = rows_of(s.number);
    for (i, row) in rows.iter().enumerate() {
        play_row(to, &mut d, s, row, rows.get(i + 1));
    }
}
