// A whole item: its numbers, what it does to the desk, and what it prints. `out` and `at` are two, as in `Sheet::feed`, whose promise names
// both; a printer stands in `lines.rt`. The line is printed first: what is taken out of an answer before a call is copied once more.
ghost use Rattle.std.specs.Prelude.{◌+◌, ◌≤◌, ◌≡◌, length, take};
ghost use Rattle.std.proofs.lemmas.List.Edits.{sets};
ghost use Rattle.items.specs.Pieces.{items_found};
ghost use Rattle.sheet.specs.Sheet.{timer_told, timer_left, packet_told, packet_left, lines_of, desk_left};
ghost use Rattle.sheet.specs.Pieces.{longest};

use crate::lines::{packet_line, timer_line};
use answer::{four, pair, triple};
use desk::Desk;
use items::Found;

// The desk that a timer or a packet leaves, and the place after what it printed.
#[derive(Clone, Copy)]
pub(crate) struct Left {
    pub(crate) desk: Desk,
    pub(crate) at: usize,
}

// '6 bytes each: CNI 2, PIL 3, year 1', and then 'tuner (1 byte) and length (2 bytes)'.
fn timer(desk: Desk, held: [u8; 47], out: &mut [u8], at: usize) -> Left
    requires { at + longest ≤ length out.old }
    ensures { (result ≡ record { desk = timer_left (take 9 held) desk; at = at + length (timer_told (take 9 held) desk) })
        × (out.new ≡ sets out.old at (timer_told (take 9 held) desk)) }
{
    let cni = pair(held[0], held[1]);
    let pil = triple(held[2], held[3], held[4]);
    let length = pair(held[7], held[8]);
    let added = desk.add(cni, pil, held[5], held[6], length);
    let at = timer_line(out, at, added.answer);
    Left {
        desk: added.desk,
        at,
    }
}

// '47 bytes each: time 4, tuner 1, packet 42', and 'the count of live timers after it'.
fn packet(desk: Desk, held: [u8; 47], out: &mut [u8], at: usize) -> Left
    requires { at + longest ≤ length out.old }
    ensures { (result ≡ record { desk = packet_left (take 47 held) desk; at = at + length (packet_told (take 47 held) desk) })
        × (out.new ≡ sets out.old at (packet_told (take 47 held) desk)) }
{
    let time = four(held[0], held[1], held[2], held[3]);
    let heard = desk.packet(held[4], time, &held[5..47]);
    let number = reply::number(heard.answer);
    let at = packet_line(out, at, number, heard.desk.live());
    Left {
        desk: heard.desk,
        at,
    }
}

// A timer and a packet move the desk and print a line, each from the bytes that are held then.
#[tactic(auto, unfolding(crate::specs::Sheet::lines_of, crate::specs::Sheet::desk_left))]
pub(crate) fn act(desk: Desk, found: Found, held: [u8; 47], out: &mut [u8], at: usize) -> Left
    requires { at + longest ≤ length out.old }
    ensures { let is = items_found found held in
        (result ≡ record { desk = desk_left is desk; at = at + length (lines_of is desk) })
        × (out.new ≡ sets out.old at (lines_of is desk)) }
{
    match found {
        Found::Nothing => Left { desk, at },
        Found::Timer => timer(desk, held, out, at),
        Found::Packet => packet(desk, held, out, at),
    }
}
