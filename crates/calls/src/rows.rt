// A row: byte 0 the call; 1 to 4 a time, a PIL or how often; 5 and 6 a CNI or a sum; 7 a tuner, a year or a slot. Of a packet, 8 is the length
// of what follows; of a timer, 8 is its home tuner, and 9 and 10 are its length.
ghost use Rattle.std.specs.Prelude.{◌≤◌};

use answer::{four, pair};
use desk::Desk;
use reply::Refusal;

// What a call says: the number of its refusal or 0, and what it gives.
#[derive(Clone, Copy)]
pub(crate) struct Said {
    pub(crate) number: u8,
    pub(crate) value: u32,
    pub(crate) desk: Desk,
}

fn saying(number: u8, value: u32, desk: Desk) -> Said {
    Said {
        number,
        value,
        desk,
    }
}

// The packet is as long as byte 8 says, and at most what is left of the row.
fn end_of(length: u8) -> usize
    ensures { (9 ≤ result) × (result ≤ 128) }
{
    (9 + length as usize).min(128)
}

fn packet(d: Desk, time: u32, row: [u8; 128]) -> Said {
    let end = end_of(row[8]);
    let heard = d.packet(row[7], time, &row[9..end]);
    saying(reply::number(heard.answer), 0, heard.desk)
}

fn wait(d: Desk, time: u32) -> Said {
    let waited = d.wait(time);
    match waited.answer {
        Ok(n) => saying(0, n, waited.desk),
        Err(r) => saying(r.number(), 0, waited.desk),
    }
}

fn add(d: Desk, pil: u32, row: [u8; 128]) -> Said {
    let cni = pair(row[5], row[6]);
    let length = pair(row[9], row[10]);
    let added = d.add(cni, pil, row[7], row[8], length);
    match added.answer {
        Ok(i) => saying(0, (i % 256) as u32, added.desk),
        Err(r) => saying(r.number(), 0, added.desk),
    }
}

fn cancel(d: Desk, slot: usize) -> Said {
    let cancelled = d.cancel(slot);
    saying(reply::number(cancelled.answer), 0, cancelled.desk)
}

fn second(d: Desk) -> Said {
    let passed = d.second();
    saying(reply::number(passed.answer), 0, passed.desk)
}

// A panel that reads the count so often, and what its readings add up to. A second passes each time that this is `sum`: the count may
// change between two readings, and is not worked out once for all of them.
fn panel(d: Desk, often: u32, sum: u16) -> Said {
    let passing = sum as u32;
    let mut desk = d;
    let mut all: u32 = 0;
    for _ in 0..often {
        all = (all + desk.live() % 256) % 65536;
        if all == passing {
            desk = desk.second().desk;
        }
    }
    saying(0, all, desk)
}

// Any other call is a fresh desk. Asking is no call of a row: every answer asks each slot.
pub(crate) fn call(d: Desk, row: [u8; 128]) -> Said {
    let number = four(row[1], row[2], row[3], row[4]);
    match row[0] {
        1 => packet(d, number, row),
        2 => wait(d, number),
        3 => add(d, number, row),
        4 => cancel(d, row[7] as usize),
        5 => second(d),
        6 => panel(d, number, pair(row[5], row[6])),
        _ => saying(0, 0, Desk::new()),
    }
}
