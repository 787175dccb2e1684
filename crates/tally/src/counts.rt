// One packet more.
ghost use Rattle.std.specs.Prelude.{◌≡◌, take};
ghost use Rattle.items.specs.Items.{packet};
ghost use Rattle.items.specs.Pieces.{items_found};
ghost use Rattle.label.specs.Packet.{reading_answer};
ghost use Rattle.tally.specs.Pieces.{grown, after_read, after_packet, counted_item, counted_items};

use answer::put;
use items::Found;
use label::{Received, Refusal};
use report::Tuner;

// 'Packets read clean, packets read with mended bytes, mended bytes in all.' A count stops where its bits end: no sheet comes to that.
#[tactic(auto, unfolding(crate::specs::Pieces::grown))]
fn read_more(h: Tuner, mended: u8) -> Tuner
    ensures { result ≡ after_read mended h }
{
    if mended == 0 {
        return Tuner {
            clean: h.clean.saturating_add(1),
            ..h
        };
    }
    Tuner {
        mended: h.mended.saturating_add(1),
        bytes: h.bytes.saturating_add(mended as u32),
        ..h
    }
}

// 'Packets refused by the reader (1 to 6).'
#[tactic(auto, unfolding(crate::specs::Pieces::grown))]
fn refused_more(h: Tuner) -> Tuner
    ensures { result ≡ record { clean = h.clean; mended = h.mended; bytes = h.bytes; refused = grown h.refused 1 } }
{
    Tuner {
        refused: h.refused.saturating_add(1),
        ..h
    }
}

fn packet_more(h: Tuner, reading: Result<Received, Refusal>) -> Tuner
    ensures { result ≡ after_packet (reading_answer reading) h }
{
    match reading {
        Ok(r) => read_more(h, r.mended),
        Err(_) => refused_more(h),
    }
}

// '47 bytes each: time 4, tuner 1, packet 42.'
#[tactic(auto, using(crate::proofs::Counting::packet_at))]
fn counted(tuners: [Tuner; 4], held: [u8; 47]) -> [Tuner; 4]
    ensures { result ≡ counted_item (packet (take 47 held)) tuners }
{
    let tuner = held[4] as usize;
    if 3 < tuner {
        return tuners;
    }
    let more = packet_more(tuners[tuner], reader::read(&held[5..47]));
    put(tuners, tuner, more)
}

#[tactic(auto, unfolding(crate::specs::Pieces::counted_items))]
pub(crate) fn found_more(tuners: [Tuner; 4], found: Found, held: [u8; 47]) -> [Tuner; 4]
    ensures { result ≡ counted_items (items_found found held) tuners }
{
    match found {
        Found::Nothing | Found::Timer => tuners,
        Found::Packet => counted(tuners, held),
    }
}
