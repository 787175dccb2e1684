// A packet's bytes read into a label, and its mended bytes counted.
#![tactic(auto)]

ghost use Rattle.std.specs.Prelude.{true, cond, ◌≡◌, ℕ, ◌<◌, eqb, length, false, MatchOption};
ghost use Rattle.answer.specs.Lists.{some, count};
ghost use Rattle.hamming.specs.Byte.{away, nibble_of};
ghost use Rattle.label.specs.Layout.{bit_at, field_by, label_by};
ghost use Rattle.label.specs.Number.{number_by};
ghost use Rattle.label.specs.Packet.{value_of, value_at, damaged, damaged_at, mended_at, label_bytes, reading_answer, reception_of};
ghost use Rattle.reader.specs.Laws.{Laws};

use hamming::Nibble;
use label::nibble::turned;
use label::{Label, Received, Refusal};

// Bytes 9 to 21 as one number of 52 bits, the first sent highest, and how many of them are mended.
#[derive(Clone, Copy)]
struct Sent {
    mended: u8,
    number: u64,
}

// A damaged byte has none.
fn value(n: Nibble) -> Option<u8>
    ensures { MatchOption result (damaged n ≡ true) (λ v. (damaged n ≡ false) × (v ≡ value_of n)) }
{
    match n {
        Nibble::Damaged => None,
        Nibble::Clean(v) | Nibble::Mended(v) => Some(v),
    }
}

// 1 for a mended byte, and 0 for another.
fn mends(n: Nibble) -> u8
    ensures { (b : ℕ) → n ≡ nibble_of b → result ≡ cond (eqb (away b) 1) 1 0 }
{
    u8::from(matches!(n, Nibble::Mended(_)))
}

// None where one of them is damaged.
fn nibbles(bytes: &[u8]) -> Option<Sent>
    requires { length bytes.now ≡ 42 }
    ensures { MatchOption result (some (damaged_at bytes.now) label_bytes ≡ true)
        (λ s. (some (damaged_at bytes.now) label_bytes ≡ false)
        × (s.mended ≡ count (mended_at bytes.now) label_bytes)
        × (s.number ≡ number_by (bit_at (value_at bytes.now)) label_bytes)) }
{
    let mut number: u64 = 0;
    let mut mended: u8 = 0;
    for i in 9..22 {
        let n = hamming::decode(bytes[i]);
        let v = value(n)?;
        mended += mends(n);
        number = number * 16 + u64::from(turned(v));
    }
    Some(Sent { mended, number })
}

// In the order in which they are sent: LCI 2 bits, LUF, PRF, PCS 2, MI, spare, CNI 1-4, CNI 9-10, PIL 20, CNI 5-8, CNI 11-16, PTY 8.
fn label_of(designation: u8, number: u64) -> Label
    requires { designation < 16 }
    ensures { (v : ℕ → ℕ) → designation ≡ v 2 → number ≡ number_by (bit_at v) label_bytes → result ≡ label_by (field_by v) }
{
    let lci = ((number >> 50) % 4) as u8;
    let luf = ((number >> 49) % 2) as u8;
    let prf = ((number >> 48) % 2) as u8;
    let pcs = ((number >> 46) % 4) as u8;
    let mi = ((number >> 45) % 2) as u8;
    let spare = ((number >> 44) % 2) as u8;
    let country = (number >> 40) % 16 * 16 + (number >> 14) % 16;
    let network = (number >> 38) % 4 * 64 + (number >> 8) % 64;
    let cni = (country * 256 + network) as u16;
    let pil = ((number >> 18) % 1048576) as u32;
    let pty = (number % 256) as u8;
    Label {
        designation,
        lci,
        luf,
        prf,
        pcs,
        mi,
        spare,
        cni,
        pil,
        pty,
    }
}

// The label of a packet and the count of its mended bytes, or the first refusal that applies.
#[tactic(auto, using(label::proofs::Mended::mended_sum, label::proofs::Mended::few_mended), unfolding(label::specs::Packet::reception_of))]
pub fn read(bytes: &[u8]) -> Result<Received, Refusal>
    ensures result_value { reading_answer result ≡ reception_of bytes.now }
    ensures bytes_value { bytes.exit.now ≡ bytes.entry.now }
{
    if bytes.len() != 42 {
        return Err(Refusal::Length);
    }
    let n0 = hamming::decode(bytes[0]);
    let v0 = value(n0).ok_or(Refusal::AddressDamaged)?;
    let n1 = hamming::decode(bytes[1]);
    let v1 = value(n1).ok_or(Refusal::AddressDamaged)?;
    if !((v0 == 0) & (v1 == 15)) {
        return Err(Refusal::OtherPacket);
    }
    let n2 = hamming::decode(bytes[2]);
    let v2 = value(n2).ok_or(Refusal::DesignationDamaged)?;
    if !((v2 == 2) | (v2 == 3)) {
        return Err(Refusal::OtherDesignation);
    }
    let sent = nibbles(bytes).ok_or(Refusal::LabelDamaged)?;
    let first = mends(n0) + mends(n1) + mends(n2);
    let mended = first + sent.mended;
    Ok(Received {
        label: label_of(v2, sent.number),
        mended,
    })
}

// The law of one outcome, as a promise of the crate.
pub fn lawful() -> bool
    ensures { (result ≡ true) × Laws }
{
    true
}
