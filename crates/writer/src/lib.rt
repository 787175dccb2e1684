// A label written into a packet's bytes.
#![tactic(auto)]

ghost use Rattle.std.specs.Prelude.{true, ◌≡◌, ◌∷◌, [], length};
ghost use Rattle.answer.specs.Answer.{number, after};
ghost use Rattle.label.specs.Layout.{sent_at};
ghost use Rattle.label.specs.Number.{number_by};
ghost use Rattle.label.specs.Packet.{unfit, put, byte_for, label_bytes, written_number, writing_of};
ghost use Rattle.writer.specs.Laws.{Laws};

use label::nibble::turned;
use label::{Label, WriteRefusal};

#[tactic(auto, using(label::proofs::Tests::unfit_by))]
fn too_wide(l: Label) -> bool
    ensures { result ≡ unfit l }
{
    (4 <= l.lci)
        | (2 <= l.luf)
        | (2 <= l.prf)
        | (4 <= l.pcs)
        | (2 <= l.mi)
        | (2 <= l.spare)
        | (1048576 <= l.pil)
        | !((l.designation == 2) | (l.designation == 3))
}

// The bits of bytes 9 and 10 as one number, the first sent highest.
#[tactic(auto, using(label::proofs::Sent::flags_sent))]
fn flags(l: Label) -> u8
    ensures { result ≡ number_by (sent_at l) (9 ∷ 10 ∷ []) }
{
    let nine = (l.lci % 4 * 2 + l.luf % 2) * 2 + l.prf % 2;
    let ten = (l.pcs % 4 * 2 + l.mi % 2) * 2 + l.spare % 2;
    nine * 16 + ten
}

// The same of bytes 9 to 21. The PIL stands among the CNI's bits.
fn number_of(l: Label) -> u64
    ensures { result ≡ number_by (sent_at l) label_bytes }
{
    let cni = u64::from(l.cni);
    let pil = u64::from(l.pil);
    let pty = u64::from(l.pty);
    let first = u64::from(flags(l)) * 64 + cni / 4096 * 4 + cni / 64 % 4;
    let last = cni / 256 % 16 * 64 + cni % 64;
    (first * 1048576 + pil % 1048576) * 262144 + last * 256 + pty
}

// Bytes 9 to 21; byte 21 has the four lowest bits.
#[tactic(auto, using(label::proofs::Puts::put_run, label::proofs::Puts::put_length))]
fn fill(l: Label, buf: &mut [u8])
    requires { length buf.old ≡ 42 }
    ensures { buf.new ≡ put (byte_for l) label_bytes buf.old }
{
    let number = number_of(l);
    for i in 9..22 {
        let nibble = (number >> (84 - 4 * i)) % 16;
        buf[i] = hamming::good_byte(turned(nibble as u8));
    }
}

// The label in a packet of 42 bytes; a refusal leaves every byte as it was.
#[tactic(auto, using(label::proofs::Sent::designation_sent, label::proofs::Puts::put_length), unfolding(label::specs::Packet::writing_of, label::specs::Packet::byte_for))]
pub fn write(l: Label, buf: &mut [u8]) -> Result<(), WriteRefusal>
    ensures { (written_number result ≡ number (writing_of l buf.old)) × (buf.new ≡ after buf.old (writing_of l buf.old)) }
{
    if buf.len() != 42 {
        return Err(WriteRefusal::WrongLength);
    }
    if too_wide(l) {
        return Err(WriteRefusal::TooWide);
    }
    buf[0] = hamming::good_byte(0);
    buf[1] = hamming::good_byte(15);
    buf[2] = hamming::good_byte(l.designation);
    fill(l, buf);
    Ok(())
}

// The law of one outcome, as a promise of the crate.
pub fn lawful() -> bool
    ensures { (result ≡ true) × Laws }
{
    true
}
