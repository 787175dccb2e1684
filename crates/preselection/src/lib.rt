// Preselection data of a page, packets X/26 of EN 300 231 clause 7.3.2.3: read into its programmes, and written.
#![tactic(auto)]

ghost use Rattle.std.specs.Prelude.{true, ◌≡◌};
ghost use Rattle.answer.specs.Answer.{after, and_then, given};
ghost use Rattle.programmes.specs.Page.{reading_answer, reading_of, page_of};
ghost use Rattle.programmes.specs.Written.{written_answer, writing_of, programmes_of};
ghost use Rattle.preselection.specs.Laws.{Laws};

use programmes::{Page, Refusal, WriteRefusal};
use sending::{any_outside, words_of};
use sequence::State;

mod packet; // one packet's bytes, its triplets taken one at a time
mod page; // the programmes so far
mod writer; // the bytes of a page

// 'In that order within a packet, lowest packet first.'
pub fn read(bytes: &[u8]) -> Result<Page, Refusal>
    ensures result_value { reading_answer result ≡ and_then (reading_of bytes.now) (λ qs. given (page_of qs)) }
    ensures bytes_value { bytes.exit.now ≡ bytes.entry.now }
{
    let mut state = State::new();
    let mut page = page::none();
    for k in 0..bytes.len().div_ceil(42) {
        if bytes.len() < 42 * k + 42 {
            return Err(Refusal::Length);
        }
        let taken = packet::take(bytes, k, state, page);
        if packet::address_damaged(bytes, k) | taken.damaged {
            return Err(Refusal::Damaged);
        }
        if !packet::is_addressed(bytes, k) {
            return Err(Refusal::OtherPacket);
        }
        if taken.state.lacking {
            return Err(Refusal::Lacking);
        }
        state = taken.state;
        page = taken.page;
    }
    Ok(page)
}

// 'It tells how many packets it wrote and leaves the bytes of the others as they were'; a refusal leaves every byte as it was.
pub fn write(magazine: u8, page: Page, buf: &mut [u8]) -> Result<u8, WriteRefusal>
    ensures { (written_answer result ≡ and_then (writing_of magazine (programmes_of page) buf.old) (λ w. given w.packets))
        × (buf.new ≡ after buf.old (and_then (writing_of magazine (programmes_of page) buf.old) (λ w. given w.bytes))) }
{
    if buf.len() != 672 {
        return Err(WriteRefusal::WrongLength);
    }
    let words = words_of(page);
    let packets = words.count / 13 + 1;
    let outside = any_outside(page);
    if (7 < magazine) | outside | (16 < packets) {
        return Err(WriteRefusal::OutOfRange);
    }
    for i in 0..42 * packets {
        let k = i / 42;
        let j = i % 42;
        let at = writer::triplet_number(k, j);
        buf[i] = writer::byte_in(magazine, k, j, words.bits[at]);
    }
    Ok(packets as u8)
}

// The laws of the page, as a promise of the crate.
pub fn lawful() -> bool
    ensures { (result ≡ true) × Laws }
{
    true
}
