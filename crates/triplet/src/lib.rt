// One Hamming 24/18 word, which is three bytes: what it carries, and what a value is sent as.
#![tactic(auto)]

ghost use Rattle.std.specs.Prelude.{◌≡◌, true, ◌+◌, ◌%◌};
ghost use Rattle.std.specs.Int.Bits.{bit_and};
ghost use Rattle.std.specs.Int.Count.{ones};
ghost use Rattle.triplet.specs.Word.{word_of, good, triplet_of, coded_answer, coding_of};
ghost use Rattle.triplet.specs.Checks.{data_of, spelt};
ghost use Rattle.triplet.specs.Laws.{Laws};

#[derive(Clone, Copy)]
pub enum Triplet {
    Damaged,
    Clean(u32),
    Mended(u32),
}

// The positions that each parity bit covers, and all twenty-four: position n is bit n of the mask.
const COVERED_1: u32 = 0x555555;

const COVERED_2: u32 = 0x666666;

const COVERED_4: u32 = 0x787878;

const COVERED_8: u32 = 0x007F80;

const COVERED_16: u32 = 0x7F8000;

const ALL: u32 = 0xFFFFFF;

// 1 where the ones under a mask are even in number: a check that fails, and the parity bit that makes them odd. As in `hamming`, which has it
// of bytes: over both it would ask for a trait with `&` and `count_ones`, longer than the two.
fn even(w: u32, mask: u32) -> u32
    ensures { result ≡ (1 + ones (bit_and w mask)) % 2 }
{
    1 - u32::count_ones(w & mask) % 2
}

// The wrong bit's number, where one bit is wrong; 0 for bit 24, which none of the five covers, and also where none is wrong.
fn wrong_bit(w: u32) -> u32
    ensures { result ≡ spelt w }
{
    even(w, COVERED_1)
        + 2 * even(w, COVERED_2)
        + 4 * even(w, COVERED_4)
        + 8 * even(w, COVERED_8)
        + 16 * even(w, COVERED_16)
}

// D1 is bit 3 of the word, D2 to D4 are bits 5 to 7, D5 to D11 bits 9 to 15, D12 to D18 bits 17 to 23.
fn data_bits(w: u32) -> u32
    ensures { result ≡ data_of w }
{
    w / 4 % 2 + w / 16 % 8 * 2 + w / 256 % 128 * 16 + w / 65536 % 128 * 2048
}

// The good word of the lowest eighteen bits of v.
pub fn good_word(v: u32) -> u32
    ensures { result ≡ good (v % 262144) }
{
    let d = v % 262144;
    let laid = d % 2 * 4 + d / 2 % 8 * 16 + d / 16 % 128 * 256 + d / 2048 % 128 * 65536;
    let p1 = even(laid, COVERED_1);
    let p2 = even(laid, COVERED_2);
    let p4 = even(laid, COVERED_4);
    let p8 = even(laid, COVERED_8);
    let p16 = even(laid, COVERED_16);
    let most = laid + p1 + 2 * p2 + 8 * p4 + 128 * p8 + 32768 * p16;
    let p24 = even(most, ALL);
    most + 8388608 * p24
}

// One wrong bit makes the number of all ones even, two leave it odd. Bit 24 has no data, so that it need not be put right.
pub fn decode(a: u8, b: u8, c: u8) -> Triplet
    ensures { result ≡ triplet_of (word_of a b c) }
{
    let w = (a as u32) + 256 * (b as u32) + 65536 * (c as u32);
    let n = wrong_bit(w);
    let overall = even(w, ALL);
    if overall == 0 {
        if n == 0 {
            return Triplet::Clean(data_bits(w));
        }
        return Triplet::Damaged;
    }
    if 23 < n {
        return Triplet::Damaged;
    }
    Triplet::Mended(data_bits(w ^ (1 << n) / 2))
}

// None where the value is wider than eighteen bits.
#[tactic(auto, unfolding(crate::specs::Word::coding_of))]
pub fn encode(v: u32) -> Option<u32>
    ensures { coded_answer result ≡ coding_of v }
{
    if 262143 < v {
        return None;
    }
    Some(good_word(v))
}

// The laws of the word, as a promise of the crate.
pub fn lawful() -> bool
    ensures { (result ≡ true) × Laws }
{
    true
}
