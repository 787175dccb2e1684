// One Hamming 8/4 byte: what it carries, and what a value is sent as.
#![tactic(auto)]

ghost use Rattle.std.specs.Prelude.{◌≡◌, true, ◌+◌, ◌*◌, ◌/◌, ◌%◌, ◌<◌};
ghost use Rattle.std.specs.Int.Bits.{bit_and};
ghost use Rattle.std.specs.Int.Count.{ones};
ghost use Rattle.hamming.specs.Byte.{D, good, nibble_of, coded_answer, coding_of};
ghost use Rattle.hamming.specs.Laws.{Laws};

#[derive(Clone, Copy)]
pub enum Nibble {
    Damaged,
    Clean(u8),
    Mended(u8),
}

// The bits of a byte, the lowest first: P1 D1 P2 D2 P3 D3 P4 D4.
const P1: u8 = 0x01;

const D1: u8 = 0x02;

const P2: u8 = 0x04;

const D2: u8 = 0x08;

const P3: u8 = 0x10;

const D3: u8 = 0x20;

const P4: u8 = 0x40;

const D4: u8 = 0x80;

// The bits that each check counts, a parity bit and those of its equation: in a good byte they are odd in number.
// P1 = 1+D1+D3+D4
const CHECK_1: u8 = P1 | D1 | D3 | D4;

// P2 = 1+D1+D2+D4
const CHECK_2: u8 = P2 | D1 | D2 | D4;

// P3 = 1+D1+D2+D3
const CHECK_3: u8 = P3 | D1 | D2 | D3;

// P4 = 1+ the seven others, so that this check is the overall one.
const CHECK_4: u8 = P1 | D1 | P2 | D2 | P3 | D3 | P4 | D4;

// 1 where the ones under a mask are even in number: a check that fails, and the parity bit that makes them odd.
fn even(b: u8, mask: u8) -> u8
    ensures { result ≡ (1 + ones (bit_and b mask)) % 2 }
{
    ((1 + (b & mask).count_ones()) % 2) as u8
}

// The good byte of the lowest four bits of v.
pub fn good_byte(v: u8) -> u8
    ensures { result ≡ good (v % 16) }
{
    let data = v % 2 * D1 + v / 2 % 2 * D2 + v / 4 % 2 * D3 + v / 8 % 2 * D4;
    let p1 = even(data, CHECK_1);
    let p2 = even(data, CHECK_2);
    let p3 = even(data, CHECK_3);
    let seven = data + p1 * P1 + p2 * P2 + p3 * P3;
    let p4 = even(seven, CHECK_4);
    seven + p4 * P4
}

// The value of a byte's own data bits, D1 the lowest: D1 beside D2 and D3 beside D4, then the two pairs.
fn data_bits(b: u8) -> u8
    ensures { result ≡ D 2 b + 2 * D 4 b + 4 * D 6 b + 8 * D 8 b }
{
    let pairs = (b & (D1 | D3)) / 2 + (b & (D2 | D4)) / 4;
    pairs % 4 + pairs / 4
}

// The wrong bit, where one is wrong: of the first three checks it has a part in those that fail, and in no other. A data bit has a
// part in two or in all three, P1 to P3 in one, P4 in none. Their masks are 0xA3, 0x8E and 0x3A.
fn wrong_bit(failing: u8) -> u8
    requires { failing < 8 }
    ensures { (ones result ≡ 1) × (ones (bit_and result 0xA3) ≡ failing % 2) × (ones (bit_and result 0x8E) ≡ failing / 2 % 2) × (ones (bit_and result 0x3A) ≡ failing / 4) }
{
    match failing {
        0 => P4,
        1 => P1,
        2 => P2,
        3 => D4,
        4 => P3,
        5 => D3,
        6 => D2,
        _ => D1,
    }
}

// One wrong bit makes the overall check fail, two let it hold. In `failing` the first three checks have 1, 2 and 4.
pub fn decode(b: u8) -> Nibble
    ensures { result ≡ nibble_of b }
{
    let failing = even(b, CHECK_1) + 2 * even(b, CHECK_2) + 4 * even(b, CHECK_3);
    let overall = even(b, CHECK_4);
    if overall == 0 {
        if failing == 0 {
            return Nibble::Clean(data_bits(b));
        }
        return Nibble::Damaged;
    }
    let wrong = wrong_bit(failing);
    Nibble::Mended(data_bits(b ^ wrong))
}

// None is refusal 16: a value that is wider than its four bits.
#[tactic(auto, unfolding(crate::specs::Byte::coding_of))]
pub fn encode(v: u8) -> Option<u8>
    ensures { coded_answer result ≡ coding_of v }
{
    if 15 < v {
        return None;
    }
    Some(good_byte(v))
}

// The laws of the byte, as a promise of the crate.
pub fn lawful() -> bool
    ensures { (result ≡ true) × Laws }
{
    true
}
