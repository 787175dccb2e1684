// One packet of a page: its address and designation, and its triplets taken one at a time.
// The page and a packet's number, and no slice of the packet: so the definitions speak of byte i of packet k.
ghost use Rattle.std.specs.Prelude.{◌+◌, ◌*◌, ◌<◌, ◌≤◌, List, ◌≡◌, length};
ghost use Rattle.answer.specs.Lists.{some};
ghost use Rattle.label.specs.Packet.{damaged, value_of};
ghost use Rattle.programmes.specs.Page.{nibble_at, triplet_at, addressed, thirteen, damaged_triplet, bits_in, value_at, groups_in, is_addressed, page_of};
ghost use Rattle.programmes.specs.declared.Programme.{Programme};
ghost use Rattle.sequence.specs.Sequence.{state_from, programmes_from};

use crate::page::change;
use hamming::Nibble;
use programmes::Page;
use sequence::State;
use triplet::Triplet;

// 16 for a damaged byte.
fn value(n: Nibble) -> u8
    ensures { result ≡ value_of n }
{
    match n {
        Nibble::Damaged => 16,
        Nibble::Clean(v) | Nibble::Mended(v) => v,
    }
}

fn value_at(bytes: &[u8], k: usize, i: usize) -> u8
    requires { (42 * k + 42 ≤ length bytes.now) × (i < 42) }
    ensures { result ≡ value_at bytes.now k i }
{
    value(hamming::decode(bytes[42 * k + i]))
}

// 'An address byte, designation .. damaged.'
pub(crate) fn address_damaged(bytes: &[u8], k: usize) -> bool
    requires { 42 * k + 42 ≤ length bytes.now }
    ensures { result ≡ some (λ i. damaged (nibble_at bytes.now k i)) addressed }
{
    let magazine = value_at(bytes, k, 0);
    let packet = value_at(bytes, k, 1);
    let designation = value_at(bytes, k, 2);
    (15 < magazine) | (15 < packet) | (15 < designation)
}

// 'Not packet 26, another magazine than the first's, or designations not running up from 0.'
pub(crate) fn is_addressed(bytes: &[u8], k: usize) -> bool
    requires { 42 * k + 42 ≤ length bytes.now }
    ensures { result ≡ is_addressed bytes.now k }
{
    let first = value_at(bytes, 0, 0);
    let magazine = value_at(bytes, k, 0);
    let packet = value_at(bytes, k, 1);
    let designation = value_at(bytes, k, 2);
    (magazine < 8) & (magazine == first) & (packet == 13) & (designation as usize == k)
}

fn is_damaged(t: Triplet) -> bool
    ensures { result ≡ damaged_triplet t }
{
    matches!(t, Triplet::Damaged)
}

// 0, which is no group, for a damaged triplet.
fn bits_in(t: Triplet) -> u32
    ensures { result ≡ bits_in t }
{
    match t {
        Triplet::Damaged => 0,
        Triplet::Clean(v) | Triplet::Mended(v) => v,
    }
}

fn triplet_at(bytes: &[u8], k: usize, j: usize) -> Triplet
    requires { (42 * k + 42 ≤ length bytes.now) × (j < 13) }
    ensures { result ≡ triplet_at bytes.now k j }
{
    let at = 42 * k + 3 * j;
    triplet::decode(bytes[at + 3], bytes[at + 4], bytes[at + 5])
}

// The state and the programmes after a packet's triplets, and whether one of these is damaged.
#[derive(Clone, Copy)]
pub(crate) struct Taken {
    pub(crate) damaged: bool,
    pub(crate) state: State,
    pub(crate) page: Page,
}

// What a damaged packet's triplets would make is never told: its refusal comes first.
pub(crate) fn take(bytes: &[u8], k: usize, state: State, page: Page) -> Taken
    requires { (42 * k + 42 ≤ length bytes.now) × (page.count < 900) }
    ensures { (result.damaged ≡ some (λ j. damaged_triplet (triplet_at bytes.now k j)) thirteen)
        × (result.state ≡ state_from state (groups_in bytes.now k))
        × (result.page.count ≤ page.count + 13)
        × ((qs : List Programme) → page ≡ page_of qs → result.page ≡ page_of (programmes_from state qs (groups_in bytes.now k))) }
{
    let mut damaged = false;
    let mut s = state;
    let mut so_far = page;
    for j in 0..13 {
        let t = triplet_at(bytes, k, j);
        damaged |= is_damaged(t);
        let g = group::group_of(bits_in(t));
        change(&mut so_far, s.change(g));
        s = s.next(g);
    }
    Taken {
        damaged,
        state: s,
        page: so_far,
    }
}
