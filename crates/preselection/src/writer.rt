// The bytes of a page.
ghost use Rattle.std.specs.Prelude.{◌+◌, ◌-◌, ◌*◌, ◌/◌, ◌<◌, List, ◌≡◌};
ghost use Rattle.group.specs.declared.Group.{Group};
ghost use Rattle.programmes.specs.Written.{bits_at, byte_of, byte_in};

use hamming::good_byte;
use triplet::good_word;

// 'And 13 groups of 3 bytes': the triplet of the page that has byte j of packet k, where it is past the first three.
pub(crate) fn triplet_number(k: usize, j: usize) -> usize
    requires { (k < 16) × (j < 42) }
    ensures { result ≡ 13 * k + (j - 3) / 3 }
{
    13 * k + j.saturating_sub(3) / 3
}

fn byte_of(w: u32, n: usize) -> u8
    ensures { result ≡ byte_of w n }
{
    match n {
        0 => (w % 256) as u8,
        1 => (w / 256 % 256) as u8,
        _ => (w / 65536 % 256) as u8,
    }
}

// 'Magazine and packet address, followed by a designation code and 13 groups of 3 bytes': byte j of packet k, whatever the groups
// are whose triplet there has these eighteen bits.
pub(crate) fn byte_in(magazine: u8, k: usize, j: usize, v: u32) -> u8
    requires { (magazine < 16) × (k < 16) × (v < 262144) }
    ensures { (gs : List Group) → bits_at gs (13 * k + (j - 3) / 3) ≡ v → result ≡ byte_in magazine gs k j }
{
    match j {
        0 => good_byte(magazine),
        1 => good_byte(13),
        2 => good_byte(k as u8),
        _ => byte_of(good_word(v), (j - 3) % 3),
    }
}
