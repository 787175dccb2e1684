// A nibble of the label: its bits in the order in which they are sent.
ghost use Rattle.std.specs.Prelude.{◌≡◌, ◌∷◌, [], ◌<◌};
ghost use Rattle.hamming.specs.Byte.{D};
ghost use Rattle.label.specs.Layout.{number_from};

// The four bits of a nibble as a number, the first sent highest: 'Here D1 is the highest bit of the nibble.' A `match` lies still in
// memory, where a constant array is built anew at each look.
pub fn turned(v: u8) -> u8
    ensures { (result ≡ number_from 0 (D 1 v ∷ D 2 v ∷ D 3 v ∷ D 4 v ∷ [])) × (result < 16) }
{
    match v % 16 {
        0 => 0,
        1 => 8,
        2 => 4,
        3 => 12,
        4 => 2,
        5 => 10,
        6 => 6,
        7 => 14,
        8 => 1,
        9 => 9,
        10 => 5,
        11 => 13,
        12 => 3,
        13 => 11,
        14 => 7,
        _ => 15,
    }
}
