// The words that every layer uses: what a call answers, in specs/, numbers out of bytes, digits, the lesser of two numbers, and one element
// of an array.
#![tactic(auto)]

ghost use Rattle.std.specs.Prelude.{min, true, [], ◌∷◌, ◌≡◌, get_or, set};
ghost use Rattle.answer.specs.Bytes.{number_of};
ghost use Rattle.answer.specs.Laws.{Laws};
ghost use Rattle.answer.specs.Text.{digit};

// 'Numbers have the high byte first.'
pub fn pair(a: u8, b: u8) -> u16
    ensures { result ≡ number_of (a ∷ b ∷ []) }
{
    a as u16 * 256 + b as u16
}

pub fn triple(a: u8, b: u8, c: u8) -> u32
    ensures { result ≡ number_of (a ∷ b ∷ c ∷ []) }
{
    pair(a, b) as u32 * 256 + c as u32
}

pub fn four(a: u8, b: u8, c: u8, d: u8) -> u32
    ensures { result ≡ number_of (a ∷ b ∷ c ∷ d ∷ []) }
{
    triple(a, b, c) * 256 + d as u32
}

// The last digit of a number, as text.
pub fn digit(n: usize) -> u8
    ensures { result ≡ digit n }
{
    (48 + n % 10) as u8
}

pub fn least(m: usize, n: usize) -> usize
    ensures { result ≡ min m n }
{
    m.min(n)
}

// An array with one element put; past the last place nothing is.
pub fn put<T: Copy, const N: usize>(all: [T; N], at: usize, x: T) -> [T; N]
    ensures { result ≡ set all at x }
{
    let mut out = all;
    if at < N {
        out[at] = x;
    }
    out
}

// The element at a place; past the last place it is the other.
pub fn at_or<T: Copy, const N: usize>(all: [T; N], at: usize, other: T) -> T
    ensures { result ≡ get_or all at other }
{
    if at < N {
        return all[at];
    }
    other
}

// The laws of these words, as a promise of the crate.
pub fn lawful() -> bool
    ensures { (result ≡ true) × Laws }
{
    true
}
