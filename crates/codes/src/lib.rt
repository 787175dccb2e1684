// The codes of a preview page: what each is, and the colour in force.
#![tactic(auto)]

ghost use Rattle.std.specs.Prelude.{true, ◌≡◌};
ghost use Rattle.codes.specs.Codes.{is_colour, is_decimal, is_letter, is_hexadecimal, figure, is_graphics, is_mark, is_pair, colour_by};
ghost use Rattle.codes.specs.Laws.{Laws};

// '"Alpha Magenta" colour control character'
pub const MAGENTA: u8 = 5;

// '"Concealed display"', which table 4 prints as 1B
pub const CONCEAL: u8 = 27;

// The colour in force; all colours but magenta are plain.
#[derive(Clone, Copy)]
pub enum Colour {
    Plain,
    Magenta,
    Graphics,
}

pub fn is_colour(c: u8) -> bool
    ensures { result ≡ is_colour c }
{
    matches!(c, 1..=7) & (c != MAGENTA)
}

pub fn is_decimal(c: u8) -> bool
    ensures { result ≡ is_decimal c }
{
    matches!(c, b'0'..=b'9')
}

// A to F.
fn is_letter(c: u8) -> bool
    ensures { result ≡ is_letter c }
{
    matches!(c, b'A'..=b'F')
}

pub fn is_hexadecimal(c: u8) -> bool
    ensures { result ≡ is_hexadecimal c }
{
    is_decimal(c) | is_letter(c)
}

// The number that a figure shows, and 0 of what is none.
#[tactic(auto, using(crate::proofs::Facts::decimal_within, crate::proofs::Facts::letter_within))]
pub fn figure(c: u8) -> u8
    ensures { result ≡ figure c }
{
    if is_decimal(c) {
        return c - 48;
    }
    if is_letter(c) {
        return c - 55;
    }
    0
}

pub fn is_graphics(c: u8) -> bool
    ensures { result ≡ is_graphics c }
{
    matches!(c, 16..=23)
}

#[tactic(auto, unfolding(crate::specs::Codes::is_mark))]
pub fn is_mark(c: u8) -> bool
    ensures { result ≡ is_mark c }
{
    is_colour(c) | matches!(c, MAGENTA | CONCEAL)
}

pub fn is_pair(c: u8, d: u8) -> bool
    ensures { result ≡ is_pair c d }
{
    is_mark(c) & (c == d)
}

#[tactic(auto, unfolding(crate::specs::Codes::colour_by))]
pub fn colour_by(k: Colour, c: u8) -> Colour
    ensures { result ≡ colour_by k c }
{
    if is_colour(c) {
        return Colour::Plain;
    }
    if c == MAGENTA {
        return Colour::Magenta;
    }
    if is_graphics(c) {
        return Colour::Graphics;
    }
    k
}

// The laws of the codes, as a promise of the crate.
pub fn lawful() -> bool
    ensures { (result ≡ true) × Laws }
{
    true
}
