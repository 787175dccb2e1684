// The figure formats of a preview page: what starts one, and which format codes are.
#![tactic(auto)]

ghost use Rattle.std.specs.Prelude.{true, ◌≡◌};
ghost use Rattle.formats.specs.Formats.{start_of, concealed_in};
ghost use Rattle.formats.specs.Taken.{kind_from};
ghost use Rattle.formats.specs.Laws.{Laws};

use codes::Colour;

mod format; // what so many codes can only be, and whether they show it

// What stands directly before figures: a colour, `%` in plain, magenta, `%` in magenta, or nothing that starts a format.
#[derive(Clone, Copy)]
pub enum Start {
    Nothing,
    Colour,
    InPlain,
    Magenta,
    InMagenta,
}

// What a place of a format shows.
#[derive(Clone, Copy)]
pub enum Sign {
    Decimal,
    Hexadecimal,
    Point,
    Hyphen,
    PlusMinus,
    LetterF,
}

// The formats of table 5 but the title's, and what is none.
#[derive(Clone, Copy)]
pub enum Kind {
    Text,
    Single,
    Double,
    Original,
    Date,
    Network,
    Offset,
    Pty,
    Word,
}

fn concealed_in(k: Colour) -> Start
    ensures { result ≡ concealed_in k }
{
    match k {
        Colour::Plain => Start::InPlain,
        Colour::Magenta => Start::InMagenta,
        Colour::Graphics => Start::Nothing,
    }
}

#[tactic(auto, unfolding(crate::specs::Formats::start_of))]
pub fn start_of(k: Colour, c: u8) -> Start
    ensures { result ≡ start_of k c }
{
    if codes::is_colour(c) {
        return Start::Colour;
    }
    if c == codes::MAGENTA {
        return Start::Magenta;
    }
    if c == codes::CONCEAL {
        return concealed_in(k);
    }
    Start::Nothing
}

// Which format the first n of eleven codes are after a start; more are none.
pub fn kind_of(s: Start, n: usize, codes: [u8; 11]) -> Kind
    ensures { result ≡ kind_from s n codes }
{
    if 11 < n {
        return Kind::Text;
    }
    let kind = format::kind_by(s, n, codes[0]);
    if format::shown(kind, codes) {
        return kind;
    }
    Kind::Text
}

// The laws of the formats, as a promise of the crate.
pub fn lawful() -> bool
    ensures { (result ≡ true) × Laws }
{
    true
}
