// What so many codes after a start can only be, and whether they show it.
ghost use Rattle.std.specs.Prelude.{◌≡◌};
ghost use Rattle.formats.specs.Formats.{pattern, fits};
ghost use Rattle.formats.specs.Taken.{are_decimal, are_hexadecimal, either_by, hidden_by, coloured_by, plain_by, kind_by, own_codes};

use crate::{Kind, Start};
use codes::{is_decimal, is_hexadecimal};

fn zz(c: u8, d: u8) -> bool
    ensures { result ≡ are_decimal c d }
{
    is_decimal(c) & is_decimal(d)
}

fn hh(c: u8, d: u8) -> bool
    ensures { result ≡ are_hexadecimal c d }
{
    is_hexadecimal(c) & is_hexadecimal(d)
}

// The figures of table 5.
pub(crate) fn shown(kind: Kind, c: [u8; 11]) -> bool
    ensures { result ≡ fits (pattern kind) (own_codes kind c) }
{
    let [c0, c1, c2, c3, c4, c5, c6, c7, c8, c9, c10] = c;
    match kind {
        Kind::Text => true,
        Kind::Single => zz(c0, c1) & ((c2 == b'.') & zz(c3, c4)),
        Kind::Double => {
            let start = zz(c0, c1) & ((c2 == b'.') & zz(c3, c4));
            let finish = zz(c6, c7) & ((c8 == b'.') & zz(c9, c10));
            start & ((c5 == b'-') & finish)
        }
        Kind::Original => zz(c0, c1) & zz(c2, c3),
        Kind::Date => zz(c0, c1) & (zz(c2, c3) & zz(c4, c5)),
        Kind::Network => hh(c0, c1) & (is_decimal(c2) & zz(c3, c4)),
        Kind::Offset => matches!(c0, b'0' | b'9') & zz(c1, c2),
        Kind::Pty => (c0 == b'F') & hh(c1, c2),
        Kind::Word => hh(c0, c1),
    }
}

fn either_by(n: usize) -> Kind
    ensures { result ≡ either_by n }
{
    match n {
        4 => Kind::Original,
        6 => Kind::Date,
        _ => Kind::Text,
    }
}

fn hidden_by(n: usize, c: u8) -> Kind
    ensures { result ≡ hidden_by n c }
{
    match n {
        2 => Kind::Word,
        3 if c == b'F' => Kind::Pty,
        3 => Kind::Offset,
        5 => Kind::Network,
        _ => either_by(n),
    }
}

fn coloured_by(n: usize) -> Kind
    ensures { result ≡ coloured_by n }
{
    match n {
        5 => Kind::Single,
        11 => Kind::Double,
        _ => Kind::Text,
    }
}

fn plain_by(n: usize) -> Kind
    ensures { result ≡ plain_by n }
{
    if n == 5 {
        return Kind::Single;
    }
    Kind::Text
}

pub(crate) fn kind_by(s: Start, n: usize, c: u8) -> Kind
    ensures { result ≡ kind_by s n c }
{
    match s {
        Start::Nothing => Kind::Text,
        Start::Colour => coloured_by(n),
        Start::InPlain => plain_by(n),
        Start::Magenta => either_by(n),
        Start::InMagenta => hidden_by(n, c),
    }
}
