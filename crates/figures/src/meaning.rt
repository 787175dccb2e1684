// What a format's figures mean, and whether they are permitted.
ghost use Rattle.std.specs.Prelude.{◌≡◌, ◌≤◌, ◌+◌, ◌*◌};
ghost use Rattle.codes.specs.Codes.{figure};
ghost use Rattle.formats.specs.Formats.{pattern, figures_by};
ghost use Rattle.formats.specs.Taken.{own_codes};
ghost use Rattle.figures.specs.Permitted.{is_time, february, days_in, value_of};
ghost use Rattle.figures.specs.Taken.{single_by, double_by, original_by, date_by, network_by, offset_by, pty_by};

use crate::{Offset, Value};
use codes::figure;
use formats::Kind;

// Two figures, in decimal or in hexadecimal.
#[tactic(auto, using(crate::proofs::Facts::two_small))]
fn two(base: u8, c: u8, d: u8) -> u8
    requires { base ≤ 16 }
    ensures { result ≡ figure c * base + figure d }
{
    figure(c) * base + figure(d)
}

fn is_time(hour: u8, minute: u8) -> bool
    ensures { result ≡ is_time hour minute }
{
    (hour < 24) & (minute < 60)
}

fn february(year: u8) -> u8
    ensures { result ≡ february year }
{
    if year % 4 == 0 {
        return 29;
    }
    28
}

fn days_in(month: u8, year: u8) -> u8
    ensures { result ≡ days_in month year }
{
    match month {
        2 => february(year),
        4 | 6 | 9 | 11 => 30,
        _ => 31,
    }
}

fn single(hour: u8, minute: u8) -> Value
    ensures { result ≡ single_by hour minute }
{
    if is_time(hour, minute) {
        return Value::Single(hour, minute);
    }
    Value::Wrong
}

fn double(hour: u8, minute: u8, until: u8, past: u8) -> Value
    ensures { result ≡ double_by hour minute until past }
{
    if is_time(hour, minute) & is_time(until, past) {
        return Value::Double(hour, minute, until, past);
    }
    Value::Wrong
}

// 'The AT-2 time 2500 indicates items not worth recording.'
fn original(hour: u8, minute: u8) -> Value
    ensures { result ≡ original_by hour minute }
{
    if is_time(hour, minute) | ((hour == 25) & (minute == 0)) {
        return Value::Original(hour, minute);
    }
    Value::Wrong
}

fn date(day: u8, month: u8, year: u8) -> Value
    ensures { result ≡ date_by day month year }
{
    if matches!(month, 1..=12) & (1 <= day) & (day <= days_in(month, year)) {
        return Value::Date(day, month, year);
    }
    Value::Wrong
}

// 'zzz 000 to 255; the value is hh times 256 plus zzz.'
fn network(country: u8, hundreds: u8, rest: u8) -> Value
    ensures { result ≡ network_by country hundreds rest }
{
    let number = hundreds as u16 * 100 + rest as u16;
    if number < 256 {
        return Value::Network(country as u16 * 256 + number);
    }
    Value::Wrong
}

// '0zz is plus, 9zz minus, and 900 is zero.'
fn offset(side: u8, quarters: u8) -> Value
    ensures { result ≡ offset_by side quarters }
{
    if (side == 9) & (0 < quarters) {
        return Value::Offset(Offset::Minus(quarters));
    }
    Value::Offset(Offset::Plus(quarters))
}

fn pty(code: u8) -> Value
    ensures { result ≡ pty_by code }
{
    if code == 0 {
        return Value::Wrong;
    }
    Value::Pty(code)
}

#[tactic(auto, using(formats::proofs::Facts::eleven), unfolding(crate::specs::Permitted::permitted, crate::specs::Permitted::value_of))]
pub(crate) fn value_of(kind: Kind, c: [u8; 11]) -> Value
    ensures { result ≡ value_of kind (figures_by (pattern kind) (own_codes kind c)) }
{
    let [c0, c1, c2, c3, c4, c5, c6, c7, c8, c9, c10] = c;
    match kind {
        Kind::Text => Value::Text,
        Kind::Single => single(two(10, c0, c1), two(10, c3, c4)),
        Kind::Double => double(
            two(10, c0, c1),
            two(10, c3, c4),
            two(10, c6, c7),
            two(10, c9, c10),
        ),
        Kind::Original => original(two(10, c0, c1), two(10, c2, c3)),
        Kind::Date => date(two(10, c0, c1), two(10, c2, c3), two(10, c4, c5)),
        Kind::Network => network(two(16, c0, c1), figure(c2), two(10, c3, c4)),
        Kind::Offset => offset(figure(c0), two(10, c1, c2)),
        Kind::Pty => pty(two(16, c1, c2)),
        Kind::Word => Value::Word(two(16, c0, c1)),
    }
}
