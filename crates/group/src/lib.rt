// One triplet of preselection: its eighteen bits, and the data group that they are.
#![tactic(auto)]

ghost use Rattle.std.specs.Prelude.{true, ◌≡◌, ◌<◌};
ghost use Rattle.group.specs.Group.{row_of, decimal, offset_of, group_of};
ghost use Rattle.group.specs.Group.{address_of, figures, flagged, offset_bits, joined, bits_of};
ghost use Rattle.group.specs.Laws.{Laws};

// Quarter hours east or west of Greenwich.
#[derive(Clone, Copy, PartialEq, Eq)]
pub enum Offset {
    East(u8),
    West(u8),
}

// 'The following types of data group are defined', the terminator, and what is none of them.
#[derive(Clone, Copy)]
pub enum Group {
    Other,
    Source(u8, u8),
    Date(u8, u8),
    Offset(u8, Offset),
    Start(u8, u8, bool),
    Minutes(u8, u8),
    Finish(u8, u8, bool),
    Series(u8),
    Terminator,
}

// An address below 40 is no row's, and is not asked for.
fn row_of(a: u8) -> u8
    ensures { result ≡ row_of a }
{
    if a == 40 {
        return 24;
    }
    a.saturating_sub(40)
}

fn decimal(b: u8) -> u8
    ensures { result ≡ decimal b }
{
    b / 16 * 10 + b % 16
}

// 'Minus 0 quarter hours is 0.'
fn offset_of(b: u8) -> Offset
    ensures { result ≡ offset_of b }
{
    let quarters = b % 64;
    if (63 < b) & (quarters != 0) {
        return Offset::West(quarters);
    }
    Offset::East(quarters)
}

// By the mode, and by what the clause fixes in the data words.
#[tactic(auto, unfolding(crate::specs::Group::group_of))]
pub fn group_of(v: u32) -> Group
    ensures { result ≡ group_of v }
{
    let a = (v % 64) as u8;
    let b = (v / 2048 % 128) as u8;
    match v / 64 % 32 {
        0b01000 if 48 <= a => Group::Source(a - 48, b),
        0b01001 if 48 <= a && b < 64 => Group::Date(a - 48, decimal(b)),
        0b01100 if 40 <= a => Group::Offset(row_of(a), offset_of(b)),
        0b01010 if 40 <= a => Group::Start(row_of(a), decimal(b % 64), 63 < b),
        0b00110 if a < 40 => Group::Minutes(a, decimal(b)),
        0b01011 if 40 <= a => Group::Finish(row_of(a), decimal(b % 64), 63 < b),
        0b01101 if a == 48 => Group::Series(b),
        0b11111 if a == 63 => Group::Terminator,
        _ => Group::Other,
    }
}

fn figures(n: u8) -> u32
    ensures { result ≡ figures n }
{
    n as u32 / 10 * 16 + n as u32 % 10
}

fn address_of(row: u8) -> u32
    ensures { (result ≡ address_of row) × (result < 1024) }
{
    if row == 24 {
        return 40;
    }
    40 + row as u32
}

// A number too wide for its word runs over into the next one, as in the definition: the bounds are those of any group's numbers.
fn joined(a: u32, mode: u32, b: u32) -> u32
    requires { (a < 1024) × (mode < 32) × (b < 1024) }
    ensures { result ≡ joined a mode b }
{
    a + 64 * mode + 2048 * b
}

// The sign of an offset is above its six bits, as the flag is above the hours'.
fn flagged(low: u32, flag: bool) -> u32
    requires { low < 512 }
    ensures { (result ≡ flagged low flag) × (result < 1024) }
{
    low + 64 * u32::from(flag)
}

fn offset_bits(o: Offset) -> u32
    ensures { (result ≡ offset_bits o) × (result < 1024) }
{
    match o {
        Offset::East(q) => q as u32,
        Offset::West(q) => q as u32 + 64,
    }
}

// Starting and finishing hours differ in their mode alone.
fn hours(row: u8, mode: u32, hour: u8, flag: bool) -> u32
    requires { mode < 32 }
    ensures { result ≡ joined (address_of row) mode (flagged (figures hour) flag) }
{
    joined(address_of(row), mode, flagged(figures(hour), flag))
}

// The eighteen bits of a group whose numbers fit them; what is no group is sent as 0, which is none either.
#[tactic(auto, unfolding(crate::specs::Group::bits_of))]
pub fn bits_of(g: Group) -> u32
    ensures { result ≡ bits_of g }
{
    match g {
        Group::Other => 0,
        Group::Source(country, source) => joined(48 + country as u32, 0b01000, source as u32),
        Group::Date(month, day) => joined(48 + month as u32, 0b01001, figures(day)),
        Group::Offset(row, o) => joined(address_of(row), 0b01100, offset_bits(o)),
        Group::Start(row, hour, controlled) => hours(row, 0b01010, hour, controlled),
        Group::Minutes(column, minute) => joined(column as u32, 0b00110, figures(minute)),
        Group::Finish(row, hour, duration) => hours(row, 0b01011, hour, duration),
        Group::Series(code) => joined(48, 0b01101, code as u32),
        Group::Terminator => joined(63, 0b11111, 127),
    }
}

// The laws of the group, as a promise of the crate.
pub fn lawful() -> bool
    ensures { (result ≡ true) × Laws }
{
    true
}
