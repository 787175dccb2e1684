// From the tables' numbers to seconds of the desk's clock, and to labels.
ghost use Rattle.std.specs.Prelude.{◌<◌};

use crate::rows::{DAY, JULY, LUF, MI, OCTOBER, PRF};
use label::Label;

// 2001, whose 28 October is a Sunday: the day on which sequence 14 has the clocks put back.
pub(crate) const YEAR: u8 = 1;

// The clock's number of the day before a month's first. Months that no sequence has are taken for December.
fn day_zero(month: u8) -> u32
    ensures { result < 1000 }
{
    match month {
        JULY => 365 + 181,
        OCTOBER => 365 + 273,
        _ => 365 + 334,
    }
}

pub(crate) fn second_of(month: u8, at: u32) -> u32
    ensures { result < 100000000 }
{
    let day = day_zero(month) + at / DAY % 100;
    let hour = day * 24 + at / 10000 % 100;
    let minute = hour * 60 + at / 100 % 100;
    minute * 60 + at % 100
}

// 15 beside the hours of the service codes and no-specific-value, which no day has.
fn month_at(month: u8, hour: u32) -> u32
    ensures { result < 256 }
{
    if 23 < hour {
        return 15;
    }
    month as u32
}

pub(crate) fn pil_of(month: u8, announced: u32) -> u32 {
    let day = announced / 10000 % 100;
    let hour = announced / 100 % 100;
    let month = month_at(month, hour);
    ((day * 16 + month) * 32 + hour) * 64 + announced % 100
}

// Sound, spare bit and programme type decide nothing in the desk, and are sent as 0.
pub(crate) fn label_of(month: u8, cni: u16, lci: u8, sent: u32) -> Label {
    Label {
        designation: 2,
        lci,
        luf: (sent / LUF % 2) as u8,
        prf: (sent / PRF % 2) as u8,
        pcs: 0,
        mi: (sent / MI % 2) as u8,
        spare: 0,
        cni,
        pil: pil_of(month, sent),
        pty: 0,
    }
}
