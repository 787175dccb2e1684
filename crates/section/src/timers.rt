// A page's timers as the entries of a sheet, one after the other.
ghost use Rattle.std.specs.Prelude.{◌+◌, ◌<◌, ◌≤◌, ◌≡◌, take};
ghost use Rattle.std.proofs.lemmas.List.Edits.{sets};
ghost use Rattle.preview.specs.Taken.{reading_answer};
ghost use Rattle.section.specs.Section.{entry_of, timers_of};
ghost use Rattle.section.specs.Taken.{entered, after_timer, counted, section_read};

use crate::{Entries, Section};
use answer::least;
use booked::Booked;
use preview::{Page, Programme, Refusal};

// No page has more programmes.
const MOST: usize = 24;

// 'CNI 2, PIL 3, year 1', tuner and length.
#[tactic(auto, unfolding(crate::specs::Section::entry_of))]
fn entry(tuner: u8, b: Booked) -> [u8; 9]
    ensures { result ≡ entry_of tuner b }
{
    [
        (b.cni / 256 % 256) as u8,
        (b.cni % 256) as u8,
        (b.pil / 256 / 256 % 256) as u8,
        (b.pil / 256 % 256) as u8,
        (b.pil % 256) as u8,
        b.year,
        tuner,
        (b.length / 256 % 256) as u8,
        (b.length % 256) as u8,
    ]
}

// Nine bytes from place at on.
fn put(bytes: [u8; 217], at: usize, entry: [u8; 9]) -> [u8; 217]
    requires { at + 9 ≤ 217 }
    ensures { result ≡ sets bytes at entry }
{
    let mut all = bytes;
    all[at..at + 9].copy_from_slice(&entry);
    all
}

// '2500 gives no timer.'
#[tactic(auto, unfolding(crate::specs::Taken::after_timer))]
fn after_timer(tuner: u8, had: Entries, timer: Option<Booked>) -> Entries
    requires { had.count < 24 }
    ensures { result ≡ after_timer tuner had timer }
{
    match timer {
        None => had,
        Some(b) => Entries {
            count: had.count + 1,
            bytes: put(had.bytes, 1 + 9 * had.count, entry(tuner, b)),
        },
    }
}

fn entries_of(tuner: u8, programmes: [Programme; 24], count: usize) -> Entries
    ensures { (result ≡ entered tuner (timers_of (take count programmes))) × (result.count ≤ 24) }
{
    let shown = least(count, MOST);
    let mut had = Entries {
        count: 0,
        bytes: [0; 217],
    };
    for q in &programmes[..shown] {
        had = after_timer(tuner, had, booked::timer_of(*q));
    }
    had
}

// 'Timers: a one-byte count', before them.
#[tactic(auto, unfolding(crate::specs::Taken::counted))]
fn counted(all: Entries) -> Section
    requires { all.count ≤ 24 }
    ensures { result ≡ counted all }
{
    let mut bytes = all.bytes;
    bytes[0] = all.count as u8;
    Section {
        length: 1 + 9 * all.count,
        bytes,
    }
}

// 'A refused page gives its number .. nothing on standard output.'
#[tactic(auto, using(crate::proofs::Entered::all_counted), unfolding(crate::specs::Taken::section_read))]
pub(crate) fn section_of(tuner: u8, reading: Result<Page, Refusal>) -> Result<Section, Refusal>
    ensures { reading_answer result ≡ section_read tuner (reading_answer reading) }
{
    let page = reading?;
    Ok(counted(entries_of(tuner, page.programmes, page.count)))
}
