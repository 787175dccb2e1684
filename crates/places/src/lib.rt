// The sixteen places as an array: one read or changed, and all of them searched.
#![tactic(auto)]

ghost use Rattle.std.specs.Prelude.{true, ◌≡◌, get_or, set};
ghost use Rattle.answer.specs.Lists.{some};
ghost use Rattle.places.specs.Laws.{Laws};
ghost use Rattle.places.specs.Places.{no_label, stands};

use crate::standing::{no_label, stands};

pub mod failing; // a tuner without labels
pub mod standing; // what a place holds, and how long it stands

// What a place last heard. A place that has heard nothing yet is the value with `heard` false. The wider fields of a struct come first, so that
// none is padded inside: the desk holds sixteen of these, and every call copies it whole. A flag, and no `Option`: the definitions `no_label`
// and `stands` speak of this value's fields.
#[derive(Clone, Copy)]
pub struct Stamped {
    pub stamp: u32,
    pub pil: u32,
    pub cni: u16,
    pub heard: bool,
    pub prf: bool,
    pub mi: bool,
}

// Past the last place there is no label. A function, and `put_label`, by the laws `label_at_unique` and `put_label_unique`.
pub fn label_at(places: [Stamped; 16], p: usize) -> Stamped
    ensures { result ≡ get_or places p no_label }
{
    answer::at_or(places, p, no_label())
}

// Past the last place nothing is put.
pub fn put_label(places: [Stamped; 16], p: usize, l: Stamped) -> [Stamped; 16]
    ensures { result ≡ set places p l }
{
    answer::put(places, p, l)
}

pub fn any_stands<const N: usize>(s: u32, places: [Stamped; N]) -> bool
    ensures { result ≡ some (stands s) places.entry }
{
    places.iter().any(|l| stands(*l, s))
}

// The laws of the places, as a promise of the crate.
pub fn lawful() -> bool
    ensures { (result ≡ true) × Laws }
{
    true
}
