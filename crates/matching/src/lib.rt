// The match of a standing label with a timer, and what a timer sees at the places.
#![tactic(auto)]

ghost use Rattle.std.specs.Prelude.{true, ◌≡◌};
ghost use Rattle.matching.specs.Laws.{Laws};

pub mod seeing; // matches, and what a timer sees
pub mod windows; // a timer's window

// What a timer is: CNI, PIL and year, and 'a home tuner and a length of 1 to 1,440 minutes'. The wider fields come first, as in `Stamped`.
#[derive(Clone, Copy)]
pub struct Booking {
    pub pil: u32,
    pub cni: u16,
    pub length: u16,
    pub year: u8,
    pub tuner: u8,
}

// What a timer that is not live goes by: the lowest match with PRF 0, failing that the lowest match, which then has PRF 1.
#[derive(Clone, Copy)]
pub enum Sight {
    Nothing,
    Prepare(u8),
    Start(u8),
}

// The laws of the match, as a promise of the crate.
pub fn lawful() -> bool
    ensures { (result ≡ true) × Laws }
{
    true
}
