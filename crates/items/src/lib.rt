// A sheet's bytes split into its timers and packets, however they arrive in pieces.
#![tactic(auto)]

mod length; // how much of the input decides something
mod pieces; // bytes taken up to the end of an item
mod stages; // what the next bytes are

ghost use Rattle.std.specs.Prelude.{true, ◌≡◌};
ghost use Rattle.items.specs.Laws.{Laws};

pub use length::{deciding, still_deciding};

// What the next bytes are; of timers and packets, how many are left.
#[derive(Clone, Copy)]
pub enum Stage {
    TimerCount,
    Timers(u32),
    PacketCount,
    Packets(u32),
    Complete,
    LeftOver,
}

// A sheet as far as it has been split: the stage, and the bytes of an item that is not whole yet.
#[derive(Clone, Copy)]
pub struct Split {
    pub stage: Stage,
    pub have: usize,
    pub held: [u8; 47],
}

// Which item is whole with the bytes taken: its bytes are the first of those held.
#[derive(Clone, Copy)]
pub enum Found {
    Nothing,
    Timer,
    Packet,
}

// What is held after some bytes, the place after them, and what was found.
#[derive(Clone, Copy)]
pub struct Taken {
    pub split: Split,
    pub at: usize,
    pub found: Found,
}

// The laws of a sheet's items, as a promise of the crate.
pub fn lawful() -> bool
    ensures { (result ≡ true) × Laws }
{
    true
}
