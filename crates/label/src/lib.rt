// Packet 8/30 format 2 of EN 300 231, and the label that it carries.
#![tactic(auto)]

ghost use Rattle.std.specs.Prelude.{◌≡◌, true};
ghost use Rattle.label.specs.Laws.{Laws};
ghost use Rattle.label.specs.Packet.{refusal_number, write_refusal_number, written_number};

pub mod nibble; // its bits in the order in which they are sent
pub mod pil; // the parts of a PIL, and the service codes

#[derive(Clone, Copy)]
pub struct Label {
    pub designation: u8,
    pub lci: u8,
    pub luf: u8,
    pub prf: u8,
    pub pcs: u8,
    pub mi: u8,
    pub spare: u8,
    pub cni: u16,
    pub pil: u32,
    pub pty: u8,
}

// Why a packet is not read: refusals 1 to 6.
#[derive(Clone, Copy, PartialEq, Eq)]
pub enum Refusal {
    Length,
    AddressDamaged,
    OtherPacket,
    DesignationDamaged,
    OtherDesignation,
    LabelDamaged,
}

impl Refusal {
    // The paper's number.
    pub fn number(self) -> u8
        ensures { result ≡ refusal_number self }
    {
        match self {
            Refusal::Length => 1,
            Refusal::AddressDamaged => 2,
            Refusal::OtherPacket => 3,
            Refusal::DesignationDamaged => 4,
            Refusal::OtherDesignation => 5,
            Refusal::LabelDamaged => 6,
        }
    }
}

// A label, and how many of its packet's sixteen bytes were mended.
#[derive(Clone, Copy)]
pub struct Received {
    pub label: Label,
    pub mended: u8,
}

// Why a label is not written: refusals 1 and 16.
#[derive(Clone, Copy, PartialEq, Eq)]
pub enum WriteRefusal {
    WrongLength,
    TooWide,
}

impl WriteRefusal {
    // The paper's number.
    pub fn number(self) -> u8
        ensures { result ≡ write_refusal_number self }
    {
        match self {
            WriteRefusal::WrongLength => 1,
            WriteRefusal::TooWide => 16,
        }
    }
}

// The paper's number of what became of a label to be written, or 0.
pub fn written_number(written: Result<(), WriteRefusal>) -> u8
    ensures { result ≡ written_number written }
{
    match written {
        Ok(()) => 0,
        Err(refusal) => refusal.number(),
    }
}

// The laws of packet and PIL, as a promise of the crate.
pub fn lawful() -> bool
    ensures { (result ≡ true) × Laws }
{
    true
}
