// The first bytes of an input collected, however they arrive in pieces.
#![tactic(auto)]

ghost use Rattle.std.specs.Prelude.{ℕ, ◌-◌, true, ◌≡◌, ◌==◌, List, length};
ghost use Rattle.held.specs.Held.{blank, after_piece, is_full};
ghost use Rattle.held.specs.Laws.{Laws};

use answer::least;

// An input as far as it has arrived: its first bytes, as many as decide anything, and how many there are.
#[derive(Clone, Copy)]
pub struct Held<const N: usize> {
    pub length: usize,
    pub bytes: [u8; N],
}

impl<const N: usize> Held<N> {
    #[tactic(auto, unfolding(crate::specs::Held::blank))]
    pub fn new() -> Held<N>
        ensures { result ≡ blank N }
    {
        Held {
            length: 0,
            bytes: [0; N],
        }
    }

    // As many bytes of a piece as find room are kept.
    pub fn feed(self, piece: &[u8]) -> Held<N>
        ensures value { result ≡ after_piece N piece.now self.entry }
        ensures piece_value { piece.exit.now ≡ piece.entry.now }
    {
        let start = least(self.length, N);
        let more = least(N - start, piece.len());
        let mut bytes = self.bytes;
        let room = &mut bytes[..];
        room[start..start + more].copy_from_slice(&piece[..more]);
        let length = start + more;
        Held { length, bytes }
    }

    // Whether no byte more decides anything (law `settled`).
    pub fn full(self) -> bool
        ensures { result ≡ is_full N self.entry }
    {
        N <= self.length
    }
}

// What is collected piece by piece, as long as bytes decide something.
pub trait Collecting: Copy {
    // how many bytes may still decide something
    ghost left: { Self → ℕ };

    // what is collected after a piece more
    ghost after: { List ℕ → Self → Self };

    fn fed(self, piece: &[u8]) -> Self
        ensures value { result ≡ after piece.now self }
        ensures less { left result ≡ left self - length piece.now }
        ensures piece_value { piece.exit.now ≡ piece.entry.now };

    fn is_full(self) -> bool
        ensures { result ≡ (left self == 0) };
}

// The laws of an input as it is collected, as a promise of the crate.
pub fn lawful() -> bool
    ensures { (result ≡ true) × Laws }
{
    true
}
