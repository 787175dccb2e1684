// A sheet, fed piece by piece, and closed.
ghost use Rattle.std.specs.Prelude.{◌+◌, ◌*◌, ◌≤◌, ◌≡◌, ◌∷◌, [], ◌++◌, leb, length};
ghost use Rattle.std.proofs.lemmas.List.Edits.{sets};
ghost use Rattle.desk.specs.declared.Desk.{Desk};
ghost use Rattle.answer.specs.Text.{space, line_feed};
ghost use Rattle.items.specs.Pieces.{left_over};
ghost use Rattle.sheet.specs.Sheet.{decimal, last_line};
ghost use Rattle.sheet.specs.Pieces.{after_piece, piece_told, blank, longest, fed_by, out_after, closed_by, out_closed};

use crate::acts::act;
use crate::lines::last_line;
use crate::{Fed, Sheet};
use desk::Desk;
use items::Split;

// Whether what n bytes print surely fits from place at on, where there are room places. No sum here can wrap.
fn has_room(room: usize, at: usize, n: usize) -> bool
    ensures { result ≡ leb (at + longest * n) room }
{
    if room < at {
        return false;
    }
    n <= (room - at) / 8
}

// 'Input that is short, a count included, or has a byte left over ends with `X live` in place of `Z live`.'
fn letter(whole: bool) -> u8
    ensures { (d : Desk) → last_line whole d ≡ result ∷ space ∷ decimal d.live ++ (line_feed ∷ []) }
{
    if whole {
        return b'Z';
    }
    b'X'
}

impl Sheet {
    pub fn new() -> Sheet
        ensures { result ≡ blank }
    {
        Sheet {
            desk: Desk::new(),
            split: Split::new(),
        }
    }

    // Every item of a piece that finds room.
    fn play(self, piece: &[u8], out: &mut [u8], at: usize) -> Fed
        requires { at + longest * length piece.now ≤ length out.old }
        ensures { (result ≡ record { sheet = after_piece piece.now self; at = at + length (piece_told piece.now self) })
            × (out.new ≡ sets out.old at (piece_told piece.now self)) }
    {
        let mut desk = self.desk;
        let mut split = self.split;
        let mut end = at;
        let mut i: usize = 0;
        // No `for`: an item takes as many bytes as it has.
        while i < piece.len() {
            let taken = split.take(piece, i);
            split = taken.split;
            let left = act(desk, taken.found, split.held, out, end);
            desk = left.desk;
            end = left.at;
            i = taken.at;
        }
        Fed {
            sheet: Sheet { desk, split },
            at: end,
        }
    }

    // A piece is taken where what it prints surely fits; else nothing changes.
    #[tactic(auto, unfolding(crate::specs::Pieces::fed_by, crate::specs::Pieces::out_after))]
    pub fn feed(self, piece: &[u8], out: &mut [u8], at: usize) -> Option<Fed>
        ensures value { (result ≡ fed_by piece.now out.old at self)
            × (out.new ≡ out_after piece.now out.old at self) }
        ensures piece_value { piece.exit.now ≡ piece.entry.now }
    {
        if has_room(out.len(), at, piece.len()) {
            return Some(self.play(piece, out, at));
        }
        None
    }

    // Whether a byte is left over. Whatever follows, `X live` is then the one line more (law `settled`).
    pub fn left_over(self) -> bool
        ensures { result ≡ left_over self.split.stage }
    {
        self.split.left_over()
    }

    // The input's end, or what is told as ended though its end was not seen, prints the last line, where it fits.
    pub fn close(self, ended: bool, out: &mut [u8], at: usize) -> Option<usize>
        ensures { (result ≡ closed_by ended out.old at self) × (out.new ≡ out_closed ended out.old at self) }
    {
        if has_room(out.len(), at, 1) {
            let letter = letter(self.split.whole(ended));
            return Some(last_line(out, at, letter, self.desk.live()));
        }
        None
    }
}
