// Bytes taken up to the end of an item.
ghost use Rattle.std.specs.Prelude.{◌≡◌, drop};
ghost use Rattle.items.specs.Pieces.{unsplit, taken_from, whole_at, left_over};

use crate::stages::{found_at, is_left_over, last_place, may_end, stage_after};
use crate::{Found, Split, Stage, Taken};
use answer::put;

impl Split {
    pub fn new() -> Split
        ensures { result ≡ unsplit }
    {
        Split {
            stage: Stage::TimerCount,
            have: 0, // nothing has arrived
            held: [0; 47],
        }
    }

    // The bytes of a piece from a place on, up to the end of the next item, or all of them.
    pub fn take(self, piece: &[u8], from: usize) -> Taken
        ensures value { result ≡ taken_from (drop from piece.now) from self }
        ensures piece_value { piece.exit.now ≡ piece.entry.now }
    {
        let last = last_place(self.stage);
        let mut have = self.have;
        let mut held = self.held;
        let mut at = from;
        // By its place, and no `for`: the place is answered, and may lie past the piece already.
        while let Some(&b) = piece.get(at) {
            at += 1;
            if last <= have {
                // A byte past the last place is not held: no sheet that is split from the start comes to that.
                let item = put(held, have, b);
                let split = Split {
                    stage: stage_after(self.stage, item),
                    have: 0,
                    held: item,
                };
                return Taken {
                    split,
                    at,
                    found: found_at(self.stage),
                };
            }
            held[have] = b;
            have += 1;
        }
        Taken {
            split: Split { have, held, ..self },
            at,
            found: Found::Nothing,
        }
    }

    // 'Input that is short, a count included, or has a byte left over' is not whole. Where its end was not seen, it is short.
    pub fn whole(self, ended: bool) -> bool
        ensures { result ≡ whole_at ended self }
    {
        ended && may_end(self.stage)
    }

    // Whether a byte is left over. Whatever follows, the input is then not whole and holds no item more (law `settled`).
    pub fn left_over(self) -> bool
        ensures { result ≡ left_over self.stage }
    {
        is_left_over(self.stage)
    }
}
