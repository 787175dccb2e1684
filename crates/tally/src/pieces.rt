// A sheet fed piece by piece, and its tuners reported.
ghost use Rattle.std.specs.Prelude.{◌≡◌};
ghost use Rattle.items.specs.Pieces.{left_over};
ghost use Rattle.tally.specs.Pieces.{blank, after_piece, reported_by, out_after};

use crate::Tally;
use crate::counts::found_more;
use items::Split;
use report::Tuner;

impl Tally {
    pub fn new() -> Tally
        ensures { result ≡ blank }
    {
        let silence = Tuner {
            clean: 0,
            mended: 0,
            bytes: 0,
            refused: 0,
        };
        Tally {
            split: Split::new(),
            tuners: [silence; 4],
        }
    }

    // Every packet of a piece is counted.
    pub fn feed(self, piece: &[u8]) -> Tally
        ensures value { result ≡ after_piece piece.now self }
        ensures piece_value { piece.exit.now ≡ piece.entry.now }
    {
        let mut split = self.split;
        let mut tuners = self.tuners;
        let mut i: usize = 0;
        // No `for`: an item takes as many bytes as it has.
        while i < piece.len() {
            let taken = split.take(piece, i);
            split = taken.split;
            // By a name: an array that a call gives is laid in no variable that the call reads.
            let more = found_more(tuners, taken.found, split.held);
            tuners = more;
            i = taken.at;
        }
        Tally { split, tuners }
    }

    // Whether a byte is left over. Whatever follows, nothing is then counted, and `X` ends the report (law `settled`).
    pub fn left_over(self) -> bool
        ensures { result ≡ left_over self.split.stage }
    {
        self.split.left_over()
    }

    // The input's end, or what is told as ended though its end was not seen, prints the report, where it fits.
    #[tactic(auto, unfolding(crate::specs::Pieces::reported_by, crate::specs::Pieces::out_after, crate::specs::Pieces::end_told, report::specs::Room::length_in, report::specs::Room::stored_in))]
    pub fn report(self, ended: bool, out: &mut [u8]) -> usize
        ensures { (result ≡ reported_by ended out.old self) × (out.new ≡ out_after ended out.old self) }
    {
        report::report(self.tuners, self.split.whole(ended), out)
    }
}
