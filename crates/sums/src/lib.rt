// What a format's figures add to the page's sum.
#![tactic(auto)]

ghost use Rattle.std.specs.Prelude.{true, ◌≡◌, ◌≤◌, length, map};
ghost use Rattle.codes.specs.Codes.{figure};
ghost use Rattle.formats.specs.Formats.{pattern, figures_by};
ghost use Rattle.formats.specs.Taken.{own_codes};
ghost use Rattle.sums.specs.Counted.{sum_of, counted};
ghost use Rattle.sums.specs.Laws.{Laws};

use codes::figure;
use formats::Kind;

// The figures that some of a format's codes show.
#[tactic(auto, using(codes::proofs::Facts::figure_small))]
fn added(shown: &[u8]) -> u8
    requires { length shown.now ≤ 11 }
    ensures { result ≡ sum_of (map figure shown.now) }
{
    let mut sum = 0;
    for c in shown {
        sum += figure(*c);
    }
    sum
}

// 'The numerical figures occurring in all the .. data'; a protection word's own are not among them.
#[tactic(auto, using(formats::proofs::Facts::eleven), unfolding(crate::specs::Counted::counted))]
pub fn sum_of(kind: Kind, c: [u8; 11]) -> u8
    ensures { result ≡ counted kind (figures_by (pattern kind) (own_codes kind c)) }
{
    let [c0, c1, c2, c3, c4, c5, c6, c7, c8, c9, c10] = c;
    match kind {
        Kind::Text | Kind::Word => 0,
        Kind::Single => added(&[c0, c1, c3, c4]),
        Kind::Double => added(&[c0, c1, c3, c4, c6, c7, c9, c10]),
        Kind::Original => added(&[c0, c1, c2, c3]),
        Kind::Date => added(&[c0, c1, c2, c3, c4, c5]),
        Kind::Network => added(&[c0, c1, c2, c3, c4]),
        Kind::Offset | Kind::Pty => added(&[c0, c1, c2]),
    }
}

// The laws of the sum, as a promise of the crate.
pub fn lawful() -> bool
    ensures { (result ≡ true) × Laws }
{
    true
}
