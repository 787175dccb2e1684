// Match: whose label stands where, and what a timer sees. The second and the places are two parameters, as in `rule`.
ghost use Rattle.std.specs.Prelude.{eqb, cond, position, Some, ◌≡◌};
ghost use Rattle.matching.specs.Matching.{open_at, matches, sight_of};
ghost use Rattle.matching.specs.Look.{named, look_of};

use crate::windows::open_at;
use crate::{Booking, Sight};
use places::Stamped;
use places::standing::stands;

// A standing label of the timer's programme, whether or not its window is open. The PIL is compared first: it tells most labels apart.
#[tactic(auto, unfolding(crate::specs::Look::named))]
fn named(s: u32, b: Booking, l: Stamped) -> bool
    ensures { result ≡ named s b l }
{
    l.pil == b.pil && stands(l, s) & (l.cni == b.cni)
}

// The window is computed only where the label stands and is that of the programme.
pub fn matches(s: u32, b: Booking, l: Stamped) -> bool
    ensures { result ≡ matches s b l }
{
    named(s, b, l) && open_at(s, b)
}

// The lowest place with a PIL, whether or not its label stands.
fn first_with(places: [Stamped; 16], pil: u32) -> Option<usize>
    ensures { result ≡ position (λ l. eqb l.pil pil) places }
{
    places.iter().position(|l| l.pil == pil)
}

// One look at the places from the first with the PIL on, as if the window were open; a label with PRF 0 ends it, since no other can come before it.
// By a `for`: a loop that begins at a place found at run time is not unrolled (docs/PERFORMANCE.md).
fn look(s: u32, places: [Stamped; 16], b: Booking, from: usize) -> Sight
    requires { Some from ≡ position (λ l. eqb l.pil b.pil) places }
    ensures { result ≡ look_of s places b }
{
    let mut first = None;
    for i in from..16 {
        let l = places[i];
        if named(s, b, l) {
            if !l.prf {
                return Sight::Start(i as u8);
            }
            first = first.or(Some(i as u8));
        }
    }
    first.map_or(Sight::Nothing, Sight::Prepare)
}

fn if_open(s: u32, b: Booking, seen: Sight) -> Sight
    ensures { result ≡ cond (open_at s b) seen Sight.Nothing }
{
    if open_at(s, b) { seen } else { Sight::Nothing }
}

// The labels of a programme share its window, so it is computed once, and only where one of them stands. Most timers have no label of theirs at
// any place, which the PILs alone tell.
pub fn sight_of(s: u32, places: [Stamped; 16], b: Booking) -> Sight
    ensures { result ≡ sight_of s places b }
{
    let Some(from) = first_with(places, b.pil) else {
        return Sight::Nothing;
    };
    match look(s, places, b, from) {
        Sight::Nothing => Sight::Nothing,
        seen => if_open(s, b, seen),
    }
}
