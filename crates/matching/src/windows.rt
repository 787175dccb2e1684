// A timer's window: whether it is open, and whether it has ended.
ghost use Rattle.std.specs.Prelude.{◌≡◌};
ghost use Rattle.matching.specs.Matching.{open_at, ended_at};

use crate::Booking;
use calendar::window_of;

// A booking that is not real has no window.
#[tactic(auto, unfolding(crate::specs::Matching::open_at))]
pub fn open_at(s: u32, b: Booking) -> bool
    ensures { result ≡ open_at s b }
{
    window_of(b.pil, b.year).is_some_and(|w| (w.opens <= s) & (s < w.closes))
}

// 'A window has ended when the clock has reached its close.'
#[tactic(auto, unfolding(crate::specs::Matching::ended_at))]
pub fn ended_at(s: u32, b: Booking) -> bool
    ensures { result ≡ ended_at s b }
{
    window_of(b.pil, b.year).is_none_or(|w| w.closes <= s)
}
