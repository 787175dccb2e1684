// The PIL of a programme: with it, and a CNI and a year from the operator, it can be added as a timer.
ghost use Rattle.std.specs.Prelude.{◌≡◌};
ghost use Rattle.programmes.specs.Timer.{pil_of};

use crate::Programme;

// None where a number is wider than its bits, which would spill into another PIL.
#[tactic(auto, unfolding(crate::specs::Timer::pil_of))]
pub fn pil_of(q: Programme) -> Option<u32>
    ensures { result ≡ pil_of q }
{
    if (31 < q.day) | ((15 < q.month) | ((31 < q.hour) | (63 < q.minute))) {
        return None;
    }
    let date = q.day as u32 * 16 + q.month as u32;
    let time = q.hour as u32 * 64 + q.minute as u32;
    Some(date * 2048 + time)
}
