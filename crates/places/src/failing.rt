// When the labels of a tuner fail.
ghost use Rattle.std.specs.Prelude.{not, ◌||◌, ◌≡◌};
ghost use Rattle.answer.specs.Lists.{some};
ghost use Rattle.places.specs.Places.{stands, is_timer_control, timer_control, labels_fail};

use crate::standing::stands;
use crate::{Stamped, any_stands};
use label::pil::Service;

fn is_timer_control(service: Service) -> bool
    ensures { result ≡ is_timer_control service }
{
    matches!(service, Service::TimerControl)
}

// 'Timer-control stands.' What the PIL says is asked only where a label stands.
#[tactic(auto, unfolding(crate::specs::Places::timer_control))]
fn timer_control(s: u32, l: Stamped) -> bool
    ensures { result ≡ timer_control s l }
{
    stands(l, s) && is_timer_control(label::pil::service_of(l.pil))
}

fn any_controls(s: u32, places: [Stamped; 4]) -> bool
    ensures { result ≡ some (timer_control s) places }
{
    places.iter().any(|l| timer_control(s, *l))
}

// At the four places of a tuner.
fn fail_at(s: u32, four: [Stamped; 4]) -> bool
    ensures { result ≡ (not (some (stands s) four) || some (timer_control s) four) }
{
    !any_stands(s, four) || any_controls(s, four)
}

// 'No label stands on any place of the home tuner, or timer-control stands on one.' A tuner that there is not has no label.
pub fn labels_fail(s: u32, places: [Stamped; 16], tuner: u8) -> bool
    ensures { result ≡ labels_fail s places tuner }
{
    if 3 < tuner {
        return true;
    }
    let p = tuner as usize * 4;
    fail_at(s, [places[p], places[p + 1], places[p + 2], places[p + 3]])
}
