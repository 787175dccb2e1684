// Standing: what a place holds after a label, and for how long.
ghost use Rattle.std.specs.Prelude.{◌≡◌};
ghost use Rattle.places.specs.Places.{no_label, stands, stamped, renewed, is_continuation, heard_at};

use crate::Stamped;
use label::Label;
use label::pil::Service;

// 'A label stands at second s if s - stamp ≤ 5.'
const STAND_FOR: u64 = 5;

pub fn no_label() -> Stamped
    ensures { result ≡ no_label }
{
    Stamped {
        stamp: 0,
        pil: 0,
        cni: 0,
        heard: false,
        prf: false,
        mi: false,
    }
}

// The stamp's side has the sum, in 64 bits, so that nothing wraps and no difference falls below 0.
pub fn stands(l: Stamped, s: u32) -> bool
    ensures { result ≡ stands s l }
{
    l.heard & (s as u64 <= l.stamp as u64 + STAND_FOR)
}

// 'An accepted packet at second t puts its label at its place, stamped t.'
fn stamped(t: u32, l: Label) -> Stamped
    ensures { result ≡ stamped t l }
{
    Stamped {
        stamp: t,
        pil: l.pil,
        cni: l.cni,
        heard: true,
        prf: l.prf != 0,
        mi: l.mi != 0,
    }
}

// 'It sets the stamp of a label that stands there to t and does nothing to an empty or lapsed place.'
fn renewed(t: u32, old: Stamped) -> Stamped
    ensures { result ≡ renewed t old }
{
    if stands(old, t) {
        return Stamped { stamp: t, ..old };
    }
    old
}

fn is_continuation(service: Service) -> bool
    ensures { result ≡ is_continuation service }
{
    matches!(service, Service::Continuation)
}

// 'A continuation code puts no label.' 'Other service codes and no-specific-value stand as labels.'
#[tactic(auto, unfolding(crate::specs::Places::heard_at))]
pub fn heard_at(t: u32, l: Label, old: Stamped) -> Stamped
    ensures { result ≡ heard_at t l old }
{
    if is_continuation(label::pil::service_of(l.pil)) {
        return renewed(t, old);
    }
    stamped(t, l)
}
