// When the labels fail: the seconds at which a timer is recorded by the clock.
#![tactic(auto)]

ghost use Rattle.std.specs.Prelude.{true, ◌≡◌};
ghost use Rattle.clocked.specs.Clocked.{out_of_range, in_length, on_time};
ghost use Rattle.clocked.specs.Laws.{Laws};

use calendar::announced_of;
use matching::Booking;
use matching::windows::open_at;

const MINUTE: u64 = 60;

// 'A home tuner and a length of 1 to 1,440 minutes.'
#[tactic(auto, unfolding(crate::specs::Clocked::out_of_range))]
pub fn out_of_range(b: Booking) -> bool
    ensures { result ≡ out_of_range b }
{
    (3 < b.tuner) | (b.length == 0) | (1440 < b.length)
}

// 'From its announced second until its length has passed.'
fn in_length(s: u32, b: Booking) -> bool
    ensures { result ≡ in_length s b }
{
    let begins = announced_of(b.pil, b.year);
    let now = s as u64;
    begins <= now && now - begins < MINUTE * b.length as u64
}

// 'Inside its window.' Most timers' days are others, which their announced second tells: the window is computed for the rest alone.
#[tactic(auto, unfolding(crate::specs::Clocked::on_time))]
pub fn on_time(s: u32, b: Booking) -> bool
    ensures { result ≡ on_time s b }
{
    in_length(s, b) && open_at(s, b)
}

// The laws of the clock's own seconds, as a promise of the crate.
pub fn lawful() -> bool
    ensures { (result ≡ true) × Laws }
{
    true
}
