// Asking: it changes nothing.
ghost use Rattle.std.specs.Prelude.{◌≡◌};
ghost use Rattle.desk.specs.Calls.{copy_says, ask_of};
ghost use Rattle.reply.specs.Numbers.{state_says, ask_answer};

use crate::Desk;
use matching::windows::ended_at;
use reply::{NoTimer, State};
use rule::Copy;

fn state_of(c: Copy) -> State
    ensures { state_says result ≡ copy_says c }
{
    match c {
        Copy::Free | Copy::Waiting => State::Waiting,
        Copy::Prepared { since: _ } => State::Prepared,
        Copy::Recording { place, mi: _ } => State::Recording { place },
        Copy::RunningOn { place, since: _ } => State::RunningOn { place },
        Copy::ByTheClock => State::ByTheClock,
    }
}

impl Desk {
    // 'Asking a slot gives waiting, prepared, recording with place, running on with place, or ended', or 'by the clock'.
    #[tactic(auto, unfolding(crate::specs::Calls::ask_of))]
    pub fn ask(self, slot: usize) -> Result<State, NoTimer>
        ensures { ask_answer result ≡ ask_of slot self }
    {
        let t = self.timer(slot)?;
        if ended_at(self.clock, t.booking) {
            return Ok(State::Ended);
        }
        Ok(state_of(t.copy))
    }

    // 'The count of live timers', as the desk keeps it.
    pub fn live(self) -> u32
        ensures { result ≡ self.live }
    {
        self.live
    }
}
