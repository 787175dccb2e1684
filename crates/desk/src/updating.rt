// Label updates: packets with LUF 1.
ghost use Rattle.std.specs.Prelude.{◌≡◌};
ghost use Rattle.moving.specs.Moving.{repeats, moves};
ghost use Rattle.desk.specs.Calls.{updated, updating_at, updating};
ghost use Rattle.reply.specs.Numbers.{told, packet_refusal};

use crate::Desk;
use crate::hearing::place_of;
use label::Label;
use matching::Booking;
use moving::Verdict;
use moving::judging::judge;
use moving::moves::moved_in;
use places::label_at;
use reply::PacketRefusal;

impl Desk {
    // 'That timer takes the new CNI and PIL.'
    fn moved(self, slot: usize, b: Booking) -> Desk
        ensures { result ≡ updated (moves slot b) self }
    {
        Desk {
            timers: moved_in(self.clock, slot, b, self.timers),
            ..self
        }
    }

    // A repeat 'is accepted and only moves the clock'.
    #[tactic(auto, unfolding(crate::specs::Calls::updating_at))]
    fn repeat(self, time: u32) -> Desk
        ensures { result ≡ updating_at time repeats self }
    {
        self.pass(time).desk.moment()
    }

    // 'The place's label stays, and a recording under the old one leaves by the ordinary rule', at the moment that ends the call.
    #[tactic(auto, unfolding(crate::specs::Calls::updating_at))]
    fn take(self, time: u32, slot: usize, b: Booking) -> Desk
        ensures { result ≡ updating_at time (moves slot b) self }
    {
        self.pass(time).desk.moved(slot, b).moment()
    }

    // 7, 11 and 12 are judged before any second passes: refused, 'the clock stays'.
    #[tactic(auto, unfolding(crate::specs::Calls::updating))]
    pub(crate) fn update(self, tuner: u8, time: u32, l: Label) -> Result<Desk, PacketRefusal>
        ensures { told packet_refusal result ≡ updating tuner time l self }
    {
        let old = label_at(self.places, place_of(tuner, l));
        match judge(time, old, l, self.timers) {
            Verdict::NoMatch => Err(PacketRefusal::Update),
            Verdict::NotReal => Err(PacketRefusal::NotReal),
            Verdict::Ended => Err(PacketRefusal::Ended),
            Verdict::Repeats => Ok(self.repeat(time)),
            Verdict::Moves { slot, booking } => Ok(self.take(time, slot, booking)),
        }
    }
}
