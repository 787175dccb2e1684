// Packets: refused, read, and heard.
ghost use Rattle.std.specs.Prelude.{◌≡◌};
ghost use Rattle.answer.specs.Answer.{first_of, number, after};
ghost use Rattle.desk.specs.Calls.{place_of, tuner_rows, with_label, hearing_at, obeying, packet_of};
ghost use Rattle.reply.specs.Numbers.{told, packet_refusal, packet_number};

use crate::{Desk, Said};
use label::Label;
use places::standing::heard_at;
use places::{label_at, put_label};
use reply::PacketRefusal;

// 'Sixteen places, a tuner 0 to 3 with an LCI 0 to 3, ordered by tuner, then LCI.'
pub(crate) fn place_of(tuner: u8, l: Label) -> usize
    ensures { result ≡ place_of tuner l }
{
    usize::from(tuner) * 4 + usize::from(l.lci)
}

impl Desk {
    fn with_label(self, tuner: u8, l: Label) -> Desk
        ensures { result ≡ with_label tuner l self }
    {
        let p = place_of(tuner, l);
        let new = heard_at(self.clock, l, label_at(self.places, p));
        Desk {
            places: put_label(self.places, p, new),
            ..self
        }
    }

    // 'First passes every second up to t, then takes effect.'
    #[tactic(auto, unfolding(crate::specs::Calls::hearing_at))]
    fn hearing_at(self, tuner: u8, time: u32, l: Label) -> Desk
        ensures { result ≡ hearing_at tuner time l self }
    {
        self.pass(time).desk.with_label(tuner, l).moment()
    }

    // Refusals 8, 9 and 10, in this order.
    fn barred(self, tuner: u8, time: u32) -> Result<(), PacketRefusal>
        ensures { told packet_refusal result ≡ first_of (tuner_rows self tuner time) tt }
    {
        if 3 < tuner {
            return Err(PacketRefusal::Tuner);
        }
        self.timely(time)?;
        Ok(())
    }

    // A label update, or the label takes effect.
    #[tactic(auto, unfolding(crate::specs::Calls::obeying))]
    fn obey(self, tuner: u8, time: u32, l: Label) -> Result<Desk, PacketRefusal>
        ensures { told packet_refusal result ≡ obeying tuner time l self }
    {
        if l.luf != 0 {
            return self.update(tuner, time, l);
        }
        Ok(self.hearing_at(tuner, time, l))
    }

    // The desk that a packet leaves: refusals 8, 9 and 10, those of the reader, then 7, 11 and 12.
    fn heard(self, tuner: u8, time: u32, bytes: &[u8]) -> Result<Desk, PacketRefusal>
        ensures answer_value { told packet_refusal result ≡ packet_of tuner time bytes.now self }
        ensures bytes_value { bytes.exit.now ≡ bytes.entry.now }
    {
        self.barred(tuner, time)?;
        let got = reader::read(bytes).map_err(PacketRefusal::Unread)?;
        self.obey(tuner, time, got.label)
    }

    // 'Packet: 8, 9, 10, 1 to 7', then 11 and 12.
    pub fn packet(self, tuner: u8, time: u32, bytes: &[u8]) -> Said<(), PacketRefusal>
        ensures answer_value { (packet_number result.answer ≡ number (packet_of tuner time bytes.now self))
            × (result.desk ≡ after self (packet_of tuner time bytes.now self)) }
        ensures bytes_value { bytes.exit.now ≡ bytes.entry.now }
    {
        match self.heard(tuner, time, bytes) {
            Ok(desk) => Said {
                answer: Ok(()),
                desk,
            },
            Err(r) => self.refuse(r),
        }
    }
}
