// What each call of the desk replies, and the paper's number for it.
#![tactic(auto)]

ghost use Rattle.std.specs.Prelude.{true, ◌≡◌, ℕ};
ghost use Rattle.answer.specs.Answer.{number};
ghost use Rattle.reply.specs.Numbers.{told, packet_refusal, wait_refusal, add_refusal, no_timer_number, past_end_number, state_says};
ghost use Rattle.reply.specs.Laws.{Laws};

// Why a call is refused.
pub trait Refusal: Copy {
    ghost numbered: { Self → ℕ };

    // The paper's number.
    fn number(self) -> u8
        ensures { result ≡ numbered self };
}

// '0 or the refusal': of any call, whatever an accepted one gives.
pub fn number<T: Copy, R: Refusal>(answer: Result<T, R>) -> u8
    ensures { result ≡ number (told R.numbered answer) }
{
    match answer {
        Ok(_) => 0,
        Err(r) => r.number(),
    }
}

// Why a packet is not heard: refusals 8, 9, 10, those of the reader, 7, 11, 12.
#[derive(Clone, Copy)]
pub enum PacketRefusal {
    Tuner,
    Before,
    Past,
    Unread(label::Refusal),
    Update,
    NotReal,
    Ended,
}

impl Refusal for PacketRefusal {
    ghost numbered = { packet_refusal };

    fn number(self) -> u8 {
        match self {
            PacketRefusal::Tuner => 8,
            PacketRefusal::Before => 9,
            PacketRefusal::Past => 10,
            PacketRefusal::Unread(r) => r.number(),
            PacketRefusal::Update => 7,
            PacketRefusal::NotReal => 11,
            PacketRefusal::Ended => 12,
        }
    }
}

// Why nothing is waited for: refusals 9 and 10.
#[derive(Clone, Copy)]
pub enum WaitRefusal {
    Before,
    Past,
}

impl Refusal for WaitRefusal {
    ghost numbered = { wait_refusal };

    fn number(self) -> u8 {
        match self {
            WaitRefusal::Before => 9,
            WaitRefusal::Past => 10,
        }
    }
}

// A packet's time is refused as a wait's is.
impl From<WaitRefusal> for PacketRefusal {
    ghost from_gives = { λ w p. packet_refusal p ≡ wait_refusal w };

    fn from(w: WaitRefusal) -> PacketRefusal {
        match w {
            WaitRefusal::Before => PacketRefusal::Before,
            WaitRefusal::Past => PacketRefusal::Past,
        }
    }
}

// Why nothing is added: refusals 11, 17, 12, 13 and 14.
#[derive(Clone, Copy)]
pub enum AddRefusal {
    NotReal,
    OutOfRange,
    Ended,
    Held,
    Full,
}

impl Refusal for AddRefusal {
    ghost numbered = { add_refusal };

    fn number(self) -> u8 {
        match self {
            AddRefusal::NotReal => 11,
            AddRefusal::OutOfRange => 17,
            AddRefusal::Ended => 12,
            AddRefusal::Held => 13,
            AddRefusal::Full => 14,
        }
    }
}

// Why nothing is cancelled, or asked of a slot: 'slot above 15 or free', refusal 15.
#[derive(Clone, Copy)]
pub struct NoTimer;

impl Refusal for NoTimer {
    ghost numbered = { no_timer_number };

    fn number(self) -> u8 {
        15
    }
}

// Why no second passes: the clock's end, refusal 10.
#[derive(Clone, Copy)]
pub struct PastEnd;

impl Refusal for PastEnd {
    ghost numbered = { past_end_number };

    fn number(self) -> u8 {
        10
    }
}

// What asking a slot gives.
#[derive(Clone, Copy)]
pub enum State {
    Waiting,
    Prepared,
    Recording { place: u8 },
    RunningOn { place: u8 },
    Ended,
    ByTheClock,
}

impl State {
    // Its number in the paper's order, from 0: the five, and by the clock after them.
    pub fn number(self) -> u8
        ensures { result ≡ (state_says self).state }
    {
        match self {
            State::Waiting => 0,
            State::Prepared => 1,
            State::Recording { place: _ } => 2,
            State::RunningOn { place: _ } => 3,
            State::Ended => 4,
            State::ByTheClock => 5,
        }
    }
}

// The laws of these numbers, as a promise of the crate.
pub fn lawful() -> bool
    ensures { (result ≡ true) × Laws }
{
    true
}
