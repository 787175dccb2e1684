// A programme identification label (PIL): twenty bits, of day, month, hour and minute.
ghost use Rattle.std.specs.Prelude.{◌≡◌};
ghost use Rattle.label.specs.Pil.{parts_of, service_at, service_of};

#[derive(Clone, Copy)]
pub struct Announced {
    pub day: u8,
    pub month: u8,
    pub hour: u8,
    pub minute: u8,
}

#[derive(Clone, Copy)]
pub enum Service {
    Programme,
    TimerControl,
    InhibitTerminate,
    Interruption,
    Continuation,
    NoSpecificValue,
}

pub fn parts(pil: u32) -> Announced
    ensures { result ≡ parts_of pil }
{
    Announced {
        day: (pil / 32768 % 32) as u8,
        month: (pil / 2048 % 16) as u8,
        hour: (pil / 64 % 32) as u8,
        minute: (pil % 64) as u8,
    }
}

// Among the PILs with day 0, month 15 and minute 63.
fn service_at(hour: u8) -> Service
    ensures { result ≡ service_at hour }
{
    match hour {
        28 => Service::Continuation,
        29 => Service::Interruption,
        30 => Service::InhibitTerminate,
        31 => Service::TimerControl,
        _ => Service::Programme,
    }
}

// What a PIL says of the programme; a number wider than twenty bits is no service code.
#[tactic(auto, unfolding(crate::specs::Pil::service_of))]
pub fn service_of(pil: u32) -> Service
    ensures { result ≡ service_of pil }
{
    if pil == 0xFFFFF {
        return Service::NoSpecificValue;
    }
    let p = parts(pil);
    if (pil < 1048576) & (p.day == 0) & (p.month == 15) & (p.minute == 63) {
        return service_at(p.hour);
    }
    Service::Programme
}
