// What the next bytes of a sheet are, and what comes after them.
ghost use Rattle.std.specs.Prelude.{◌+◌, ◌≡◌, take};
ghost use Rattle.items.specs.Pieces.{need, timers_left, packets_left, stage_after, found_at, may_end, left_over};

use crate::{Found, Stage};
use answer::pair;

// The place, among the bytes held, of the next item's last byte.
pub(crate) fn last_place(stage: Stage) -> usize
    ensures { result + 1 ≡ need stage }
{
    match stage {
        Stage::TimerCount | Stage::Complete | Stage::LeftOver => 0,
        Stage::Timers(_) => 8,
        Stage::PacketCount => 1,
        Stage::Packets(_) => 46,
    }
}

fn timers_left(n: u32) -> Stage
    ensures { result ≡ timers_left n }
{
    if n == 0 {
        return Stage::PacketCount;
    }
    Stage::Timers(n)
}

fn packets_left(n: u32) -> Stage
    ensures { result ≡ packets_left n }
{
    if n == 0 {
        return Stage::Complete;
    }
    Stage::Packets(n)
}

// After none left, none is left, too.
pub(crate) fn stage_after(stage: Stage, held: [u8; 47]) -> Stage
    ensures { result ≡ stage_after stage (take (need stage) held) }
{
    match stage {
        Stage::TimerCount => timers_left(held[0] as u32),
        Stage::Timers(n) => timers_left(n.saturating_sub(1)),
        Stage::PacketCount => packets_left(pair(held[0], held[1]) as u32),
        Stage::Packets(n) => packets_left(n.saturating_sub(1)),
        Stage::Complete | Stage::LeftOver => Stage::LeftOver,
    }
}

pub(crate) fn found_at(stage: Stage) -> Found
    ensures { result ≡ found_at stage }
{
    match stage {
        Stage::Timers(_) => Found::Timer,
        Stage::Packets(_) => Found::Packet,
        _ => Found::Nothing,
    }
}

// 'Input that is short, a count included, or has a byte left over' may not end so.
pub(crate) fn may_end(stage: Stage) -> bool
    ensures { result ≡ may_end stage }
{
    matches!(stage, Stage::Complete)
}

pub(crate) fn is_left_over(stage: Stage) -> bool
    ensures { result ≡ left_over stage }
{
    matches!(stage, Stage::LeftOver)
}
