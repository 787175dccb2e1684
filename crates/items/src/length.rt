// How much of the input decides something.
ghost use Rattle.std.specs.Prelude.{◌+◌, ◌≡◌};
ghost use Rattle.items.specs.Pieces.{longest_sheet, deciding_after};

// The bytes of the longest sheet: a count, 255 timers, a count and 65,535 packets.
const LONGEST: usize = 1 + 255 * 9 + 2 + 65535 * 47;

// So many bytes decide what a sheet holds: after them one is left over (law `longest_sheet_lem`), and then the rest decides nothing (law
// `settled`).
pub fn deciding() -> usize
    ensures { result ≡ longest_sheet + 1 }
{
    LONGEST + 1
}

// How many bytes may still decide something after a read: none where it gave none, or once a byte is left over.
pub fn still_deciding(left: usize, got: usize, settled: bool) -> usize
    ensures { result ≡ deciding_after left got settled }
{
    if settled || got == 0 {
        return 0;
    }
    left.saturating_sub(got)
}
