ghost use Rattle.std.specs.Prelude.{◌≡◌, ◌^◌, ◌<◌};
ghost use Rattle.solo_drive.specs.Telling.{placed_outcome};

use drive_book::Outcome;

// A block's number is returned in two halves, the low one first.
const HALF: u64 = 1 << 32;

/// The success of an Append, which returns the first of its blocks.
pub fn placed(lba: u64) -> Outcome
    ensures { result ≡ placed_outcome lba }
{
    Outcome {
        dw0: (lba % HALF) as u32,
        dw1: (lba / HALF) as u32,
        ..Outcome::done()
    }
}
