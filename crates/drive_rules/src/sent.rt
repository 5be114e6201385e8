ghost use Rattle.std.specs.Prelude.{◌≡◌};
ghost use Rattle.drive_rules.specs.Aims.{sent_deed};

use crate::deed::Deed;

/// The deed that a Zone Management Send asks for, from the code of its action. `option` asks an
/// Open for a random write area, and `last` is the last block of a commit (Zoned Namespace Command
/// Set Specification 1.1, 3.4.3).
pub fn sent_deed(code: u8, option: bool, last: u64) -> Option<Deed>
    ensures { result ≡ sent_deed code option last }
{
    match code {
        0x01 => Some(Deed::Close),
        0x02 => Some(Deed::Finish),
        0x03 => Some(Deed::Open { window: option }),
        0x04 => Some(Deed::Reset),
        0x05 => Some(Deed::Offline),
        0x11 => Some(Deed::Commit { last }),
        _ => None,
    }
}
