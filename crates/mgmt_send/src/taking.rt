ghost use Rattle.std.specs.Prelude.{◌≡◌, ◌≤◌, length};
ghost use Rattle.drive_rules.specs.Deeds.{takes_all};
ghost use Rattle.mgmt_send.specs.Sweeping.{closed_in};

use drive_rules::Deed;
use zns_types::State;
use zone_cell::ZoneCell;

/// Whether a deed to all zones applies to a zone in this state.
pub fn takes_all(deed: Deed, state: State) -> bool
    ensures { result ≡ takes_all deed state }
{
    match deed {
        Deed::Close => state.is_opened(),
        Deed::Finish => state.is_active(),
        Deed::Open { .. } => state.is_closed(),
        Deed::Reset => state.is_active() || state.is_full(),
        Deed::Offline => state.is_read_only(),
        _ => false,
    }
}

/// The number of Closed zones.
pub fn count_closed(cells: &[ZoneCell]) -> usize
    ensures exact { result ≡ closed_in cells.now }
    ensures few { result ≤ length cells.now }
{
    let mut count = 0;
    for i in 0..cells.len() {
        count += usize::from(cells[i].state().is_closed());
    }
    count
}
