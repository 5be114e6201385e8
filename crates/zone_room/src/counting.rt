ghost use Rattle.std.specs.Prelude.{◌≡◌};
ghost use Rattle.zone_limits.specs.Resources.{recounted};
ghost use Rattle.zone_room.specs.Using.{AreCounted, HasRoomFor};
ghost use Rattle.zone_room.specs.Rooms.{cell_use};

use zns_types::Geometry;
use zone_cell::ZoneCell;
use zone_limits::{Limits, Need, give_back, take};

/// The resources that a zone uses: an active resource, an open one, a random write area.
pub fn use_of(cell: &ZoneCell) -> Need
    ensures { result ≡ cell_use cell.now }
{
    let state = cell.state();
    Need {
        active: state.is_active(),
        opened: state.is_opened(),
        window: cell.has_window(),
    }
}

/// Updates the counts for a zone whose use changed.
pub fn recount(limits: &mut Limits, g: &Geometry, before: Need, after: Need)
    requires counted { AreCounted g.now.fields limits.old before }
    requires room { HasRoomFor g.now.fields limits.old before after }
    ensures { limits.new ≡ recounted before after limits.old }
{
    give_back(limits, before);
    take(limits, g, after);
}
