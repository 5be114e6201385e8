ghost use Rattle.std.specs.Prelude.{◌≡◌};
ghost use Rattle.drive_rules.specs.Deeds.{Admits};
ghost use Rattle.zone_cell.specs.Cells.{IsOf, sight};
ghost use Rattle.zone_cell.specs.Deeds.{after_deed, IsBlocksFor};

use crate::cell::ZoneCell;
use crate::states::action_of;
use drive_rules::Deed;
use zns_types::Geometry;
use zone_state::Action;

impl ZoneCell {
    /// Does a deed that no row of the zone refuses, with the host data of its command.
    pub fn act(&mut self, g: &Geometry, deed: Deed, payload: &[u8])
        requires of { IsOf g.now.fields self.old }
        requires admitted { Admits g.now.fields (sight self.old) deed }
        requires blocks { IsBlocksFor g.now.fields deed payload.now }
        ensures done { self.new ≡ after_deed g.now.fields deed payload.now self.old }
        ensures of { IsOf g.now.fields self.new }
    {
        match deed {
            Deed::Write { from, .. } => self.put(g, from, payload),
            Deed::Append { .. } => {
                self.append(g, payload);
            }
            Deed::Open { window } => self.turn(g, Action::Open, window),
            Deed::Commit { last } => self.commit(g, last),
            _ => self.turn(g, action_of(deed), false),
        }
    }
}
