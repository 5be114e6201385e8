ghost use Rattle.std.specs.Prelude.{◌≡◌, ◌^◌, ◌<◌, ◌≤◌};
ghost use Rattle.zone_cell.specs.Cells.{IsOf};
ghost use Rattle.zone_cell.specs.Deeds.{IsBlocksFor, HasSmallOffset};
ghost use Rattle.solo_drive.specs.Written.{told_by, written_cell, written_ready};

use crate::ahead::{NOTHING, Ready, given_up};
use crate::placing::placed;
use drive_book::Outcome;
use drive_rules::{Aim, Deed};
use zns_types::Geometry;
use zone_cell::ZoneCell;
use zone_room::use_of;

// What a completed write reports besides its status: an Append returns the first of its blocks,
// which start at the pointer before it.
fn told(g: &Geometry, aim: Aim, pointer: u64) -> Outcome
    requires within { aim.zone < g.now.fields.zones }
    requires small { pointer ≤ 2 ^ 28 }
    ensures { result ≡ told_by g.now.fields aim.zone pointer aim.deed }
{
    match aim.deed {
        Deed::Append { .. } => placed(g.first(aim.zone) + pointer),
        _ => Outcome::done(),
    }
}

/// Writes to the cell of an opened zone, which needs no resource, unless a row of the zone refuses
/// it.
pub fn act_ahead(cell: &mut ZoneCell, g: &Geometry, aim: Aim, payload: &[u8]) -> Ready
    requires within { aim.zone < g.now.fields.zones }
    requires of { IsOf g.now.fields cell.old }
    requires offset { HasSmallOffset aim.deed }
    requires blocks { IsBlocksFor g.now.fields aim.deed payload.now }
    ensures cell { cell.new ≡ written_cell g.now.fields aim.deed payload.now cell.old }
    ensures ready { result ≡ written_ready g.now.fields aim payload.now cell.old }
{
    if let Err(code) = cell.check(g, aim.deed) {
        return Ready::of(Outcome::refused(code), NOTHING);
    }
    let before = use_of(cell);
    let outcome = told(g, aim, cell.pointer());
    cell.act(g, aim.deed, payload);
    Ready::of(outcome, given_up(before, use_of(cell)))
}
