ghost use Rattle.std.specs.Prelude.{◌≡◌, IsTrue, map};
ghost use Rattle.zone_limits.specs.Resources.{recounted};
ghost use Rattle.zone_cell.specs.Cells.{IsOf};
ghost use Rattle.zone_room.specs.Using.{AreCounted, HasRoomFor};
ghost use Rattle.zone_room.specs.Rooms.{cell_use};
ghost use Rattle.mgmt_send.specs.Sweeping.{AreAllZones, HasRoomToOpen, goes_to_all, swept_cell, sweep_refusal, swept_cells};

use crate::taking::{count_closed, takes_all};
use drive_rules::Deed;
use zns_types::{Code, Geometry};
use zone_cell::ZoneCell;
use zone_limits::Limits;
use zone_room::{recount, use_of};

// Does a deed to a zone whose state allows it, and updates the counts of zones in use.
fn sweep_one(cell: &mut ZoneCell, limits: &mut Limits, g: &Geometry, deed: Deed)
    requires sent { IsTrue (goes_to_all deed) }
    requires of { IsOf g.now.fields cell.old }
    requires counted { AreCounted g.now.fields limits.old (cell_use cell.old) }
    requires room { HasRoomFor
        g.now.fields
        limits.old
        (cell_use cell.old)
        (cell_use (swept_cell g.now.fields deed cell.old)) }
    ensures cell { cell.new ≡ swept_cell g.now.fields deed cell.old }
    ensures limits { limits.new
        ≡ recounted
        (cell_use cell.old)
        (cell_use (swept_cell g.now.fields deed cell.old))
        limits.old }
    ensures of { IsOf g.now.fields cell.new }
{
    let before = use_of(cell);
    if takes_all(deed, cell.state()) {
        cell.act(g, deed, &[]);
    }
    recount(limits, g, before, use_of(cell));
}

// Does a deed to every zone whose state allows it. There is room for what it opens.
fn sweep_cells(cells: &mut [ZoneCell], limits: &mut Limits, g: &Geometry, deed: Deed)
    requires sent { IsTrue (goes_to_all deed) }
    requires zones { AreAllZones g.now.fields cells.old limits.old }
    requires room { HasRoomToOpen g.now.fields deed cells.old limits.old }
    ensures cells { cells.new ≡ map (swept_cell g.now.fields deed) cells.old }
    ensures zones { AreAllZones g.now.fields cells.new limits.new }
{
    for i in 0..cells.len() {
        sweep_one(&mut cells[i], limits, g, deed);
    }
}

// The row that refuses a deed to all zones: an Open of all Closed zones may not exceed the open
// limit.
fn check(cells: &[ZoneCell], limits: &Limits, g: &Geometry, deed: Deed) -> Option<Code>
    requires { AreAllZones g.now.fields cells.now limits.now }
    ensures { result ≡ sweep_refusal g.now.fields cells.now limits.now deed }
{
    let Deed::Open { .. } = deed else {
        return None;
    };
    let limit = g.fields().open_limit as usize;
    let opened = limits.opened as usize + count_closed(cells);
    (limit != 0 && opened > limit).then_some(Code::TOO_MANY_OPEN_ZONES)
}

/// Does a deed to every zone whose state allows it, and updates the counts: a Zone Management Send
/// with Select All. An Open that would open too many zones is refused, and nothing changes.
pub fn sweep(cells: &mut [ZoneCell], limits: &mut Limits, g: &Geometry, deed: Deed) -> Option<Code>
    requires sent { IsTrue (goes_to_all deed) }
    requires zones { AreAllZones g.now.fields cells.old limits.old }
    ensures refusal { result ≡ sweep_refusal g.now.fields cells.old limits.old deed }
    ensures cells { cells.new ≡ swept_cells g.now.fields cells.old limits.old deed }
    ensures zones { AreAllZones g.now.fields cells.new limits.new }
{
    if let Some(code) = check(cells, limits, g, deed) {
        return Some(code);
    }
    sweep_cells(cells, limits, g, deed);
    None
}
