ghost use Rattle.std.specs.Prelude.{IsTrue};
ghost use Rattle.mgmt_send.specs.Sweeping.{AreAllZones, goes_to_all};
ghost use Rattle.solo_drive.specs.Sweeping.{SweepServed};

use drive_book::{Book, Outcome};
use drive_rules::Deed;
use mgmt_send::sweep;
use zns_types::Geometry;
use zone_cell::ZoneCell;

/// Serves a deed to every zone whose state allows it. `cells` are those of all zones.
pub fn serve_sweep(cells: &mut [ZoneCell], book: &mut Book, g: &Geometry, deed: Deed) -> Outcome
    requires sent { IsTrue (goes_to_all deed) }
    requires zones { AreAllZones g.now.fields cells.old book.old.limits }
    ensures { SweepServed g.now.fields deed cells.old cells.new book.old book.new result }
{
    match sweep(cells, &mut book.limits, g, deed) {
        Some(code) => Outcome::refused(code),
        None => Outcome::done(),
    }
}
