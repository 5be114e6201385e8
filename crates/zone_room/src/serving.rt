ghost use Rattle.std.specs.Prelude.{◌≡◌, ◌<◌, All, length};
ghost use Rattle.drive_rules.specs.Deeds.{Admits, need_for};
ghost use Rattle.zone_cell.specs.Cells.{IsOf, sight};
ghost use Rattle.zone_cell.specs.Deeds.{after_deed, IsBlocksFor, HasSmallOffset};
ghost use Rattle.zone_room.specs.Using.{AreCounted, EachIsCounted, HasNeeded};
ghost use Rattle.zone_room.specs.Rooms.{cell_use, counts_changed};
ghost use Rattle.zone_room.specs.Verdicts.{verdict, cells_after, counts_after};

use crate::counting::{recount, use_of};
use crate::evicting::{close_at, victim};
use drive_rules::Deed;
use zns_types::{Code, Geometry};
use zone_cell::ZoneCell;
use zone_limits::{Limits, need, wants_room};

/// The result of a deed.
#[derive(Clone, Copy, Debug, PartialEq, Eq)]
pub enum Served {
    Done,
    Refused(Code),

    /// Another zone would have to give way, and not all zones were lent to find one.
    Widens,
}

// Does a deed that its zone admits, and updates the counts of zones in use.
fn change(cell: &mut ZoneCell, limits: &mut Limits, g: &Geometry, deed: Deed, payload: &[u8])
    requires of { IsOf g.now.fields cell.old }
    requires admitted { Admits g.now.fields (sight cell.old) deed }
    requires blocks { IsBlocksFor g.now.fields deed payload.now }
    requires counted { AreCounted g.now.fields limits.old (cell_use cell.old) }
    requires needed { HasNeeded g.now.fields limits.old (need_for deed (sight cell.old)) }
    ensures cell { cell.new ≡ after_deed g.now.fields deed payload.now cell.old }
    ensures limits { limits.new
        ≡ counts_changed cell.old (after_deed g.now.fields deed payload.now cell.old) limits.old }
    ensures of { IsOf g.now.fields cell.new }
{
    let before = use_of(cell);
    cell.act(g, deed, payload);
    recount(limits, g, before, use_of(cell));
}

/// Does a deed to the zone at a place among the lent cells, with the host data of its command:
/// judges it by the rows of the zone and by the resources it needs, closes the zone that gives way,
/// acts, and updates the counts. Returns `Widens` if another zone would have to give way and the
/// cells aren't `all` zones. Then, and after a refusal, nothing has changed.
pub fn serve_deed(
    cells: &mut [ZoneCell],
    limits: &mut Limits,
    g: &Geometry,
    place: usize,
    all: bool,
    deed: Deed,
    payload: &[u8],
) -> Served
    requires place { place < length cells.old }
    requires of { All (IsOf g.now.fields) cells.old }
    requires counted { EachIsCounted g.now.fields limits.old cells.old }
    requires offset { HasSmallOffset deed }
    requires blocks { IsBlocksFor g.now.fields deed payload.now }
    ensures verdict { result ≡ verdict g.now.fields cells.old limits.old place all deed }
    ensures cells { cells.new
        ≡ cells_after g.now.fields cells.old limits.old place all deed payload.now }
    ensures counts { limits.new
        ≡ counts_after g.now.fields cells.old limits.old place all deed payload.now }
    ensures of { All (IsOf g.now.fields) cells.new }
{
    let needed = match cells[place].check(g, deed) {
        Ok(needed) => needed,
        Err(code) => return Served::Refused(code),
    };
    let wants = wants_room(limits, g, needed);
    if wants && !all {
        return Served::Widens;
    }
    let victim = victim(cells, place, wants);
    if let Err(code) = need(limits, g, needed, victim.is_some()) {
        return Served::Refused(code);
    }
    close_at(cells, limits, g, victim);
    change(&mut cells[place], limits, g, deed, payload);
    Served::Done
}
