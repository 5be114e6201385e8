ghost use Rattle.std.specs.Prelude.{◌≡◌, ◌==◌, ◌&&◌, not, true, if◌then◌else◌, None, IfSome, All};
ghost use Rattle.zns_types.specs.States.{is_implicitly_opened};
ghost use Rattle.zone_cell.specs.Cells.{IsOf};
ghost use Rattle.zone_room.specs.Using.{AreCounted, EachIsCounted};
ghost use Rattle.zone_room.specs.Rooms.{IsOpenedAt, evictable_in, after_close, with_closed, cell_use, counts_closed, counts_after_close};

use crate::counting::{recount, use_of};
use zns_types::Geometry;
use zone_cell::ZoneCell;
use zone_limits::Limits;
use zone_state::Action;

// Whether the zone at place `at` is Implicitly Opened, and isn't the one at `but`.
fn is_evictable(cell: &ZoneCell, at: usize, but: usize) -> bool
    ensures { result ≡ (is_implicitly_opened cell.now.state && not (at == but)) }
{
    cell.state().is_implicitly_opened() && at != but
}

// The place of the first Implicitly Opened zone other than the one at `but`.
fn evictable(cells: &[ZoneCell], but: usize) -> Option<usize>
    ensures first { result ≡ evictable_in cells.now but }
    ensures opened { IfSome result (IsOpenedAt cells.now) }
{
    for at in 0..cells.len() {
        if is_evictable(&cells[at], at, but) {
            return Some(at);
        }
    }
    None
}

// The place of the zone that gives way to the one at `but`, if one has to.
pub fn victim(cells: &[ZoneCell], but: usize, wants: bool) -> Option<usize>
    ensures first { result ≡ (if wants then evictable_in cells.now but else None) }
    ensures opened { IfSome result (IsOpenedAt cells.now) }
{
    if wants { evictable(cells, but) } else { None }
}

// Closes an Implicitly Opened zone.
fn close(cell: &mut ZoneCell, limits: &mut Limits, g: &Geometry)
    requires of { IsOf g.now.fields cell.old }
    requires counted { AreCounted g.now.fields limits.old (cell_use cell.old) }
    requires opened { is_implicitly_opened cell.old.state ≡ true }
    ensures cell { cell.new ≡ after_close g.now.fields cell.old }
    ensures limits { limits.new ≡ counts_closed cell.old limits.old }
    ensures of { IsOf g.now.fields cell.new }
{
    let before = use_of(cell);
    cell.turn(g, Action::Close, false);
    recount(limits, g, before, use_of(cell));
}

// Closes the zone at a place, if there is one.
pub fn close_at(cells: &mut [ZoneCell], limits: &mut Limits, g: &Geometry, at: Option<usize>)
    requires of { All (IsOf g.now.fields) cells.old }
    requires counted { EachIsCounted g.now.fields limits.old cells.old }
    requires opened { IfSome at (IsOpenedAt cells.old) }
    ensures cells { cells.new ≡ with_closed g.now.fields at cells.old }
    ensures limits { limits.new ≡ counts_after_close at cells.old limits.old }
    ensures of { All (IsOf g.now.fields) cells.new }
{
    if let Some(at) = at {
        close(&mut cells[at], limits, g);
    }
}
