ghost use Rattle.std.specs.Prelude.{◌≡◌, ◌<◌, ◌/◌, [], ◌∷◌, ◌++◌, List, length, All};
ghost use Rattle.zone_cell.specs.Cells.{Cell, IsOf};
ghost use Rattle.mgmt_receive.specs.Receiving.{Given, Begun};

use crate::filters::is_wanted;
use zns_types::{Geometry, State};
use zone_cell::ZoneCell;
use zone_descriptor::write;

/// How far the descriptors of a report go.
#[derive(Clone, Copy)]
pub struct Gave {
    /// The number of descriptors written.
    pub given: usize,

    /// The number of cells looked at for them.
    pub seen: usize,
}

// Writes the descriptor of a zone after the first `given`, if the zone is wanted. Returns the
// number of descriptors written by then.
fn give(cell: &ZoneCell, g: &Geometry, wanted: Option<State>, given: usize, out: &mut [u8]) -> usize
    requires of { IsOf g.now.fields cell.now }
    requires room { given < length out.old / 64 }
    ensures { (before : List Cell)
        → Given g.now.fields wanted before (length out.old) given out.old
        → Given
        g.now.fields
        wanted
        (before ++ cell.now ∷ [])
        (length out.old)
        result
        out.new }
{
    if !is_wanted(wanted, cell.state()) {
        return given;
    }
    out[given * 64..(given + 1) * 64].copy_from_slice(&write(&cell.descriptor(g)));
    given + 1
}

/// Fills `out` with the descriptors of the zones that are wanted, as many as fit whole, followed by
/// zeros. Once `out` has no room for another, no more cells are looked at.
pub fn give_all(cells: &[ZoneCell], g: &Geometry, wanted: Option<State>, out: &mut [u8]) -> Gave
    requires of { All (IsOf g.now.fields) cells.now }
    ensures { Begun g.now.fields wanted cells.now (length out.old) result out.new }
{
    out.fill(0);
    let mut given = 0;
    for i in 0..cells.len() {
        if out.len() / 64 <= given {
            return Gave { given, seen: i };
        }
        given = give(&cells[i], g, wanted, given, out);
    }
    Gave {
        given,
        seen: cells.len(),
    }
}
