//! Closing a desk.
ghost use Rattle.std.specs.Prelude.{◌≡◌, ℕ, suc, ◌+◌, ◌<◌, ◌≤◌, [], true, false, List};
ghost use Rattle.std.specs.Prelude.{vec_capacity, slice_index_or};
ghost use Rattle.std.specs.List.{range_with_len};
ghost use Rattle.std.specs.Slots.{slots_items, slots_filled, slots_len};
ghost use Rattle.zns_types.specs.declared.fields.GeometryFields.{GeometryFields};
ghost use Rattle.zone_model.specs.declared.act.Act.{Act};
ghost use Rattle.solo_drive.specs.Parts.{DriveStands};
ghost use Rattle.zone_desk.specs.Parts.{zones_at};
ghost use Rattle.zone_desk.specs.Passes.{absorbed, AllIdle, Ends, NoneLive};
ghost use Rattle.zone_desk.specs.Passes.{AreShelved, HaveCells};
ghost use Rattle.zone_desk.specs.declared.sight.Kind.TheVariants.{Main};

use crate::passes::QueuePass;
use crate::plan::Plan;
use crate::plays::{Absorb, Law};
use crate::sight::Sight;
use crate::slot::Slot;
use crate::steps::{Board, LEDGER, Place};
use atomic_table::{Closed, Table};
use solo_drive::Parts;
use std::alloc::Global;
use zns_types::Geometry;
use zone_cell::ZoneCell;

/// Joins all passes to the main seat.
pub(crate) fn absorb_all(board: &Board, seat: &mut Place, passes: Vec<QueuePass>)
    requires table { seat.old.table_id ≡ board.now.table_id }
    requires words { 0 < board.now.table_id.words }
    requires main { seat.old.me.0.kind ≡ Main }
    requires idle { AllIdle
        record { table = board.now.table_id; geometry = seat.old.me.0.geometry } passes.items }
    ensures table { seat.new.table_id ≡ seat.old.table_id }
    ensures main { seat.new.me.0.kind ≡ Main }
    ensures sight { seat.new.me.0 ≡ absorbed seat.old.me.0 passes.items }
{
    for pass in passes {
        let QueuePass {
            queue: _,
            served: _,
            spare: _,
            book,
            cells,
            open,
            seat: other,
        } = pass;
        drop(book);
        drop(cells);
        drop(open);
        board.join_seat::<Absorb>(seat, other);
    }
}

// Takes the cells out of their places.
fn take_cells(row: &mut Closed<Slot, Global>, zones: u32, shelf: Vec<ZoneCell>) -> Vec<ZoneCell>
    requires count { slots_len row.old.slots ≡ zones + 1 }
    requires filled { (z : ℕ) → z < zones
        → slice_index_or (slots_filled row.old.slots) (suc z) false ≡ true }
    requires cells { HaveCells (slots_items row.old.slots) zones }
    requires shelf { shelf.items ≡ [] }
    requires room { zones ≤ vec_capacity shelf }
    ensures cells { (g : GeometryFields) (log : List Act)
        → AreShelved g log (slots_items row.old.slots) zones
        → result.items ≡ zones_at g log (range_with_len 0 zones) }
    ensures same_count { slots_len row.new.slots ≡ slots_len row.old.slots }
    ensures taken { (z : ℕ) → z < zones
        → slice_index_or (slots_filled row.new.slots) (suc z) false ≡ false }
    ensures first { slice_index_or (slots_filled row.new.slots) 0 false
        ≡ slice_index_or (slots_filled row.old.slots) 0 false }
{
    let mut cells = shelf;
    for zone in 0..zones {
        let Slot::Zone(cell) = row.take(zone as usize + 1) else {
            unreachable!()
        };
        cells.push_reserved(cell);
    }
    cells
}

/// Closes a desk whose passes were all joined, and returns the parts of its drive.
pub(crate) fn finish(
    table: Table<Slot, Sight, Plan, Law, Global>,
    seat: Place,
    geometry: Geometry,
    shelf: Vec<ZoneCell>,
) -> Parts
    requires table { seat.table_id ≡ table.shared.table_id }
    requires slots { table.shared.table_id.slots ≡ geometry.fields.zones + 1 }
    requires fields { geometry.fields ≡ table.shared.key.fields }
    requires main { seat.me.0.kind ≡ Main }
    requires none { NoneLive seat.me.0.standings }
    requires shelf { shelf.items ≡ [] }
    requires room { geometry.fields.zones ≤ vec_capacity shelf }
    ensures geometry { result.geometry ≡ geometry }
    ensures stands { DriveStands geometry.fields result.cells.items result.book }
    ensures ends { Ends seat.me.0 result.book.journal }
{
    let mut closed = table.close_with(seat);
    let Slot::Ledger(book) = closed.take(LEDGER) else {
        unreachable!()
    };
    let cells = take_cells(&mut closed, geometry.fields.zones, shelf);
    closed.free();
    Parts {
        cells,
        book: book.into_book(),
        geometry,
    }
}
