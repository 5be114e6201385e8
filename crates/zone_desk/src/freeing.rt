//! The steps that give cells back.
ghost use Rattle.std.specs.Prelude.{◌≡◌, ◌+◌, ◌<◌, [], ◌∷◌, List, length, None, vec_capacity};
ghost use Rattle.atomic_table.specs.Table.{rest};
ghost use Rattle.zone_cell.specs.Cells.{Cell};
ghost use Rattle.zone_desk.specs.Sights.{in_order, with_cells, without_last};
ghost use Rattle.zone_desk.specs.Passes.{emptied, AreWithin};
ghost use Rattle.zone_desk.specs.declared.sight.Kind.TheVariants.{Queue};

use crate::plays::FreeZone;
use crate::slot::Slot;
use crate::steps::{Board, Place};
use crate::waking::wake;
use std::sync::atomic::AtomicU32;
use zone_cell::ZoneCell;

// Gives back the cell that was taken last, and frees its zone's word.
fn free_zone(board: &Board, waiting: &[AtomicU32], seat: &mut Place, cell: ZoneCell)
    requires table { seat.old.table_id ≡ board.now.table_id }
    requires counts { length waiting.now ≡ board.now.table_id.words }
    requires word { cell.zone + 2 < board.now.table_id.words }
    requires kind { seat.old.me.0.kind ≡ Queue }
    requires book { seat.old.me.0.journal ≡ None }
    requires cell { (others : List Cell) × (seat.old.me.0.cells ≡ cell ∷ others)
        × (seat.old.me.1 ≡ emptied None (cell ∷ others)) }
    ensures table { seat.new.table_id ≡ seat.old.table_id }
    ensures seat { seat.new.me ≡ (without_last seat.old.me.0, rest seat.old.me.1) }
{
    let zone = cell.zone() as usize;
    let Slot::Away = board.exchange(seat, zone + 1, Slot::Zone(cell)) else {
        unreachable!()
    };
    board.store::<FreeZone>(seat, zone + 2, 0);
    wake(board, waiting, zone + 2);
}

/// Gives all cells back, the last taken first, and frees their zones' words.
pub(crate) fn free_zones(
    board: &Board,
    waiting: &[AtomicU32],
    seat: &mut Place,
    cells: &mut Vec<ZoneCell>,
)
    requires table { seat.old.table_id ≡ board.now.table_id }
    requires counts { length waiting.now ≡ board.now.table_id.words }
    requires words { AreWithin board.now.table_id.words seat.old.me.0.cells }
    requires kind { seat.old.me.0.kind ≡ Queue }
    requires book { seat.old.me.0.journal ≡ None }
    requires cells { cells.old.items ≡ in_order seat.old.me.0.cells }
    requires places { seat.old.me.1 ≡ emptied None seat.old.me.0.cells }
    ensures table { seat.new.table_id ≡ seat.old.table_id }
    ensures seat { seat.new.me ≡ (with_cells seat.old.me.0 [], []) }
    ensures none { cells.new.items ≡ [] }
    ensures room { vec_capacity cells.new ≡ vec_capacity cells.old }
{
    while let Some(cell) = cells.pop() {
        free_zone(board, waiting, seat, cell);
    }
}
