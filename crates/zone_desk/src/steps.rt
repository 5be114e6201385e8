//! The steps whose caller picks what they add.
ghost use Rattle.std.specs.Prelude.{◌≡◌, ◌≢◌, ◌+◌, ◌<◌, ◌≤◌, [], None};
ghost use Rattle.solo_drive.specs.Drives.{act_of};
ghost use Rattle.zone_desk.specs.Parts.{Covers};
ghost use Rattle.zone_desk.specs.Sights.{committed, log_of, made, queue_sight};
ghost use Rattle.zone_desk.specs.declared.sight.Kind.TheVariants.{Main, Queue};
ghost use Rattle.zone_desk.specs.declared.sight.Standing.TheVariants.{Free};
ghost use mathlib.Core.Option.{some};
ghost use lib.ListN.{get_elem?};

use crate::plan::Plan;
use crate::plays::{Adding, Commit, Law, Make, Seating};
use crate::sight::Sight;
use crate::slot::Slot;
use atomic_table::{Seat, Shared};
use sqe_codec::Sqe;
use std::snapshot::Snapshot;
use zns_io::Bytes;

/// The word that counts the acts in the journal.
pub(crate) const HISTORY: usize = 0;

/// The book's word, which is 1 while a seat has the book. The zones' words follow it.
pub(crate) const BOOK: usize = 1;

/// The book's place. The zones' places follow it.
pub(crate) const LEDGER: usize = 0;

pub(crate) type Board = Shared<Slot, Sight, Plan, Law>;

pub(crate) type Place = Seat<Slot, Sight>;

/// Makes the seat of a new pass.
pub(crate) fn seat_for<D: Seating>(board: &Board, seat: &mut Place, queue: u16, room: u32) -> Place
    requires table { seat.old.table_id ≡ board.now.table_id }
    requires words { 0 < board.now.table_id.words }
    requires picks { (D.queue ≡ queue) × (D.room ≡ room) }
    requires main { seat.old.me.0.kind ≡ Main }
    requires queue { get_elem? seat.old.me.0.standings queue ≡ some Free }
    requires room { room ≤ seat.old.me.0.spare }
    ensures table { seat.new.table_id ≡ seat.old.table_id }
    ensures seat { seat.new.me ≡ (made seat.old.me.0 queue room, seat.old.me.1) }
    ensures new_table { result.table_id ≡ seat.old.table_id }
    ensures new_seat { result.me
        ≡ (queue_sight seat.old.me.0.geometry queue seat.old.me.0.seen room, []) }
{
    board.split_seat::<Make<D>>(seat)
}

/// Adds an act to the history.
pub(crate) fn commit<D: Adding>(
    board: &Board,
    seat: &mut Place,
    queue: u16,
    sqe: Sqe,
    payload: Snapshot<Bytes>,
)
    requires table { seat.old.table_id ≡ board.now.table_id }
    requires geometry { seat.old.me.0.geometry ≡ board.now.key.fields }
    requires words { 0 < board.now.table_id.words }
    requires slots { board.now.table_id.slots ≡ seat.old.me.0.geometry.zones + 1 }
    requires picks { D.act ≡ act_of queue sqe payload.value }
    requires kind { seat.old.me.0.kind ≡ Queue }
    requires queue { queue ≡ seat.old.me.0.queue }
    requires spare { 0 < seat.old.me.0.spare }
    requires journal { seat.old.me.0.journal ≢ None }
    requires zones { Covers seat.old.me.0.geometry (log_of seat.old.me.0)
        (act_of queue sqe payload.value) seat.old.me.0.cells }
    ensures table { seat.new.table_id ≡ seat.old.table_id }
    ensures seat { seat.new.me
        ≡ (committed seat.old.me.0 (act_of queue sqe payload.value), seat.old.me.1) }
{
    board.fetch_add::<Commit<D>>(seat, HISTORY, 1);
}
