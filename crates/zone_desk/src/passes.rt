ghost use Rattle.std.specs.Prelude.{◌≡◌, length};

use crate::kept_book::KeptBook;
use crate::opened::Opened;
use crate::sight::Sight;
use crate::slot::Slot;
use atomic_table::Seat;
use std::marker::Model;
use zone_cell::ZoneCell;

/// Why no pass was made.
#[derive(Clone, Copy, Debug, PartialEq, Eq)]
pub enum PassErr {
    /// A pass of this queue was already made.
    QueueTaken(u16),

    /// Only this much room is left.
    RoomShort(u32),

    /// Out of memory.
    NoMemory,
}

/// Makes the passes, and closes the desk.
#[derive(Drop)]
pub struct MainPass {
    pub(crate) left: u32,
    // For each queue, whether a pass was made.
    pub(crate) given: Vec<bool>,
    pub(crate) seat: Seat<Slot, Sight>,
}

impl Model for MainPass {
    ghost use Rattle.std.specs.Prelude.{None};
    ghost use Rattle.zone_desk.specs.Passes.{Pass, pass_of, MainStands};

    ghost Value = { Pass };

    ghost view = { λ p. pass_of p.seat.table_id p.seat.me.0 None };

    ghost invariant = { λ p. MainStands p.left p.given.items p.seat.me };
}

/// A pass, which serves the acts of one queue.
#[derive(Drop)]
pub struct QueuePass {
    pub(crate) queue: u16,
    pub(crate) served: u32,
    pub(crate) spare: u32,
    pub(crate) book: Option<KeptBook>,
    // In the order taken, with room for all zones.
    pub(crate) cells: Vec<ZoneCell>,
    // The open command, whose bytes have moved in the cells.
    pub(crate) open: Option<Opened>,
    pub(crate) seat: Seat<Slot, Sight>,
}

impl Model for QueuePass {
    ghost use Rattle.zone_desk.specs.Passes.{Pass, pass_of, PassStands};

    ghost Value = { Pass };

    ghost view = { λ p. pass_of p.seat.table_id p.seat.me.0 p.open };

    ghost invariant = { λ p. PassStands p.queue p.served p.spare p.open p.book p.cells
        p.seat.table_id p.seat.me };
}

/// What a pass had seen when the note was made.
#[derive(Drop)]
pub struct Note {
    pub(crate) seat: Seat<Slot, Sight>,
}

impl Model for Note {
    ghost use Rattle.std.specs.Prelude.{None};
    ghost use Rattle.zone_desk.specs.Passes.{Pass, pass_of, NoteStands};

    ghost Value = { Pass };

    ghost view = { λ n. pass_of n.seat.table_id n.seat.me.0 None };

    ghost invariant = { λ n. NoteStands n.seat.me };
}

impl QueuePass {
    /// The pass's queue.
    pub fn queue(&self) -> u16
        ensures { result ≡ self.now.sight.queue }
    {
        self.queue
    }

    /// The number of acts that it still has room for.
    pub fn spare(&self) -> u32
        ensures { result ≡ self.now.sight.spare }
    {
        self.spare
    }

    /// The number of acts that it has served.
    pub fn served(&self) -> u32
        ensures { result ≡ length self.now.sight.own }
    {
        self.served
    }
}
