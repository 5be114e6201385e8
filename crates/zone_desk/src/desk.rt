ghost use Rattle.std.specs.Prelude.{◌≡◌, ◌≢◌, ◌+◌, ◌-◌, ◌<◌, ◌≤◌, true, false, length, IfOk, IfErr};
ghost use Rattle.std.specs.Prelude.{None};
ghost use Rattle.solo_drive.specs.Drives.{HasLengths, act_of};
ghost use Rattle.solo_drive.specs.Parts.{AreLent};
ghost use Rattle.zone_desk.specs.Sights.{first_sight, queue_sight, note_sight, made, given};
ghost use Rattle.zone_desk.specs.Sights.{zones_held, missed, missed_if, told, gave_out};
ghost use mathlib.Core.List.{IsPrefix};
ghost use Rattle.zone_desk.specs.Passes.{knowing, is_taken, IsRefused, IsAbove, MayTake, HasTaken};
ghost use Rattle.zone_desk.specs.Passes.{HasTakenBook, HasTakenZone, HasApplied};
ghost use Rattle.zone_desk.specs.Passes.{AllIdle, Exactly, HaveKnown, NoOthers, spare_of};

use crate::closing::{absorb_all, finish};
use crate::freeing::free_zones;
use crate::opening::places;
use crate::passes::{MainPass, Note, PassErr, QueuePass};
use crate::plan::Plan;
use crate::plays::{
    Compare, Counting, FreeBook, Law, Remember, TakeBook, TakeZone, Tell, Trying, Waiting,
};
use crate::serving::serve_on;
use crate::sight::Sight;
use crate::slot::Slot;
use crate::steps::{BOOK, HISTORY, LEDGER, commit, seat_for};
use crate::waking::{no_one_waits, wait_for, wake};
use atomic_table::Table;
use solo_drive::{Applied, Parts, Solo};
use sqe_codec::Sqe;
use std::alloc::Global;
use std::marker::{Brand, Model};
use std::snapshot::Snapshot;
use std::sync::Wait;
use std::sync::atomic::AtomicU32;
use zns_io::{Bytes, NoMemory};
use zns_types::Geometry;
use zone_cell::ZoneCell;

/// A drive that several queues share. Word 1 is the book's lock word, and word 2 + z is zone z's.
#[derive(Drop)]
pub struct Desk {
    pub(crate) geometry: Geometry,
    pub(crate) table: Table<Slot, Sight, Plan, Law, Global>,
    // Room for the cells when the desk is closed.
    shelf: Vec<ZoneCell>,
    // The number of waiters for each word.
    waiting: Vec<AtomicU32>,
}

impl Model for Desk {
    ghost use Rattle.std.specs.Prelude.{vec_len};
    ghost use Rattle.zone_desk.specs.Passes.{DeskId, DeskStands};

    ghost Value = { DeskId };

    ghost view = { λ d. record { table = d.table.shared.table_id; geometry = d.geometry.fields } };

    ghost invariant = { λ d. DeskStands d.table.shared.table_id d.geometry.fields
        d.table.shared.key d.shelf (vec_len d.waiting) };
}

impl Desk {
    /// Makes the desk of a new drive with room for `room` acts, and the main pass, which makes its
    /// queues' passes.
    pub fn new(alloc: Global, g: Geometry, room: u32) -> Result<(Desk, MainPass), NoMemory>
        requires room { room ≤ 262144 }
        ensures desk { IfOk result (λ d. d.0.geometry ≡ g.fields) }
        ensures main { IfOk result (λ d. d.1.desk ≡ d.0) }
        ensures sight { IfOk result
            (λ d. d.1.sight ≡ first_sight record { fields = g.fields; room = room }) }
    {
        let zones = g.fields.zones as usize;
        let shelf = Vec::with_capacity(alloc, zones)?;
        let given = Vec::from_elem(alloc, false, g.fields.queues as usize)?;
        let waiting = no_one_waits(alloc, zones + 2)?;
        let words = Vec::from_elem(alloc, 0u64, zones + 2)?;
        let Parts {
            cells,
            book,
            geometry: _,
        } = Solo::new(alloc, g, room)?.into_parts();
        let slots = places(alloc, book, cells)?;
        let plan = Plan {
            fields: g.fields,
            room,
        };
        match Table::new(alloc, words.as_slice(), slots, &plan) {
            Ok((table, seat)) => Ok((
                Desk {
                    geometry: g,
                    table,
                    shelf,
                    waiting,
                },
                MainPass {
                    left: room,
                    given,
                    seat,
                },
            )),
            Err(_) => Err(NoMemory),
        }
    }

    /// The drive's geometry.
    pub fn geometry(&self) -> &Geometry
        ensures { result.now.fields ≡ self.now.geometry }
    {
        &self.geometry
    }

    /// Makes a pass for a queue, with room for `room` acts. It has seen what `main` has seen, and
    /// holds no word.
    ///
    /// # Errors
    /// `QueueTaken` if a pass of the queue was already made, else `RoomShort` with the room that is
    /// left if that is less than `room`, else `NoMemory`. `main` is then unchanged.
    pub fn pass(
        &self,
        alloc: Global,
        main: &mut MainPass,
        queue: u16,
        room: u32,
    ) -> Result<QueuePass, PassErr>
        requires desk { main.old.desk ≡ self.now }
        requires queue { queue < self.now.geometry.queues }
        ensures main { IfOk result (λ p. main.new ≡ knowing main.old
            (made main.old.sight queue room)) }
        ensures desk { IfOk result (λ p. p.desk ≡ self.now) }
        ensures sight { IfOk result (λ p. p.sight
            ≡ queue_sight self.now.geometry queue main.old.sight.seen room) }
        ensures none_open { IfOk result (λ p. p.opened ≡ None) }
        ensures free { IfOk result (λ p. is_taken main.old.sight.standings queue ≡ false) }
        ensures room { IfOk result (λ p. room ≤ main.old.sight.spare) }
        ensures refused { IfErr result (λ e. IsRefused main.old.sight queue room e) }
        ensures unchanged { IfErr result (λ e. main.new ≡ main.old) }
    {
        if main.given[queue as usize] {
            return Err(PassErr::QueueTaken(queue));
        }
        if room > main.left {
            return Err(PassErr::RoomShort(main.left));
        }
        let Ok(cells) = Vec::with_capacity(alloc, self.geometry.fields.zones as usize) else {
            return Err(PassErr::NoMemory);
        };
        let seat = seat_for::<Brand>(&self.table.shared, &mut main.seat, queue, room);
        main.given[queue as usize] = true;
        main.left -= room;
        Ok(QueuePass {
            queue,
            served: 0,
            spare: room,
            book: None,
            cells,
            open: None,
            seat,
        })
    }

    /// Waits until the lock word is free, and takes it. If the call returns, the pass holds the
    /// word and has its part: the book, or the zone's cell. The words of zones are taken in rising
    /// order, and the book's word after them.
    pub fn take_word<R: Wait>(&self, rt: &R, pass: &mut QueuePass, word: u32)
        requires desk { pass.old.desk ≡ self.now }
        requires next { MayTake self.now.geometry pass.old word }
        ensures { HasTaken word pass.old pass.new }
    {
        for _ in rt.forever() {
            if self.step_word::<Waiting>(pass, word) {
                return;
            }
            wait_for(rt, &self.table.shared, &self.waiting, word as usize);
        }
        unreachable!()
    }

    /// Takes the lock word as `take_word` does, but never waits. Returns false if its one step
    /// finds the word held, which is counted.
    pub fn try_word(&self, pass: &mut QueuePass, word: u32) -> bool
        requires desk { pass.old.desk ≡ self.now }
        requires next { MayTake self.now.geometry pass.old word }
        ensures taken { result ≡ true → HasTaken word pass.old pass.new }
        ensures held { result ≡ false
            → pass.new ≡ knowing pass.old (missed pass.old.sight word) }
    {
        self.step_word::<Trying>(pass, word)
    }

    // One step: takes the word and its part if the word is free.
    fn step_word<C: Counting>(&self, pass: &mut QueuePass, word: u32) -> bool
        requires desk { pass.old.desk ≡ self.now }
        requires next { MayTake self.now.geometry pass.old word }
        ensures taken { result ≡ true → HasTaken word pass.old pass.new }
        ensures held { result ≡ false
            → pass.new ≡ knowing pass.old (missed_if C.counts pass.old.sight word) }
    {
        if word == 1 {
            return self.step_book::<C>(pass);
        }
        self.step_zone::<C>(pass, word - 2)
    }

    fn step_book<C: Counting>(&self, pass: &mut QueuePass) -> bool
        requires desk { pass.old.desk ≡ self.now }
        requires free { pass.old.sight.journal ≡ None }
        ensures taken { result ≡ true → HasTakenBook pass.old pass.new }
        ensures held { result ≡ false
            → pass.new ≡ knowing pass.old (missed_if C.counts pass.old.sight 1) }
    {
        let board = &self.table.shared;
        if board.compare_exchange::<TakeBook<C>>(&mut pass.seat, BOOK, 0, 1) != 0 {
            return false;
        }
        let Slot::Ledger(book) = board.exchange(&mut pass.seat, LEDGER, Slot::Away) else {
            unreachable!()
        };
        pass.book = Some(book);
        true
    }

    fn step_zone<C: Counting>(&self, pass: &mut QueuePass, zone: u32) -> bool
        requires desk { pass.old.desk ≡ self.now }
        requires free { pass.old.sight.journal ≡ None }
        requires none_open { pass.old.opened ≡ None }
        requires zone { zone < self.now.geometry.zones }
        requires rising { IsAbove (zone + 2) pass.old.sight.cells }
        ensures taken { result ≡ true → HasTakenZone zone pass.old pass.new }
        ensures held { result ≡ false
            → pass.new ≡ knowing pass.old (missed_if C.counts pass.old.sight (zone + 2)) }
    {
        let board = &self.table.shared;
        let place = zone as usize + 1;
        if board.compare_exchange::<TakeZone<C>>(&mut pass.seat, place + 1, 0, 1) != 0 {
            return false;
        }
        let Slot::Zone(cell) = board.exchange(&mut pass.seat, place, Slot::Away) else {
            unreachable!()
        };
        pass.cells.push_reserved(cell);
        true
    }

    /// Serves an act of the pass's queue on the parts that the pass has, with one commit. The pass
    /// has then seen the journal with this act at its end. What the act reads is at the front of
    /// `out`; the rest of `out` is unchanged. If another zone has to give way and the pass doesn't
    /// have all zones, nothing changes.
    pub fn apply_act(
        &self,
        pass: &mut QueuePass,
        sqe: Sqe,
        payload: Bytes,
        out: &mut [u8],
    ) -> Applied
        requires desk { pass.old.desk ≡ self.now }
        requires none_open { pass.old.opened ≡ None }
        requires journal { pass.old.sight.journal ≢ None }
        requires zones { AreLent self.now.geometry (act_of pass.old.sight.queue sqe payload)
            (zones_held pass.old.sight) }
        requires spare { 0 < pass.old.sight.spare }
        requires lengths { HasLengths self.now.geometry
            (act_of pass.old.sight.queue sqe payload) (length out.old) }
        ensures { HasApplied pass.old pass.new (act_of pass.old.sight.queue sqe payload)
            out.old out.new result }
    {
        let bytes = Snapshot::of(&payload);
        let queue = pass.queue;
        let Some(book) = &mut pass.book else {
            unreachable!()
        };
        match serve_on(
            &mut pass.cells,
            book,
            &self.geometry,
            queue,
            sqe,
            payload,
            out,
        ) {
            Applied::Widen { payload } => Applied::Widen { payload },
            Applied::Done(posted) => {
                commit::<Brand>(&self.table.shared, &mut pass.seat, queue, sqe, bytes);
                pass.served += 1;
                pass.spare -= 1;
                Applied::Done(posted)
            }
        }
    }

    /// Gives all parts back, and frees the words that the pass holds.
    pub fn put_back(&self, pass: &mut QueuePass)
        requires desk { pass.old.desk ≡ self.now }
        requires none_open { pass.old.opened ≡ None }
        ensures { pass.new ≡ knowing pass.old (given pass.old.sight) }
    {
        self.give_book(pass);
        let board = &self.table.shared;
        free_zones(board, &self.waiting, &mut pass.seat, &mut pass.cells);
    }

    /// Gives the book back if the pass has it, and frees its word. The pass keeps the words and the
    /// cells of its zones.
    pub fn give_book(&self, pass: &mut QueuePass)
        requires desk { pass.old.desk ≡ self.now }
        ensures { pass.new ≡ knowing pass.old (gave_out pass.old.sight pass.old.sight.journal) }
    {
        let board = &self.table.shared;
        if let Some(book) = pass.book.take() {
            let Slot::Away = board.exchange(&mut pass.seat, LEDGER, Slot::Ledger(book)) else {
                unreachable!()
            };
            board.store::<FreeBook>(&mut pass.seat, BOOK, 0);
            wake(board, &self.waiting, BOOK);
        }
    }

    /// A note of what the pass has seen.
    pub fn note(&self, pass: &mut QueuePass) -> Note
        requires { pass.old.desk ≡ self.now }
        ensures pass { pass.new ≡ pass.old }
        ensures desk { result.desk ≡ self.now }
        ensures sight { result.sight ≡ note_sight self.now.geometry pass.old.sight.seen }
    {
        Note {
            seat: self.table.shared.split_seat::<Remember>(&mut pass.seat),
        }
    }

    /// Tells a pass what a note has seen. The pass has then seen the longer of the two lists of
    /// acts, of which the other is a prefix.
    pub fn learn(&self, pass: &mut QueuePass, note: Note)
        requires desk { pass.old.desk ≡ self.now }
        requires note { note.desk ≡ self.now }
        ensures pass { pass.new ≡ knowing pass.old (told pass.old.sight note.sight) }
        ensures own { IsPrefix pass.old.sight.seen pass.new.sight.seen }
        ensures others { IsPrefix note.sight.seen pass.new.sight.seen }
    {
        let Note { seat } = note;
        let board = &self.table.shared;
        board.join_seat::<Tell>(&mut pass.seat, seat);
        board.load::<Compare>(&mut pass.seat, HISTORY);
    }

    /// Closes the desk, and returns its drive. `passes` are all the passes that were made.
    pub fn close(self, main: MainPass, passes: Vec<QueuePass>) -> Solo
        requires desk { main.desk ≡ self }
        requires idle { AllIdle self passes.items }
        requires all { Exactly main.sight.standings passes.items }
        ensures geometry { result.geometry ≡ self.geometry }
        ensures spare { result.spare ≡ main.sight.spare + spare_of passes.items }
        ensures known { HaveKnown result.acts passes.items }
        ensures others { NoOthers result.acts main.sight.standings }
    {
        let Desk {
            geometry,
            table,
            shelf,
            waiting,
        } = self;
        drop(waiting);
        let MainPass {
            left: _,
            given,
            mut seat,
        } = main;
        drop(given);
        absorb_all(&table.shared, &mut seat, passes);
        Solo::of_parts(finish(table, seat, geometry, shelf))
    }
}
