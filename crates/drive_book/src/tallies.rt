ghost use Rattle.std.specs.Prelude.{◌≡◌, ◌+◌, ◌<◌, ◌^◌, length, IfOk, replicate};
ghost use Rattle.drive_book.specs.declared.outcome.Outcome.{Outcome};
ghost use Rattle.drive_book.specs.Tallies.{no_tally, tally_at, with_act, with_entry, entry_at, entries_by, after_post, HasRoomAt};

use crate::outcome::Outcome;
use crate::tally::Tally;
use arrayvec::ArrayVec;
use cqe_codec::Cqe;
use std::alloc::Global;
use std::marker::Model;
use zns_io::NoMemory;
use zns_types::Geometry;

/// The tallies of all queues, in their order.
#[derive(Drop)]
pub struct Tallies {
    items: Vec<Tally>,
}

impl Model for Tallies {
    ghost use Rattle.std.specs.Prelude.{List};
    ghost use Rattle.drive_book.specs.declared.tally.Tally.{Tally};

    ghost Value = { List Tally };

    ghost view = { λ t. t.items.items };
}

impl Tallies {
    /// The tallies of `queues` queues that have had no act and no entry.
    pub fn new(alloc: Global, queues: u16) -> Result<Tallies, NoMemory>
        ensures { IfOk result (λ t. t ≡ replicate queues no_tally) }
    {
        let none = Tally {
            acts: 0,
            entries: 0,
        };
        let items = vec![in alloc; none; queues as usize]?;
        Ok(Tallies { items })
    }

    /// The tally of a queue.
    pub fn of(&self, queue: u16) -> Tally
        requires { queue < length self.now }
        ensures { result ≡ tally_at queue self.now }
    {
        self.items[queue as usize]
    }

    // Counts one more act of a queue.
    fn add_act(&mut self, queue: u16)
        requires queue { queue < length self.old }
        requires room { (tally_at queue self.old).acts + 1 < 2 ^ 64 }
        ensures { self.new ≡ with_act queue self.old }
    {
        self.items[queue as usize].acts += 1;
    }

    // Counts one more entry of a queue, and makes it for the command with the identifier `cid`.
    fn add_entry(&mut self, g: &Geometry, queue: u16, cid: u16, outcome: &Outcome) -> Cqe
        requires queue { queue < length self.old }
        requires room { (tally_at queue self.old).entries + 1 < 2 ^ 64 }
        ensures entry { result ≡ entry_at g.now.fields queue cid outcome.now self.old }
        ensures tallies { self.new ≡ with_entry queue self.old }
    {
        let depth = u64::from(g.fields.depth);
        let tally = &mut self.items[queue as usize];
        let phase = tally.entries / depth % 2 == 0;
        tally.entries += 1;
        Cqe {
            dw0: outcome.dw0,
            dw1: outcome.dw1,
            head: (tally.acts % depth) as u16,
            sqid: queue,
            cid,
            phase,
            code: outcome.code,
            dnr: outcome.code.dnr(),
        }
    }

    /// Counts one more act of a queue, and makes its entries: its own, unless it waits, and then
    /// that of the event request that it answered.
    pub fn post(
        &mut self,
        g: &Geometry,
        queue: u16,
        cid: u16,
        outcome: &Outcome,
    ) -> ArrayVec<Cqe, 2>
        requires queue { queue < length self.old }
        requires room { HasRoomAt queue self.old }
        requires admin_room { HasRoomAt 0 self.old }
        ensures entries { result.items ≡ entries_by g.now.fields queue cid outcome.now self.old }
        ensures tallies { self.new ≡ after_post queue outcome.now self.old }
    {
        let mut entries = ArrayVec::new();
        self.add_act(queue);
        if outcome.waits {
            return entries;
        }
        entries.push(self.add_entry(g, queue, cid, outcome));
        if let Some(event) = outcome.event {
            entries.push(self.add_entry(g, 0, event, &Outcome::told()));
        }
        entries
    }
}
