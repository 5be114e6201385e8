ghost use Rattle.std.specs.Prelude.{◌≡◌, ◌+◌, ◌<◌, ◌≤◌, [], ◌∷◌, ◌++◌, IfOk};
ghost use Rattle.changed_log.specs.Logs.{with_zone};
ghost use Rattle.changed_log.specs.Marks.{fired_by, after_excursion};
ghost use Rattle.drive_book.specs.Books.{book_at, TalliesStand};
ghost use Rattle.drive_book.specs.Following.{PostsEntries, KeepsTallies};

use crate::outcome::Outcome;
use crate::posted::Posted;
use crate::tallies::Tallies;
use changed_log::{ChangedLog, Events};
use sqe_codec::cid;
use std::alloc::Global;
use zns_io::NoMemory;
use zns_types::Geometry;
use zone_limits::Limits;
use zone_model::{Act, Journal};

/// What a drive keeps besides its zones.
#[derive(Drop)]
pub struct Book {
    /// The number of zones that are active, that are opened, and that have a random write area.
    pub limits: Limits,

    /// The zones that excursions changed.
    pub log: ChangedLog,

    /// The marks of events, and the event requests that wait.
    pub events: Events,

    /// The number of acts and of entries that each queue has had.
    pub tallies: Tallies,

    /// The acts that were served.
    pub journal: Journal,
}

impl Book {
    /// The book of a new drive, with room for `room` acts.
    pub fn new(alloc: Global, g: &Geometry, room: u32) -> Result<Book, NoMemory>
        requires room { room ≤ 262144 }
        ensures { IfOk result (λ b. b ≡ book_at g.now.fields [] room) }
    {
        let tallies = Tallies::new(alloc, g.fields.queues)?;
        let journal = Journal::new(alloc, room)?;
        Ok(Book {
            limits: Limits {
                active: 0,
                opened: 0,
                windows: 0,
            },
            log: ChangedLog::new(),
            events: Events::new(),
            tallies,
            journal,
        })
    }

    /// Adds an act to the journal, and makes its entries from what became of it.
    pub fn post(&mut self, g: &Geometry, act: Act, outcome: Outcome) -> Posted
        requires spare { 0 < self.old.journal.spare }
        requires queue { act.queue < g.now.fields.queues }
        requires tallies { TalliesStand g.now.fields self.old }
        ensures journal { self.new.journal.acts ≡ self.old.journal.acts ++ act ∷ [] }
        ensures spare { self.new.journal.spare + 1 ≡ self.old.journal.spare }
        ensures limits { self.new.limits ≡ self.old.limits }
        ensures log { self.new.log ≡ self.old.log }
        ensures events { self.new.events ≡ self.old.events }
        ensures len { result.len ≡ outcome.len }
        ensures entries { PostsEntries g.now.fields self.old act outcome result }
        ensures tallies { KeepsTallies g.now.fields self.old act outcome self.new }
    {
        let queue = act.queue;
        let cid = cid(&act.sqe);
        self.journal.push(act);
        let entries = self.tallies.post(g, queue, cid, &outcome);
        Posted {
            entries,
            len: outcome.len,
        }
    }

    /// Notes that an excursion changed a zone. If an event of it is to be told, this answers the
    /// event request that has waited longest, and returns its command identifier.
    pub fn note_excursion(&mut self, zone: u32) -> Option<u16>
        requires zone { zone < 4096 }
        ensures answer { result ≡ fired_by self.old.events }
        ensures log { self.new.log ≡ with_zone zone self.old.log }
        ensures events { self.new.events ≡ after_excursion self.old.events }
        ensures limits { self.new.limits ≡ self.old.limits }
        ensures tallies { self.new.tallies ≡ self.old.tallies }
        ensures journal { self.new.journal ≡ self.old.journal }
    {
        self.log.note(zone);
        self.events.fire()
    }
}
