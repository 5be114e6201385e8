//! What a seat of the desk knows. Only contracts read it.
use std::collections::LinkedList;
use zns_types::GeometryFields;
use zone_cell::ZoneCell;
use zone_model::{Act, Journal};

/// The kind of a seat.
pub enum Kind {
    /// The seat that makes passes.
    Main,

    /// A queue's pass.
    Queue,

    /// What a pass had seen when the note was made.
    Note,

    /// A seat that was joined to another.
    Spent,
}

/// Where a queue stands.
pub enum Standing {
    /// No pass of it was made.
    Free,

    /// Its pass is out.
    Live,

    /// Its pass was joined. The first list is the pass's own acts, the second all that it had seen.
    Joined(LinkedList<Act>, LinkedList<Act>),
}

/// What a seat knows. No value of it is ever made, so its counts can't overflow.
pub struct Sight {
    pub kind: Kind,

    /// The geometry of its desk.
    pub geometry: GeometryFields,

    pub queue: u16,

    /// The acts that it has seen.
    pub seen: LinkedList<Act>,

    /// A prefix of them, which it was told of last.
    pub heard: LinkedList<Act>,

    /// The acts of its queue.
    pub own: LinkedList<Act>,

    /// The number of acts that it still has room for.
    pub spare: u32,

    /// The journal, while this seat has the book.
    pub journal: Option<Journal>,

    /// The cells that it has, the last taken first.
    pub cells: LinkedList<ZoneCell>,

    /// The number of lock words that it found held, the last of them, and the words that it held at
    /// that time.
    pub found: u64,
    pub found_last: u64,
    pub held_when_found: LinkedList<u64>,

    /// Whether it has the book and has made no commit since it took it.
    pub uncommitted: bool,

    /// How often it gave the book back without a commit, and the acts in its journal the last such
    /// time.
    pub given_back: u64,
    pub given_back_log: LinkedList<Act>,

    /// The words that it held at its last commit.
    pub held_at_commit: LinkedList<u64>,

    /// What the main seat knows of each queue, by the queue's number. Other seats have none.
    pub standings: LinkedList<Standing>,
}
