//! The rule of a desk, and what each step tells the seat that makes it. Only contracts use these
//! types.
use crate::plan::Plan;
use crate::sight::Sight;
use crate::slot::Slot;
use atomic_table::{Join, Play, Split, TableRule};
use std::marker::{Brand, PhantomData};

/// The rule of a desk.
pub struct Law;

impl TableRule<Slot, Sight, Plan> for Law {
    ghost use Rattle.zone_desk.specs.Rules.{Rule};
    ghost use Rattle.zone_desk.specs.Sights.{first_sight};

    ghost holds = { Rule };

    ghost first = { first_sight };
}

/// Whether a take counts a word that it finds held.
pub trait Counting {
    ghost use Rattle.std.specs.Prelude.{Bool};

    ghost counts: { Bool };
}

/// Waits, and counts nothing.
pub struct Waiting;

impl Counting for Waiting {
    ghost use Rattle.std.specs.Prelude.{false};

    ghost counts = { false };
}

/// Never waits, and counts.
pub struct Trying;

impl Counting for Trying {
    ghost use Rattle.std.specs.Prelude.{true};

    ghost counts = { true };
}

/// Takes the book's word and the book, or finds the word held.
pub struct TakeBook<C> {
    of: PhantomData<C>,
}

impl<C: Counting> Play<Slot, Sight> for TakeBook<C> {
    ghost use Rattle.zone_desk.specs.Plays.{TakesBook};

    ghost then = { TakesBook C.counts };
}

/// Takes a zone's word and its cell, or finds the word held.
pub struct TakeZone<C> {
    of: PhantomData<C>,
}

impl<C: Counting> Play<Slot, Sight> for TakeZone<C> {
    ghost use Rattle.zone_desk.specs.Plays.{TakesZone};

    ghost then = { TakesZone C.counts };
}

/// The act that a commit adds. Each commit picks it.
pub trait Adding {
    ghost use Rattle.zone_model.specs.declared.act.Act.{Act};

    ghost act: { Act };
}

impl Adding for Brand {
    ghost use Rattle.zone_desk.specs.Plays.{no_act};

    ghost act = { no_act };
}

/// Adds the act to the history.
pub struct Commit<D> {
    of: PhantomData<D>,
}

impl<D: Adding> Play<Slot, Sight> for Commit<D> {
    ghost use Rattle.zone_desk.specs.Plays.{Commits};

    ghost then = { Commits D.act };
}

/// Gives the book back, and frees its word.
pub struct FreeBook;

impl Play<Slot, Sight> for FreeBook {
    ghost use Rattle.zone_desk.specs.Plays.{FreesBook};

    ghost then = { FreesBook };
}

/// Gives back the cell that was taken last, and frees its word.
pub struct FreeZone;

impl Play<Slot, Sight> for FreeZone {
    ghost use Rattle.zone_desk.specs.Plays.{FreesZone};

    ghost then = { FreesZone };
}

/// The queue and the room of a pass that is made. Each call picks them.
pub trait Seating {
    ghost use Rattle.std.specs.Prelude.{ℕ};

    ghost queue: { ℕ };

    ghost room: { ℕ };
}

impl Seating for Brand {
    ghost queue = { 0 };

    ghost room = { 0 };
}

/// Makes a pass.
pub struct Make<D> {
    of: PhantomData<D>,
}

impl<D: Seating> Split<Sight> for Make<D> {
    ghost use Rattle.zone_desk.specs.Sights.{made, queue_sight};

    ghost left = { λ v. made v D.queue D.room };

    ghost right = { λ v. queue_sight v.geometry D.queue v.seen D.room };
}

/// Joins a pass to the main seat.
pub struct Absorb;

impl Join<Sight> for Absorb {
    ghost use Rattle.zone_desk.specs.Sights.{joined, spent_sight};

    ghost both = { joined };

    ghost spent = { spent_sight };
}

/// Makes a note of what a pass has seen.
pub struct Remember;

impl Split<Sight> for Remember {
    ghost use Rattle.zone_desk.specs.Sights.{note_sight};

    ghost left = { λ v. v };

    ghost right = { λ v. note_sight v.geometry v.seen };
}

/// Tells a pass what a note has seen.
pub struct Tell;

impl Join<Sight> for Tell {
    ghost use Rattle.zone_desk.specs.Sights.{told, spent_sight};

    ghost both = { told };

    ghost spent = { spent_sight };
}

/// Compares what a seat has seen with what it was told.
pub struct Compare;

impl Play<Slot, Sight> for Compare {
    ghost use Rattle.zone_desk.specs.Plays.{Compares};

    ghost then = { Compares };
}
