ghost use Rattle.std.specs.Prelude.{◌≡◌, ◌+◌, ◌<◌, List, [], ◌∷◌, ◌++◌, length, IfOk, IsTrue, ◌↔◌, slice_index_or};
ghost use Rattle.zone_model.specs.Kept.{KeptActs};
ghost use Rattle.zone_model.specs.declared.act.Act.{Act};

use crate::act::Act;
use std::alloc::Global;
use std::marker::Model;
use zns_io::NoMemory;

/// Acts in order, with room for more.
#[derive(Drop)]
pub struct Acts {
    acts: Vec<Act>,
    room: u32,
}

impl Model for Acts {
    ghost use Rattle.std.specs.Prelude.{◌+◌, ◌^◌, ◌<◌, ◌≤◌, vec_len, vec_capacity};
    ghost use Rattle.zone_model.specs.Kept.{KeptActs};

    ghost Value = { KeptActs };

    ghost view = { λ l. record { acts = l.acts.items; spare = l.room } };

    ghost invariant = { λ l. (vec_len l.acts + l.room ≤ vec_capacity l.acts) × (vec_len l.acts + l.room < 2 ^ 32) };
}

impl Acts {
    /// An empty list with room for `room` acts.
    pub fn new(alloc: Global, room: u32) -> Result<Acts, NoMemory>
        ensures { IfOk result (λ l. l ≡ record { acts = []; spare = room }) }
    {
        let acts = Vec::with_capacity(alloc, room as usize)?;
        Ok(Acts { acts, room })
    }

    /// Appends an act.
    pub fn push(&mut self, act: Act)
        requires { 0 < self.old.spare }
        ensures acts { self.new.acts ≡ self.old.acts ++ act ∷ [] }
        ensures spare { self.new.spare + 1 ≡ self.old.spare }
    {
        self.room -= 1;
        if self.acts.push(act).is_err() {
            unreachable!();
        }
    }

    /// The number of further acts that there is room for.
    pub fn spare(&self) -> u32
        ensures { result ≡ self.now.spare }
    {
        self.room
    }

    /// The number of acts.
    pub fn len(&self) -> u32
        ensures { result ≡ length self.now.acts }
    {
        self.acts.len() as u32
    }

    /// Whether there are no acts.
    pub fn is_empty(&self) -> bool
        ensures { IsTrue result ↔ (self.now.acts ≡ []) }
    {
        self.acts.is_empty()
    }

    /// The act at index `number`, counted from 0.
    pub fn act(&self, number: u32) -> &Act
        requires { number < length self.now.acts }
        ensures { (d : Act) → result.now ≡ slice_index_or self.now.acts number d }
    {
        &self.acts[number as usize]
    }

    /// The acts, in order.
    pub fn into_vec(self) -> Vec<Act>
        ensures { result.items ≡ self.acts }
    {
        let Acts { acts, room: _ } = self;
        acts
    }
}
