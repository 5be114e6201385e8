ghost use Rattle.std.specs.Prelude.{◌≡◌, ◌<◌, ◌↔◌, [], IsTrue, length, slice_index};

use std::marker::Model;

/// The queue of each act, in the order in which the acts were served.
#[derive(Drop)]
pub struct Order {
    queues: Vec<u16>,
}

impl Model for Order {
    ghost use Rattle.std.specs.Prelude.{ℕ, ◌<◌, ◌^◌, List, vec_len};

    ghost Value = { List ℕ };

    ghost view = { λ o. o.queues.items };

    ghost invariant = { λ o. vec_len o.queues < 2 ^ 32 };
}

impl Order {
    ghost use Rattle.std.specs.Prelude.{◌^◌, vec_len};

    /// The order that names these queues.
    pub fn from_vec(queues: Vec<u16>) -> Order
        requires { vec_len queues < 2 ^ 32 }
        ensures { result ≡ queues.items }
    {
        Order { queues }
    }

    /// The number of acts.
    pub fn len(&self) -> u32
        ensures { result ≡ length self.now }
    {
        self.queues.len() as u32
    }

    /// Whether there are no acts.
    pub fn is_empty(&self) -> bool
        ensures { IsTrue result ↔ (self.now ≡ []) }
    {
        self.queues.is_empty()
    }

    /// The queue of the act at `number`, counted from 0.
    pub fn queue(&self, number: u32) -> u16
        requires { number < length self.now }
        ensures { result ≡ slice_index self.now number }
    {
        self.queues[number as usize]
    }
}
