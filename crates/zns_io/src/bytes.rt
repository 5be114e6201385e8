ghost use Rattle.std.specs.Prelude.{◌≡◌, ℕ, List, [], IfOk, replicate};

use crate::no_memory::NoMemory;
use std::alloc::Global;
use std::marker::Model;

/// Bytes, seen as a list.
#[derive(Drop)]
pub struct Bytes {
    items: Vec<u8>,
}

impl Model for Bytes {
    ghost Value = { List ℕ };

    ghost view = { λ b. b.items.items };
}

impl Bytes {
    /// No bytes. `alloc` is kept, but nothing is allocated.
    pub fn empty(alloc: Global) -> Bytes
        ensures { result ≡ [] }
    {
        Bytes {
            items: Vec::new(alloc),
        }
    }

    /// The bytes of a vector.
    pub fn from_vec(from: Vec<u8>) -> Bytes
        ensures { result ≡ from.items }
    {
        Bytes { items: from }
    }

    /// The vector of the bytes.
    pub fn into_vec(self) -> Vec<u8>
        ensures { result.items ≡ self }
    {
        let Bytes { items } = self;
        items
    }

    /// A copy of `from`.
    pub fn of(alloc: Global, from: &[u8]) -> Result<Bytes, NoMemory>
        ensures { IfOk result (λ b. b ≡ from.now) }
    {
        let items = Vec::from_slice(alloc, from)?;
        Ok(Bytes { items })
    }

    /// `len` bytes, each equal to `byte`.
    pub fn filled(alloc: Global, len: u32, byte: u8) -> Result<Bytes, NoMemory>
        ensures { IfOk result (λ b. b ≡ replicate len byte) }
    {
        let items = vec![in alloc; byte; len as usize]?;
        Ok(Bytes { items })
    }

    /// The bytes.
    pub fn as_slice(&self) -> &[u8]
        ensures { result.now ≡ self.now }
    {
        &self.items
    }
}
