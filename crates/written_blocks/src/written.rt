ghost use Rattle.std.specs.Prelude.{◌≡◌, ◌+◌, ◌<◌, ◌≤◌, ◌^◌, IfOk, false, length, replicate, slice_index_or};
ghost use Rattle.written_blocks.specs.Marks.{marked, holes};

use crate::bits::{count_bits, set_bits};
use std::alloc::Global;
use std::marker::Model;
use zns_io::NoMemory;

/// Which blocks of a zone were written. Contracts see a truth value for each block.
#[derive(Drop)]
pub struct Written {
    blocks: u32,
    words: Vec<u64>,
}

impl Model for Written {
    ghost use Rattle.std.specs.Prelude.{◌≤◌, ◌*◌, Bool, List, vec_len};
    ghost use Rattle.written_blocks.specs.Marks.{marks_of};

    ghost Value = { List Bool };

    ghost view = { λ w. marks_of w.blocks w.words.items };

    ghost invariant = { λ w. w.blocks ≤ 64 * vec_len w.words };
}

impl Written {
    /// `blocks` blocks, none of them written.
    pub fn new(alloc: Global, blocks: u32) -> Result<Written, NoMemory>
        ensures { IfOk result (λ w. w ≡ replicate blocks false) }
    {
        let words = vec![in alloc; 0; blocks.div_ceil(64) as usize]?;
        Ok(Written { blocks, words })
    }

    /// The number of blocks.
    pub fn len(&self) -> u32
        ensures { result ≡ length self.now }
    {
        self.blocks
    }

    /// Marks `count` blocks from `from` on.
    pub fn mark(&mut self, from: u32, count: u32)
        requires { from + count ≤ length self.old }
        ensures after { self.new ≡ marked self.old from count }
        ensures len { length self.new ≡ length self.old }
    {
        let from = from as usize;
        set_bits(&mut self.words, from, from + count as usize);
    }

    /// Whether a block was written.
    pub fn is_written(&self, block: u32) -> bool
        requires { block < length self.now }
        ensures { result ≡ slice_index_or self.now block false }
    {
        let word = self.words[(block / 64) as usize];
        word >> (block % 64) & 1 == 1
    }

    /// How many of the blocks from `from` up to but not including `to` weren't written.
    pub fn holes(&self, from: u32, to: u32) -> u32
        requires order { from ≤ to }
        requires within { to ≤ length self.now }
        ensures { result ≡ holes self.now from to }
    {
        let set = count_bits(&self.words, from as usize, to as usize);
        to - from - set as u32
    }

    /// Unmarks all blocks.
    pub fn clear(&mut self)
        ensures { self.new ≡ replicate (length self.old) false }
    {
        for word in self.words.iter_mut() {
            *word = 0;
        }
    }
}
