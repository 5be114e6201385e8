ghost use Rattle.std.specs.Prelude.{◌≡◌, ◌+◌, ◌*◌, ◌<◌, ◌≤◌, ◌^◌, ◌||◌, IfOk, length, None, slice_index_or, option_copied, is_some, IfSome, IsSome, map};
ghost use Rattle.zns_types.specs.declared.fields.GeometryFields.{GeometryFields};
ghost use Rattle.zns_types.specs.Geometry.{block_len};
ghost use Rattle.zone_cell.specs.Cells.{IsOf, IsBlocks, fresh, after_reset, in_state, with_note, with_data, count_of, bytes_at, AreWritten, HoldsBlocks, attributes_of};

use crate::laying::lay;
use std::alloc::Global;
use std::marker::Model;
use written_blocks::Written;
use zns_io::NoMemory;
use zns_types::{Geometry, State};

/// One zone: its state, its write pointer, and the blocks written since its last reset.
#[derive(Drop)]
pub struct ZoneCell {
    zone: u32,
    block_len: u32,
    state: State,
    pointer: u64,
    window: bool,
    finished: bool,
    finish_recommended: bool,
    reset_recommended: bool,
    // The blocks one after another, up to the last that was ever written, with room for all. The
    // bytes of a block that isn't marked have no meaning. Memory beyond the written blocks stays
    // untouched.
    bytes: Vec<u8>,
    written: Written,
}

impl Model for ZoneCell {
    ghost use Rattle.std.specs.Prelude.{vec_len, vec_capacity};
    ghost use Rattle.zone_cell.specs.Cells.{Cell};
    ghost use Rattle.zone_cell.specs.Kept.{kept_blocks, IsSound};

    ghost Value = { Cell };

    ghost view = { λ c. record { zone = c.zone; block_len = c.block_len; state = c.state; pointer = c.pointer; window = c.window; finished = c.finished; finish_recommended = c.finish_recommended; reset_recommended = c.reset_recommended; blocks = kept_blocks c.block_len c.bytes.items c.written } };

    ghost invariant = { λ c. IsSound c.block_len c.pointer (vec_len c.bytes)
        (vec_capacity c.bytes) c.written };
}

/// The total size in bytes of the blocks of a zone that can be written.
pub(crate) fn all_bytes(g: &Geometry) -> usize
    ensures exact { result ≡ g.now.fields.capacity * block_len g.now.fields }
    ensures small { result ≤ 2 ^ 28 }
    ensures few_blocks { g.now.fields.capacity ≤ 2 ^ 28 }
{
    g.fields().capacity as usize * g.block_len() as usize
}

impl ZoneCell {
    /// A new zone.
    pub fn new(alloc: Global, g: &Geometry, zone: u32) -> Result<ZoneCell, NoMemory>
        requires { zone < g.now.fields.zones }
        ensures fresh { IfOk result (λ c. c ≡ fresh g.now.fields zone) }
        ensures kept { IfOk result (λ c. IsOf g.now.fields c) }
    {
        let bytes = Vec::with_capacity(alloc, all_bytes(g))?;
        let written = Written::new(alloc, g.fields().capacity as u32)?;
        Ok(ZoneCell {
            zone,
            block_len: g.block_len(),
            state: State::Empty,
            pointer: 0,
            window: false,
            finished: false,
            finish_recommended: false,
            reset_recommended: false,
            bytes,
            written,
        })
    }

    /// The zone's number.
    pub fn zone(&self) -> u32
        ensures { result ≡ self.now.zone }
    {
        self.zone
    }

    /// The zone's state.
    pub fn state(&self) -> State
        ensures { result ≡ self.now.state }
    {
        self.state
    }

    /// The write pointer, in blocks from the start of the zone. It is kept in every state.
    pub fn pointer(&self) -> u64
        ensures exact { result ≡ self.now.pointer }
        ensures within { result ≤ length self.now.blocks }
        ensures small { result ≤ 2 ^ 28 }
    {
        self.pointer
    }

    /// Whether the zone has a random write area.
    pub fn has_window(&self) -> bool
        ensures { result ≡ self.now.window }
    {
        self.window
    }

    /// The attribute bits of a zone descriptor: finished by the controller, finish recommended,
    /// reset recommended, and having a random write area.
    pub(crate) fn attributes(&self) -> u8
        ensures { result ≡ attributes_of self.now }
    {
        u8::from(self.finished)
            + 2 * u8::from(self.finish_recommended)
            + 4 * u8::from(self.reset_recommended)
            + 8 * u8::from(self.window)
    }

    /// The length of a block in bytes.
    pub(crate) fn block_len(&self) -> u32
        ensures exact { result ≡ self.now.block_len }
        ensures some { 1 ≤ result }
        ensures small { result ≤ 4096 }
    {
        self.block_len
    }

    // The index of a block's first byte.
    fn place(&self, block: u64) -> usize
        requires { block ≤ length self.now.blocks }
        ensures exact { result ≡ block * self.now.block_len }
        ensures small { result ≤ 2 ^ 28 }
    {
        block as usize * self.block_len as usize
    }

    /// Puts the zone into `state`, with its pointer at `pointer`. Whatever the state has no use for
    /// ends.
    pub(crate) fn lead(&mut self, state: State, pointer: u64)
        requires { pointer ≤ length self.old.blocks }
        ensures { self.new ≡ in_state state pointer self.old }
    {
        self.state = state;
        self.pointer = pointer;
        self.window = self.window && state.is_active();
        self.finished = self.finished && state.is_writable();
        self.finish_recommended = self.finish_recommended && state.is_active();
        self.reset_recommended = self.reset_recommended && state.is_writable();
    }

    /// Gives the zone a random write area if `asked`.
    pub(crate) fn give_window(&mut self, asked: bool)
        ensures { self.new ≡ record self.old { window = self.old.window || asked } }
    {
        self.window |= asked;
    }

    /// Records what an excursion of `kind` recommends, or that it finished the zone.
    pub(crate) fn note(&mut self, kind: u8)
        ensures { self.new ≡ with_note kind self.old }
    {
        self.finished |= kind == 1;
        self.finish_recommended |= kind == 2;
        self.reset_recommended |= kind == 3;
    }

    /// Makes the zone Empty, as after a reset.
    pub fn clear(&mut self)
        ensures reset { self.new ≡ after_reset self.old }
        ensures kept { (g : GeometryFields) → IsOf g self.old → IsOf g self.new }
    {
        self.state = State::Empty;
        self.pointer = 0;
        self.window = false;
        self.finished = false;
        self.finish_recommended = false;
        self.reset_recommended = false;
        self.written.clear();
    }

    /// Stores host data in the blocks starting at offset `from`.
    pub(crate) fn store(&mut self, from: u64, payload: &[u8])
        requires blocks { IsBlocks self.old.block_len payload.now }
        requires within { from + count_of self.old payload.now ≤ length self.old.blocks }
        ensures { self.new ≡ with_data from payload.now self.old }
    {
        let count = payload.len() / self.block_len as usize;
        let place = self.place(from);
        lay(&mut self.bytes, place, payload);
        self.written.mark(from as u32, count as u32);
    }

    // Whether a block has been written since the last reset.
    fn is_written(&self, block: u64) -> bool
        ensures { result ≡ is_some (slice_index_or self.now.blocks block None) }
    {
        block < u64::from(self.written.len()) && self.written.is_written(block as u32)
    }

    /// The bytes of a block, if it was written.
    pub(crate) fn block(&self, block: u64) -> Option<&[u8]>
        ensures bytes { option_copied result ≡ slice_index_or self.now.blocks block None }
        ensures len { IfSome result (λ bytes. length bytes.now ≡ self.now.block_len) }
    {
        if !self.is_written(block) {
            return None;
        }
        Some(&self.bytes[self.place(block)..self.place(block + 1)])
    }

    /// The bytes of `count` blocks starting at offset `from`, if all of them were written.
    pub(crate) fn run(&self, from: u64, count: u32) -> Option<&[u8]>
        requires { from < 2 ^ 32 }
        ensures bytes { IfSome result (λ bytes. bytes.now ≡ bytes_at self.now from count) }
        ensures len { IfSome result (λ bytes. length bytes.now ≡ count * self.now.block_len) }
        ensures whole { 1 ≤ count → AreWritten self.now from count → IsSome result }
    {
        let end = from + u64::from(count);
        if count == 0 || end > u64::from(self.written.len()) {
            return None;
        }
        let holes = self.written.holes(from as u32, end as u32);
        if holes > 0 {
            return None;
        }
        Some(&self.bytes[self.place(from)..self.place(end)])
    }

    /// Fills `out` with all blocks, one after another. The bytes of a block that wasn't written
    /// have no meaning.
    pub fn bytes(&self, g: &Geometry, out: &mut [u8])
        requires of { IsOf g.now.fields self.now }
        requires room { length out.old ≡ g.now.fields.capacity * block_len g.now.fields }
        ensures { HoldsBlocks self.now out.new }
    {
        let (laid, rest) = out.split_at_mut(self.bytes.len());
        laid.copy_from_slice(&self.bytes);
        rest.fill(0);
    }

    /// Which blocks have been written since the last reset.
    pub fn written(&self) -> &Written
        ensures { result.now ≡ map is_some self.now.blocks }
    {
        &self.written
    }
}
