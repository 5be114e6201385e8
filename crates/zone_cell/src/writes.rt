ghost use Rattle.std.specs.Prelude.{◌≡◌, ◌+◌, ◌≤◌, length};
ghost use Rattle.drive_rules.specs.declared.deed.Deed.TheVariants as deed;
ghost use Rattle.drive_rules.specs.Deeds.{Admits};
ghost use Rattle.zone_cell.specs.Cells.{IsOf, IsBlocks, sight, pointer_after, after_write, after_commit};
ghost use Rattle.zone_cell.specs.Deeds.{CanPut, CanAppend};

use crate::cell::ZoneCell;
use crate::states::state_after;
use zns_types::Geometry;
use zone_state::Action;
use zrwa_commit::implicit;

impl ZoneCell {
    // The pointer after a write of `count` blocks starting at offset `from`.
    fn pointer_after(&self, g: &Geometry, from: u64, count: u32) -> u64
        requires kept { IsOf g.now.fields self.now }
        requires admitted { Admits g.now.fields (sight self.now) (deed.Write from count) }
        requires some { 1 ≤ count }
        ensures exact { result ≡ pointer_after g.now.fields self.now count (from + count) }
        ensures within { result ≤ length self.now.blocks }
    {
        let end = from + u64::from(count);
        if self.has_window() {
            implicit(self.pointer(), end, g)
        } else {
            end
        }
    }

    /// Writes host data to the blocks starting at offset `from`.
    pub fn put(&mut self, g: &Geometry, from: u64, payload: &[u8])
        requires kept { IsOf g.now.fields self.old }
        requires blocks { IsBlocks self.old.block_len payload.now }
        requires admitted { CanPut g.now.fields from payload.now self.old }
        ensures done { self.new ≡ after_write g.now.fields from payload.now self.old }
        ensures kept { IsOf g.now.fields self.new }
    {
        let count = payload.len() / self.block_len() as usize;
        let pointer = self.pointer_after(g, from, count as u32);
        let state = state_after(g.fields().capacity, Action::Write, pointer, self.state());
        self.store(from, payload);
        self.lead(state, pointer);
    }

    /// Writes host data to the blocks starting at the pointer, and returns the offset of the first.
    pub fn append(&mut self, g: &Geometry, payload: &[u8]) -> u64
        requires kept { IsOf g.now.fields self.old }
        requires blocks { IsBlocks self.old.block_len payload.now }
        requires admitted { CanAppend g.now.fields payload.now self.old }
        ensures placed { result ≡ self.old.pointer }
        ensures done { self.new ≡ after_write g.now.fields self.old.pointer payload.now self.old }
        ensures kept { IsOf g.now.fields self.new }
    {
        let from = self.pointer();
        self.put(g, from, payload);
        from
    }

    /// Commits the blocks of the random write area up to and including offset `last`.
    pub fn commit(&mut self, g: &Geometry, last: u64)
        requires kept { IsOf g.now.fields self.old }
        requires admitted { Admits g.now.fields (sight self.old) (deed.Commit last) }
        ensures done { self.new ≡ after_commit g.now.fields last self.old }
        ensures kept { IsOf g.now.fields self.new }
    {
        let pointer = last + 1;
        let state = state_after(g.fields().capacity, Action::Commit, pointer, self.state());
        self.lead(state, pointer);
    }
}
