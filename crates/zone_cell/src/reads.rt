ghost use Rattle.std.specs.Prelude.{◌≡◌, ◌+◌, ◌*◌, ◌≤◌, length};
ghost use Rattle.zone_cell.specs.Cells.{IsOf, seen_at, bytes_at};

use crate::cell::ZoneCell;
use zns_types::Geometry;

impl ZoneCell {
    /// Fills `out` with the bytes of `count` blocks starting at offset `from`. Blocks that haven't
    /// been written since the last reset, and blocks between the capacity and the zone's size, read
    /// as zeros.
    pub fn get(&self, g: &Geometry, from: u64, count: u32, out: &mut [u8])
        requires kept { IsOf g.now.fields self.now }
        requires within { from + count ≤ g.now.fields.zone_size }
        requires room { length out.old ≡ count * self.now.block_len }
        ensures { out.new ≡ bytes_at self.now from count }
    {
        if let Some(bytes) = self.run(from, count) {
            out.copy_from_slice(bytes);
            return;
        }
        let len = self.block_len() as usize;
        for i in 0..count as usize {
            self.get_block(from + i as u64, &mut out[i * len..(i + 1) * len]);
        }
    }

    // Fills `out` with the bytes of one block.
    fn get_block(&self, block: u64, out: &mut [u8])
        requires { length out.old ≡ self.now.block_len }
        ensures { out.new ≡ seen_at self.now block }
    {
        match self.block(block) {
            Some(bytes) => out.copy_from_slice(bytes),
            None => out.fill(0),
        }
    }
}
