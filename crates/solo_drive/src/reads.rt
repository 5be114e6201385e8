ghost use Rattle.std.specs.Prelude.{◌≡◌, ◌+◌, ◌*◌, ◌≤◌, length, All};
ghost use Rattle.zns_types.specs.Geometry.{block_len, all_blocks};
ghost use Rattle.zone_cell.specs.Cells.{IsOf};
ghost use Rattle.solo_drive.specs.Reading.{has_offline, blocks_from, CellsReach, ReadServed};

use drive_book::Outcome;
use zns_types::{Code, Geometry};
use zone_cell::ZoneCell;

// Whether one of `count` zones, starting at `from`, is Offline.
fn any_offline(cells: &[ZoneCell], from: usize, count: usize) -> bool
    requires { from + count ≤ length cells.now }
    ensures { result ≡ has_offline cells.now from count }
{
    for place in from..from + count {
        if cells[place].state().is_offline() {
            return true;
        }
    }
    false
}

// Fills `out` with the bytes of `blocks` blocks. The first cell is that of zone `first`.
fn copy_blocks(cells: &[ZoneCell], g: &Geometry, first: u32, slba: u64, blocks: u32, out: &mut [u8])
    requires of { All (IsOf g.now.fields) cells.now }
    requires within { slba + blocks ≤ all_blocks g.now.fields }
    requires reach { CellsReach g.now.fields first cells.now slba blocks }
    requires room { length out.old ≡ blocks * block_len g.now.fields }
    ensures { out.new ≡ blocks_from g.now.fields first cells.now slba blocks }
{
    let len = g.block_len() as usize;
    for i in 0..blocks as usize {
        let lba = slba + i as u64;
        let cell = &cells[(g.zone_of(lba) - first) as usize];
        cell.get(g, g.offset_of(lba), 1, &mut out[i * len..(i + 1) * len]);
    }
}

/// Serves a Read that none of its front rows refuses, from lent cells, the first of which is that
/// of zone `first`.
pub fn read_blocks(
    cells: &[ZoneCell],
    g: &Geometry,
    first: u32,
    slba: u64,
    blocks: u32,
    out: &mut [u8],
) -> Outcome
    requires some { 1 ≤ blocks }
    requires few { blocks ≤ 65536 }
    requires of { All (IsOf g.now.fields) cells.now }
    requires within { slba + blocks ≤ all_blocks g.now.fields }
    requires reach { CellsReach g.now.fields first cells.now slba blocks }
    requires room { blocks * block_len g.now.fields ≤ length out.old }
    ensures { ReadServed g.now.fields first cells.now slba blocks out.old out.new result }
{
    let from = g.zone_of(slba);
    let to = g.zone_of(slba + u64::from(blocks) - 1);
    if any_offline(cells, (from - first) as usize, (to + 1 - from) as usize) {
        return Outcome::refused(Code::ZONE_OFFLINE);
    }
    let len = blocks * g.block_len();
    copy_blocks(cells, g, first, slba, blocks, &mut out[..len as usize]);
    Outcome {
        len,
        ..Outcome::done()
    }
}
