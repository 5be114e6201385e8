ghost use Rattle.std.specs.Prelude.{◌≡◌, ◌+◌, ◌-◌, ◌*◌, ◌<◌, ◌≤◌, ◌++◌, take, drop, length, replicate};
ghost use Rattle.std.specs.List.{All};
ghost use Rattle.byteorder.specs.Endian.{little_bytes};
ghost use Rattle.changed_log.specs.Logs.{marked_zones, first_blocks};

use byteorder::{ByteOrder, LittleEndian};
use zns_types::Geometry;

/// How many zones are marked.
pub fn count(marks: &[bool]) -> usize
    ensures number { result ≡ length (marked_zones marks.now) }
    ensures most { result ≤ length marks.now }
{
    let mut number = 0;
    for zone in 0..marks.len() {
        if marks[zone] {
            number += 1;
        }
    }
    number
}

/// Writes `number` into the first 2 bytes, and zeros into all others.
pub fn put_number(out: &mut [u8], number: u16)
    requires { 2 ≤ length out.old }
    ensures { out.new ≡ little_bytes 2 number ++ replicate (length out.old - 2) 0 }
{
    out.fill(0);
    LittleEndian::write_u16(out, number);
}

// Writes `block` into the 8 bytes from `at` on, and leaves all others.
fn put_block(out: &mut [u8], at: usize, block: u64)
    requires { at + 8 ≤ length out.old }
    ensures { out.new ≡ take at out.old ++ (little_bytes 8 block ++ drop (at + 8) out.old) }
{
    out[at..at + 8].copy_from_slice(&block.to_le_bytes());
}

/// Writes the first block of each marked zone, rising, 8 bytes each, from byte 8 on. Leaves the
/// bytes before and after them.
pub fn list_firsts(marks: &[bool], g: &Geometry, out: &mut [u8])
    requires few { length marks.now ≤ 4096 }
    requires zones { All (λ z. z < g.now.fields.zones) (marked_zones marks.now) }
    requires room { 8 + 8 * length (marked_zones marks.now) ≤ length out.old }
    ensures { out.new ≡ take 8 out.old ++ (first_blocks g.now.fields (marked_zones marks.now)
        ++ drop (8 + 8 * length (marked_zones marks.now)) out.old) }
{
    let mut at = 8;
    for zone in 0..marks.len() {
        if marks[zone] {
            put_block(out, at, g.first(zone as u32));
            at += 8;
        }
    }
}
