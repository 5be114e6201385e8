ghost use Rattle.std.specs.Prelude.{◌≡◌, ◌≤◌, ◌++◌, length, take, replicate};
ghost use Rattle.byteorder.specs.Endian.{little_bytes};

use byteorder::{ByteOrder, LittleEndian};

/// Fills `out` with the head of a report of `number` zones, or with its first bytes.
pub fn write_head(number: u64, out: &mut [u8])
    requires { length out.old ≤ 64 }
    ensures { out.new ≡ take (length out.old) (little_bytes 8 number ++ replicate 56 0) }
{
    let mut head = [0; 64];
    LittleEndian::write_u64(&mut head, number);
    out.copy_from_slice(&head[..out.len()]);
}
