ghost use Rattle.std.specs.Prelude.{◌≡◌, ◌≤◌, ◌+◌, length, take, drop};
ghost use Rattle.zns_types.specs.Fields.{field};

use byteorder::{ByteOrder, LittleEndian};
use sqe_codec::Sqe;

/// The little-endian number in the two bytes at `place`.
pub fn u16_at(bytes: &[u8], place: usize) -> u16
    requires { place + 2 ≤ length bytes.now }
    ensures { result ≡ field place 2 bytes.now }
{
    LittleEndian::read_u16(&bytes[place..])
}

/// The little-endian number in the four bytes at `place`.
pub fn u32_at(bytes: &[u8], place: usize) -> u32
    requires { place + 4 ≤ length bytes.now }
    ensures { result ≡ field place 4 bytes.now }
{
    LittleEndian::read_u32(&bytes[place..])
}

/// The little-endian number in the eight bytes at `place`.
pub fn u64_at(bytes: &[u8], place: usize) -> u64
    requires { place + 8 ≤ length bytes.now }
    ensures { result ≡ field place 8 bytes.now }
{
    LittleEndian::read_u64(&bytes[place..])
}

/// The submission queue entry in the 64 bytes at `place`.
pub fn sqe_at(bytes: &[u8], place: usize) -> Sqe
    requires { place + 64 ≤ length bytes.now }
    ensures { result.bytes ≡ take 64 (drop place bytes.now) }
{
    let mut entry = [0; 64];
    entry.copy_from_slice(&bytes[place..place + 64]);
    Sqe { bytes: entry }
}
