ghost use Rattle.std.specs.Prelude.{◌≡◌};
ghost use Rattle.zns_types.specs.Fields.{dword, long};
ghost use Rattle.sqe_codec.specs.Writing as spelled;

use crate::sqe::Sqe;
use byteorder::{ByteOrder, LittleEndian};

/// The first dword of an entry.
pub fn first(opcode: u8, cid: u16) -> u32
    ensures { result ≡ spelled.first_dword opcode cid }
{
    u32::from(opcode) + (u32::from(cid) << 16)
}

/// An entry with an LBA in dwords 10 and 11.
pub fn lba_entry(first: u32, nsid: u32, lba: u64, length: u32, how: u32) -> Sqe
    ensures bytes { result.bytes ≡ spelled.lba_entry first nsid lba length how }
    ensures first { dword 0 result.bytes ≡ first }
    ensures nsid { dword 1 result.bytes ≡ nsid }
    ensures lba { long 10 result.bytes ≡ lba }
    ensures length { dword 12 result.bytes ≡ length }
    ensures how { dword 13 result.bytes ≡ how }
{
    let mut bytes = [0; 64];
    LittleEndian::write_u32(&mut bytes, first);
    LittleEndian::write_u32(&mut bytes[4..], nsid);
    LittleEndian::write_u64(&mut bytes[40..], lba);
    LittleEndian::write_u32(&mut bytes[48..], length);
    LittleEndian::write_u32(&mut bytes[52..], how);
    Sqe { bytes }
}

/// An entry with an offset in dwords 12 and 13.
pub fn page_entry(first: u32, nsid: u32, what: u32, value: u32, offset: u64) -> Sqe
    ensures bytes { result.bytes ≡ spelled.page_entry first nsid what value offset }
    ensures first { dword 0 result.bytes ≡ first }
    ensures nsid { dword 1 result.bytes ≡ nsid }
    ensures what { dword 10 result.bytes ≡ what }
    ensures value { dword 11 result.bytes ≡ value }
    ensures offset { long 12 result.bytes ≡ offset }
{
    let mut bytes = [0; 64];
    LittleEndian::write_u32(&mut bytes, first);
    LittleEndian::write_u32(&mut bytes[4..], nsid);
    LittleEndian::write_u32(&mut bytes[40..], what);
    LittleEndian::write_u32(&mut bytes[44..], value);
    LittleEndian::write_u64(&mut bytes[48..], offset);
    Sqe { bytes }
}
