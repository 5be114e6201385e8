ghost use Rattle.std.specs.Prelude.{◌≡◌, ℕ, ◌+◌, ◌*◌, ◌^◌, ◌<◌, ◌++◌};
ghost use Rattle.byteorder.specs.Endian.{little_bytes};
ghost use Rattle.cqe_codec.specs.Entries.{entry_bytes, status_dword, Spells, SpellsStatus};

use crate::cqe::Cqe;
use byteorder::{ByteOrder, LittleEndian};

// The last dword of an entry.
fn status_of(cqe: Cqe) -> u32
    ensures exact { result ≡ status_dword cqe }
    ensures spells { SpellsStatus result cqe }
{
    let code = cqe.code;
    let mut status = u32::from(cqe.cid);
    status += u32::from(cqe.phase) << 16;
    status += u32::from(code.sc) << 17;
    status += u32::from(code.sct) << 25;
    status + (u32::from(cqe.dnr) << 31)
}

// An entry of these fields, one after another.
fn entry(dw0: u32, dw1: u32, head: u16, sqid: u16, status: u32) -> [u8; 16]
    ensures { result
        ≡ little_bytes 4 dw0 ++ little_bytes 4 dw1 ++ little_bytes 2 head
        ++ little_bytes 2 sqid ++ little_bytes 4 status }
{
    let mut bytes = [0; 16];
    LittleEndian::write_u32(&mut bytes, dw0);
    LittleEndian::write_u32(&mut bytes[4..], dw1);
    LittleEndian::write_u16(&mut bytes[8..], head);
    LittleEndian::write_u16(&mut bytes[10..], sqid);
    LittleEndian::write_u32(&mut bytes[12..], status);
    bytes
}

/// The bytes of an entry. The Command Retry Delay and the More bit are zero.
pub fn write(cqe: &Cqe) -> [u8; 16]
    ensures bytes { result ≡ entry_bytes cqe.now }
    ensures spells { Spells result cqe.now }
{
    entry(cqe.dw0, cqe.dw1, cqe.head, cqe.sqid, status_of(*cqe))
}
