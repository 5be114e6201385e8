ghost use Rattle.std.specs.Prelude.{◌≡◌, ℕ, ◌↔◌, IfOk, IfErr, IsErr, IsTrue, Ok, false, slice_index};
ghost use Rattle.cqe_codec.specs.Entries.{entry_bytes, sets_unused, Spells, FitsEntry};
ghost use Rattle.cqe_codec.specs.declared.cqe.Cqe.{Cqe};

use crate::cqe::Cqe;
use crate::cqe_err::CqeErr;
use byteorder::{ByteOrder, LittleEndian};
use zns_types::Code;

// The fields of an entry that sets no reserved bits.
fn fields_of(bytes: &[u8; 16]) -> Cqe
    requires { sets_unused bytes.now ≡ false }
    ensures spells { Spells bytes.now result }
    ensures only { (c : Cqe) → Spells bytes.now c → result ≡ c }
{
    let queue = LittleEndian::read_u32(&bytes[8..]);
    let status = LittleEndian::read_u32(&bytes[12..]);
    Cqe {
        dw0: LittleEndian::read_u32(bytes),
        dw1: LittleEndian::read_u32(&bytes[4..]),
        head: (queue & 0xffff) as u16,
        sqid: (queue >> 16) as u16,
        cid: (status & 0xffff) as u16,
        phase: (status >> 16) & 1 == 1,
        code: Code {
            sct: ((status >> 25) & 7) as u8,
            sc: ((status >> 17) & 0xff) as u8,
        },
        dnr: status >> 31 == 1,
    }
}

/// The fields of an entry. An entry that sets the Command Retry Delay or the More bit is refused,
/// and the error holds its last byte.
pub fn read(bytes: &[u8; 16]) -> Result<Cqe, CqeErr>
    ensures spells { IfOk result (Spells bytes.now) }
    ensures only { (c : Cqe) → Spells bytes.now c → result ≡ Ok c }
    ensures same_bytes { IfOk result (λ c. entry_bytes c ≡ bytes.now) }
    ensures written { (c : Cqe) → FitsEntry c → entry_bytes c ≡ bytes.now → result ≡ Ok c }
    ensures refused { IsErr result ↔ IsTrue (sets_unused bytes.now) }
    ensures byte { IfErr result (λ e. e ≡ CqeErr.Reserved (slice_index bytes.now 15)) }
{
    let status = LittleEndian::read_u32(&bytes[12..]);
    if (status >> 28) & 7 != 0 {
        return Err(CqeErr::Reserved(bytes[15]));
    }
    Ok(fields_of(bytes))
}
