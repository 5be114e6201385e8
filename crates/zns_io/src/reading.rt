ghost use Rattle.std.specs.Prelude.{◌≡◌, ℕ, ◌+◌, ◌<◌, ◌≤◌, ◌^◌, List, length, IfOk, OnOk, IsErrOf};
ghost use Rattle.std.specs.Io.KnownBytes.{IsAtEnd};
ghost use Rattle.zns_io.specs.Faults.{Rose};
ghost use Rattle.zns_io.specs.Reading.{ReadsInTurn, ReadsAll, ReadsFront, ReadsFrontUpTo, IsByLimit};

use crate::bytes::Bytes;
use crate::read_err::ReadErr;
use crate::source::Source;
use std::alloc::Global;

// The most bytes that one read may give.
const PIECE: usize = 65536;

/// Reads a source to its end, unless more than `limit` bytes come. At most `limit + 1` bytes are
/// read.
pub fn read_all<S: Source>(alloc: Global, source: &mut S, limit: u64) -> Result<Bytes, ReadErr>
    requires { limit < 2 ^ 63 }
    // The bytes read and the bytes left, if the source tells them.
    ensures all { IfOk result (ReadsAll (S.left source.old) (S.left source.new)) }
    ensures end { OnOk result (IsAtEnd (S.left source.new)) }
    ensures limit { IfOk result (λ bytes. length bytes ≤ limit) }
    ensures over { IsErrOf result ReadErr.Over
        → ReadsFront (S.left source.old) (S.left source.new) (limit + 1) }
    ensures by_limit { IsByLimit (S.left source.old) limit result }
    ensures at_most { ReadsFrontUpTo (S.left source.old) (S.left source.new) (limit + 1) }

    // Reading ends at the first read that gives nothing or fails.
    ensures turns { ReadsInTurn S.step source.old limit result source.new }

    // Every fault is counted.
    ensures fault { IsErrOf result ReadErr.Failed
        → Rose (S.faults source.old) (S.faults source.new) }
    ensures never_falls { S.faults source.old ≤ S.faults source.new }
{
    let mut all = Vec::new(alloc);
    let mut piece = [0; PIECE];
    while all.len() as u64 <= limit {
        let room = (limit - all.len() as u64 + 1).min(PIECE as u64) as usize;
        let count = source.read(&mut piece[..room])?;
        if count == 0 {
            return Ok(Bytes::from_vec(all));
        }
        all.extend_from_slice(&piece[..count])?;
    }
    Err(ReadErr::Over)
}
