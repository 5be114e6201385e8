ghost use Rattle.std.specs.Prelude.{◌≡◌, ℕ, ◌+◌, ◌≤◌, List, ◌++◌, take, length, IfOk, OnOk, IfErr, MatchResult, None};
ghost use Rattle.zone_model.specs.Sessions.{Recorded, IsSession, spells, spelling};
ghost use Rattle.session_file.specs.Places.{acts_from, end_from, session_end};
ghost use Rattle.session_file.specs.FileRules.{records_rows, front_rows, file_rows};
ghost use Rattle.session_file.specs.Faults.{NoneBroken, IsFirstOf, OutOfMemory};

use crate::file_err::{FileErr, Reason};
use crate::header::{HEADER_LEN, read_header};
use crate::records::{Progress, RECORD_LEN, check_record, read_act};
use crate::session::Session;
use std::alloc::Global;
use zns_types::Geometry;
use zone_model::Acts;

// Reads `commands` acts after the header. Returns them and the offset at which the last record
// ends.
fn read_acts(
    alloc: Global,
    g: &Geometry,
    bytes: &[u8],
    commands: u32,
) -> Result<(Acts, usize), FileErr>
    requires header { 64 ≤ length bytes.now }
    requires few { commands ≤ 262144 }
    ensures acts { IfOk result (λ r. r.0.acts ≡ acts_from commands 64 bytes.now) }
    ensures end { IfOk result (λ r. r.1 ≡ end_from commands 64 bytes.now) }
    ensures passed { OnOk result
        (NoneBroken (records_rows commands g.now.fields bytes.now 64 0 0)) }
    ensures broken { IfErr result
        (IsFirstOf (records_rows commands g.now.fields bytes.now 64 0 0)) }
{
    let most = ((bytes.len() - HEADER_LEN) / RECORD_LEN).min(commands as usize);
    let mut acts = Acts::new(alloc, most as u32)?;
    let mut progress = Progress {
        at: HEADER_LEN,
        sent: 0,
        asked: 0,
    };
    for _number in 0..commands {
        let next = check_record(g, bytes, progress)?;
        let act = read_act(alloc, bytes, progress.at, next.at)?;
        acts.push(act);
        progress = next;
    }
    Ok((acts, progress.at))
}

/// The session at the front of `bytes`, and its length in bytes. An error names the first broken
/// rule.
pub fn read_front(alloc: Global, bytes: &[u8]) -> Result<(Session, u64), FileErr>
    ensures session { IfOk result (λ r. IsSession r.0) }
    ensures spelled { IfOk result (λ r. spells r.0 (take r.1 bytes.now)) }
    ensures within { IfOk result (λ r. r.1 ≤ length bytes.now) }
    ensures end { IfOk result (λ r. r.1 ≡ session_end bytes.now) }
    ensures complete { (s : Recorded) (after : List ℕ) → IsSession s
        → bytes.now ≡ spelling s ++ after
        → MatchResult result (λ r. (r.0 ≡ s) × (r.1 ≡ length (spelling s))) OutOfMemory }
    ensures passed { OnOk result (NoneBroken (front_rows bytes.now)) }
    ensures broken { IfErr result (IsFirstOf (front_rows bytes.now)) }
{
    let header = read_header(bytes)?;
    let (acts, end) = read_acts(alloc, &header.geometry, bytes, header.commands)?;
    Ok((Session::new(header.geometry, acts), end as u64))
}

/// The session that `bytes` are. An error names the first broken rule.
pub fn read(alloc: Global, bytes: &[u8]) -> Result<Session, FileErr>
    ensures session { IfOk result IsSession }
    ensures spelled { IfOk result (λ s. spells s bytes.now) }
    ensures complete { (s : Recorded) → IsSession s → spells s bytes.now
        → MatchResult result (λ r. r ≡ s) OutOfMemory }
    ensures passed { OnOk result (NoneBroken (file_rows bytes.now)) }
    ensures broken { IfErr result (IsFirstOf (file_rows bytes.now)) }
{
    let (session, end) = read_front(alloc, bytes)?;
    if end < bytes.len() as u64 {
        return Err(FileErr::Bad {
            reason: Reason::Trailing,
            offset: end,
        });
    }
    Ok(session)
}
