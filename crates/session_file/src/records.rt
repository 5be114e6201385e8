ghost use Rattle.std.specs.Prelude.{◌≡◌, ◌≤◌, ◌+◌, ◌^◌, ◌==◌, IfOk, OnOk, IfErr, None, Some, length, take, drop};
ghost use Rattle.sqe_codec.specs.Commands.{reply_len as reply_len_of};
ghost use Rattle.zone_model.specs.Places.{command_of};
ghost use Rattle.session_file.specs.Places.{length_at, act_at, next_at};
ghost use Rattle.session_file.specs.FileRules.{record_rows};
ghost use Rattle.session_file.specs.Faults.{NoneBroken, FirstBroken};

use crate::fields::{sqe_at, u16_at, u32_at};
use crate::file_err::{FileErr, Reason, Which, bad, large};
use sqe_codec::{reply_len, transfer_len};
use std::alloc::Global;
use zns_io::{Bytes, NoMemory};
use zns_types::Geometry;
use zone_model::Act;

/// The length of a record without its host data, in bytes.
pub const RECORD_LEN: usize = 72;

// The most bytes that a session's acts can send, and the most that they can ask for.
const MOST_MOVED: u64 = 1 << 27;

/// How far a session has been read.
#[derive(Clone, Copy)]
pub struct Progress {
    /// The offset of the next record.
    pub at: usize,

    /// The bytes of host data in the records before it.
    pub sent: u64,

    /// The bytes that the acts before it ask for.
    pub asked: u64,
}

/// Checks the record at `before.at`. Returns how far the session is read after it; an error names
/// the first broken rule.
#[tactic(auto, unfolding(crate::specs::FileRules::record_rows, crate::specs::Places::act_at, crate::specs::Places::length_at))]
pub fn check_record(g: &Geometry, bytes: &[u8], before: Progress) -> Result<Progress, FileErr>
    requires within { before.at ≤ length bytes.now }
    requires sent { before.sent ≤ 2 ^ 27 }
    requires asked { before.asked ≤ 2 ^ 27 }
    ensures passed { OnOk result
        (NoneBroken (record_rows g.now.fields bytes.now before.at before.sent before.asked)) }
    ensures next { IfOk result (λ after. after.at ≡ next_at before.at bytes.now) }
    ensures within { IfOk result (λ after. after.at ≤ length bytes.now) }
    ensures sent { IfOk result
        (λ after. after.sent ≡ before.sent + length_at before.at bytes.now) }
    ensures asked { IfOk result (λ after. after.asked
        ≡ before.asked + reply_len_of g.now.fields (command_of (act_at before.at bytes.now))) }
    ensures few_sent { IfOk result (λ after. after.sent ≤ 2 ^ 27) }
    ensures few_asked { IfOk result (λ after. after.asked ≤ 2 ^ 27) }
    ensures broken { IfErr result
        (FirstBroken (record_rows g.now.fields bytes.now before.at before.sent before.asked)) }
{
    let at = before.at;
    if bytes.len() < at + RECORD_LEN {
        return Err(bad(Reason::Short, bytes.len()));
    }
    let queue = u16_at(bytes, at);
    if queue >= g.fields.queues {
        return Err(bad(Reason::Queue, at));
    }
    if u16_at(bytes, at + 2) != 0 {
        return Err(bad(Reason::Reserved, at + 2));
    }
    let length = u32_at(bytes, at + 4);
    let sqe = sqe_at(bytes, at + 8);
    if length != transfer_len(g, queue == 0, &sqe) {
        return Err(bad(Reason::Length, at + 4));
    }
    let sent = before.sent + u64::from(length);
    if sent > MOST_MOVED {
        return Err(large(Which::Sent, sent));
    }
    let asked = before.asked + u64::from(reply_len(g, queue == 0, &sqe));
    if asked > MOST_MOVED {
        return Err(large(Which::Replies, asked));
    }
    let next = at + RECORD_LEN + length as usize;
    if bytes.len() < next {
        return Err(bad(Reason::Short, bytes.len()));
    }
    Ok(Progress {
        at: next,
        sent,
        asked,
    })
}

/// The act of the record that begins at `at` and ends at `next`.
#[tactic(auto, unfolding(crate::specs::Places::act_at, crate::specs::Places::length_at))]
pub fn read_act(alloc: Global, bytes: &[u8], at: usize, next: usize) -> Result<Act, NoMemory>
    requires next { next ≡ next_at at bytes.now }
    requires within { next ≤ length bytes.now }
    ensures { IfOk result (λ act. act ≡ act_at at bytes.now) }
{
    let payload = Bytes::of(alloc, &bytes[at + RECORD_LEN..next])?;
    Ok(Act {
        queue: u16_at(bytes, at),
        sqe: sqe_at(bytes, at + 8),
        payload,
    })
}
