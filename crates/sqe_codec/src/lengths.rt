ghost use Rattle.std.specs.Prelude.{◌≡◌, ◌≤◌, ◌^◌};
ghost use Rattle.zns_types.specs.Geometry.{greatest_transfer};
ghost use Rattle.sqe_codec.specs.Commands as spelled;

use crate::cmd::Cmd;
use crate::reading::read;
use crate::sqe::Sqe;
use zns_types::Geometry;

/// The number of bytes of host data that an entry brings: those of the blocks of a Write or an
/// Append.
pub fn transfer_len(g: &Geometry, admin: bool, sqe: &Sqe) -> u32
    ensures exact { result
        ≡ spelled.transfer_len g.now.fields (spelled.command admin sqe.now.bytes) }
    ensures small { result ≤ 2 ^ 28 }
{
    match read(sqe, admin) {
        Cmd::Write { blocks, .. } | Cmd::Append { blocks, .. } => blocks * g.block_len(),
        _ => 0,
    }
}

// The number of bytes that a command asks for.
fn asked_len(g: &Geometry, cmd: Cmd) -> u64
    ensures { result ≡ spelled.asked_len g.now.fields cmd }
{
    match cmd {
        Cmd::Read { blocks, .. } => u64::from(blocks) * u64::from(g.block_len()),
        Cmd::Receive { bytes, .. } | Cmd::GetLog { bytes, .. } => bytes,
        Cmd::Identify { .. } => 4_096,
        _ => 0,
    }
}

/// The number of bytes that an entry asks for, or 0 if that is more than one command may move.
pub fn reply_len(g: &Geometry, admin: bool, sqe: &Sqe) -> u32
    ensures exact { result ≡ spelled.reply_len g.now.fields (spelled.command admin sqe.now.bytes) }
    ensures within { result ≤ greatest_transfer g.now.fields }
    ensures small { result ≤ 2 ^ 28 }
{
    let asked = asked_len(g, read(sqe, admin));
    if asked > g.greatest_transfer() {
        0
    } else {
        asked as u32
    }
}
