ghost use Rattle.std.specs.Prelude.{◌≡◌, Bool};
ghost use Rattle.sqe_codec.specs.Commands.{command, cid_of};
ghost use Rattle.sqe_codec.specs.Ranges.{IsWritable};
ghost use Rattle.sqe_codec.specs.Writing.{entry_of, is_admin, IsUnknown};

use crate::cmd::Cmd;
use crate::entries::{excursion, identify, log_page, receive, send, set_feature};
use crate::layouts::{first, lba_entry, page_entry};
use crate::sqe::Sqe;

/// The entry that spells a command, with zeros in every field that isn't read. Lengths must be in
/// range: 1 to 65,536 blocks, or whole dwords of 4 to 2^34 bytes. The opcode of an unknown command
/// must not be listed for either kind of queue.
#[tactic(auto, unfolding(crate::specs::Commands::io_command, crate::specs::Commands::admin_command))]
pub fn write(cmd: &Cmd, cid: u16) -> Sqe
    requires { IsWritable cmd.now }
    ensures bytes { result.bytes ≡ entry_of cmd.now cid }
    ensures command { command (is_admin cmd.now) result.bytes ≡ cmd.now }
    ensures unknown { IsUnknown cmd.now → (admin : Bool) → command admin result.bytes ≡ cmd.now }
    ensures cid { cid_of result.bytes ≡ cid }
{
    match *cmd {
        Cmd::Flush { nsid } => lba_entry(first(0x00, cid), nsid, 0, 0, 0),
        Cmd::Write { nsid, slba, blocks } => lba_entry(first(0x01, cid), nsid, slba, blocks - 1, 0),
        Cmd::Read { nsid, slba, blocks } => lba_entry(first(0x02, cid), nsid, slba, blocks - 1, 0),
        Cmd::Append {
            nsid,
            zslba,
            blocks,
        } => lba_entry(first(0x7d, cid), nsid, zslba, blocks - 1, 0),
        Cmd::Send {
            nsid,
            slba,
            action,
            all,
            option,
        } => send(cid, nsid, slba, action, all, option),
        Cmd::Receive {
            nsid,
            slba,
            bytes,
            action,
            filter,
            partial,
        } => receive(cid, nsid, slba, bytes, action, filter, partial),
        Cmd::GetLog {
            nsid,
            page,
            bytes,
            offset,
            retain,
        } => log_page(cid, nsid, page, bytes, offset, retain),
        Cmd::Identify { nsid, cns, csi } => identify(cid, nsid, cns, csi),
        Cmd::SetFeature { feature, value } => set_feature(cid, feature, value),
        Cmd::GetFeature { feature } => page_entry(first(0x0a, cid), 0, u32::from(feature), 0, 0),
        Cmd::Event => page_entry(first(0x0c, cid), 0, 0, 0, 0),
        Cmd::Excursion { nsid, slba, kind } => excursion(cid, nsid, slba, kind),
        Cmd::Unknown { opcode } => lba_entry(first(opcode, cid), 0, 0, 0, 0),
    }
}
