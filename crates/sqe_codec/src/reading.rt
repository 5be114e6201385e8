ghost use Rattle.std.specs.Prelude.{◌≡◌, ◌<◌, true, false, length};
ghost use Rattle.sqe_codec.specs.Commands.{command, io_command, admin_command, cid_of, blocks_of, log_bytes_of};
ghost use Rattle.sqe_codec.specs.Reading.{Reads};
ghost use Rattle.sqe_codec.specs.declared.cmd.Cmd.{Cmd};
ghost use Rattle.sqe_codec.specs.Ranges.{HasRanges};

use crate::cmd::Cmd;
use crate::sqe::Sqe;
use crate::words::{bits_of, dword_at, long_at};

// The number of blocks of a Write, a Read or an Append.
fn blocks_at(bytes: &[u8]) -> u32
    requires { length bytes.now ≡ 64 }
    ensures { result ≡ blocks_of bytes.now }
{
    bits_of(dword_at(bytes, 12), 15, 0) + 1
}

// The command of an entry on an I/O queue.
#[tactic(auto, unfolding(crate::specs::Commands::io_command))]
fn read_io(bytes: &[u8]) -> Cmd
    requires { length bytes.now ≡ 64 }
    ensures command { result ≡ io_command bytes.now }
    ensures reads { Reads bytes.now false result }
    ensures ranges { HasRanges result }
{
    let opcode = bits_of(dword_at(bytes, 0), 7, 0) as u8;
    let nsid = dword_at(bytes, 1);
    let slba = long_at(bytes, 10);
    let how = dword_at(bytes, 13);
    match opcode {
        0x00 => Cmd::Flush { nsid },
        0x01 => Cmd::Write {
            nsid,
            slba,
            blocks: blocks_at(bytes),
        },
        0x02 => Cmd::Read {
            nsid,
            slba,
            blocks: blocks_at(bytes),
        },
        0x79 => Cmd::Send {
            nsid,
            slba,
            action: bits_of(how, 7, 0) as u8,
            all: bits_of(how, 8, 8) == 1,
            option: bits_of(how, 9, 9) == 1,
        },
        0x7a => Cmd::Receive {
            nsid,
            slba,
            bytes: 4 * (u64::from(dword_at(bytes, 12)) + 1),
            action: bits_of(how, 7, 0) as u8,
            filter: bits_of(how, 15, 8) as u8,
            partial: bits_of(how, 16, 16) == 1,
        },
        0x7d => Cmd::Append {
            nsid,
            zslba: slba,
            blocks: blocks_at(bytes),
        },
        _ => Cmd::Unknown { opcode },
    }
}

// The number of log page bytes that a Get Log Page asks for.
fn log_bytes_at(bytes: &[u8]) -> u64
    requires { length bytes.now ≡ 64 }
    ensures { result ≡ log_bytes_of bytes.now }
{
    let low = u64::from(bits_of(dword_at(bytes, 10), 31, 16));
    let high = u64::from(bits_of(dword_at(bytes, 11), 15, 0));
    4 * (low + (high << 16) + 1)
}

// The command of an entry on the admin queue.
#[tactic(auto, unfolding(crate::specs::Commands::admin_command))]
fn read_admin(bytes: &[u8]) -> Cmd
    requires { length bytes.now ≡ 64 }
    ensures command { result ≡ admin_command bytes.now }
    ensures reads { Reads bytes.now true result }
    ensures ranges { HasRanges result }
{
    let opcode = bits_of(dword_at(bytes, 0), 7, 0) as u8;
    let nsid = dword_at(bytes, 1);
    let what = dword_at(bytes, 10);
    let low = bits_of(what, 7, 0) as u8;
    match opcode {
        0x02 => Cmd::GetLog {
            nsid,
            page: low,
            bytes: log_bytes_at(bytes),
            offset: long_at(bytes, 12),
            retain: bits_of(what, 15, 15) == 1,
        },
        0x06 => Cmd::Identify {
            nsid,
            cns: low,
            csi: bits_of(dword_at(bytes, 11), 31, 24) as u8,
        },
        0x09 => Cmd::SetFeature {
            feature: low,
            value: dword_at(bytes, 11),
        },
        0x0a => Cmd::GetFeature { feature: low },
        0x0c => Cmd::Event,
        0xc0 => Cmd::Excursion {
            nsid,
            slba: long_at(bytes, 10),
            kind: bits_of(dword_at(bytes, 13), 7, 0) as u8,
        },
        _ => Cmd::Unknown { opcode },
    }
}

/// The command that an entry spells on the admin queue, or on an I/O queue if `admin` is false.
pub fn read(sqe: &Sqe, admin: bool) -> Cmd
    ensures command { result ≡ command admin sqe.now.bytes }
    ensures reads { Reads sqe.now.bytes admin result }
    ensures only { (cmd : Cmd) → Reads sqe.now.bytes admin cmd → cmd ≡ result }
    ensures ranges { HasRanges result }
{
    if admin {
        read_admin(&sqe.bytes)
    } else {
        read_io(&sqe.bytes)
    }
}

/// The command identifier that the host gave the entry.
pub fn cid(sqe: &Sqe) -> u16
    ensures { result ≡ cid_of sqe.now.bytes }
{
    bits_of(dword_at(&sqe.bytes, 0), 31, 16) as u16
}
