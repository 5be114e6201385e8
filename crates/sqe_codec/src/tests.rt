ghost use Rattle.std.specs.Prelude.{IsTrue};
ghost use Rattle.sqe_codec.specs.Ranges.{IsWritable};

use super::*;
use std::process::Abort;
use zns_types::{Geometry, GeometryFields, SMALL_DRIVE};

const ALL: u32 = u32::MAX;

// An entry with these first two dwords and dwords 10 to 13; each byte of the other dwords is
// `rest`.
fn entry(dwords: [u32; 6], rest: u8) -> Sqe {
    let mut bytes = [rest; 64];
    let [first, nsid, ten, eleven, twelve, thirteen] = dwords;
    bytes[0..4].copy_from_slice(&first.to_le_bytes());
    bytes[4..8].copy_from_slice(&nsid.to_le_bytes());
    bytes[40..44].copy_from_slice(&ten.to_le_bytes());
    bytes[44..48].copy_from_slice(&eleven.to_le_bytes());
    bytes[48..52].copy_from_slice(&twelve.to_le_bytes());
    bytes[52..56].copy_from_slice(&thirteen.to_le_bytes());
    Sqe { bytes }
}

fn is_writable(cmd: Cmd) -> bool
    ensures { IsTrue result → IsWritable cmd }
{
    match cmd {
        Cmd::Write { blocks, .. } | Cmd::Read { blocks, .. } | Cmd::Append { blocks, .. } => {
            1 <= blocks && blocks <= 65_536
        }
        Cmd::Receive { bytes, .. } | Cmd::GetLog { bytes, .. } => {
            4 <= bytes && bytes <= 1 << 34 && bytes % 4 == 0
        }
        Cmd::Unknown { opcode } => opcode == 0x19 || opcode == 0xff,
        _ => true,
    }
}

// Checks that the entry spells the command on the kind of queue, and is what is written for it.
fn spells(rt: &impl Abort, admin: bool, dwords: [u32; 6], cmd: Cmd) {
    let sqe = entry(dwords, 0);
    let number = (dwords[0] >> 16) as u16;
    assert_eq!(rt; read(&sqe, admin), cmd);
    assert_eq!(rt; cid(&sqe), number);
    assert!(rt; is_writable(cmd));
    let written = write(&cmd, number);
    assert!(rt; written.bytes == sqe.bytes, "{cmd:?}");
}

// Each command of an I/O queue, with its fields at their least and greatest values.
#[test]
fn io_commands(rt: HostRuntime) {
    let nsid = ALL;
    let slba = u64::MAX;
    let (least, greatest) = (1, 65_536);
    for (dwords, cmd) in [
        ([0x00, 0, 0, 0, 0, 0], Cmd::Flush { nsid: 0 }),
        ([0xffff_0000, ALL, 0, 0, 0, 0], Cmd::Flush { nsid }),
        (
            [0x01, 0, 0, 0, 0, 0],
            Cmd::Write {
                nsid: 0,
                slba: 0,
                blocks: least,
            },
        ),
        (
            [0xffff_0001, ALL, ALL, ALL, 0xffff, 0],
            Cmd::Write {
                nsid,
                slba,
                blocks: greatest,
            },
        ),
        (
            [0x02, 0, 0, 0, 0, 0],
            Cmd::Read {
                nsid: 0,
                slba: 0,
                blocks: least,
            },
        ),
        (
            [0xffff_0002, ALL, ALL, ALL, 0xffff, 0],
            Cmd::Read {
                nsid,
                slba,
                blocks: greatest,
            },
        ),
        (
            [0x7d, 0, 0, 0, 0, 0],
            Cmd::Append {
                nsid: 0,
                zslba: 0,
                blocks: least,
            },
        ),
        (
            [0xffff_007d, ALL, ALL, ALL, 0xffff, 0],
            Cmd::Append {
                nsid,
                zslba: slba,
                blocks: greatest,
            },
        ),
    ] {
        spells(&rt, false, dwords, cmd);
    }
}

// Send's action, Select All and option and Receive's fields, each at its bits.
#[test]
fn zone_management(rt: HostRuntime) {
    let nsid = ALL;
    let slba = u64::MAX;
    for (dwords, cmd) in [
        (
            [0x79, 0, 0, 0, 0, 0],
            Cmd::Send {
                nsid: 0,
                slba: 0,
                action: 0,
                all: false,
                option: false,
            },
        ),
        (
            [0xffff_0079, ALL, ALL, ALL, 0, 0x3ff],
            Cmd::Send {
                nsid,
                slba,
                action: 0xff,
                all: true,
                option: true,
            },
        ),
        (
            [0x79, 1, 64, 0, 0, 0x103],
            Cmd::Send {
                nsid: 1,
                slba: 64,
                action: 0x03,
                all: true,
                option: false,
            },
        ),
        (
            [0x79, 1, 0, 1, 0, 0x204],
            Cmd::Send {
                nsid: 1,
                slba: 1 << 32,
                action: 0x04,
                all: false,
                option: true,
            },
        ),
        (
            [0x7a, 0, 0, 0, 0, 0],
            Cmd::Receive {
                nsid: 0,
                slba: 0,
                bytes: 4,
                action: 0,
                filter: 0,
                partial: false,
            },
        ),
        (
            [0xffff_007a, ALL, ALL, ALL, ALL, 0x1_ffff],
            Cmd::Receive {
                nsid,
                slba,
                bytes: 1 << 34,
                action: 0xff,
                filter: 0xff,
                partial: true,
            },
        ),
        (
            [0x7a, 1, 64, 0, 127, 0x1_0700],
            Cmd::Receive {
                nsid: 1,
                slba: 64,
                bytes: 512,
                action: 0,
                filter: 7,
                partial: true,
            },
        ),
    ] {
        spells(&rt, false, dwords, cmd);
    }
}

// Each command of the admin queue, with its fields at their least and greatest values; the length
// of a log page has all 32 bits.
#[test]
fn admin_commands(rt: HostRuntime) {
    let nsid = ALL;
    let slba = u64::MAX;
    for (dwords, cmd) in [
        (
            [0x02, 0, 0, 0, 0, 0],
            Cmd::GetLog {
                nsid: 0,
                page: 0,
                bytes: 4,
                offset: 0,
                retain: false,
            },
        ),
        (
            [0xffff_0002, ALL, 0xffff_80ff, 0xffff, ALL, ALL],
            Cmd::GetLog {
                nsid,
                page: 0xff,
                bytes: 1 << 34,
                offset: u64::MAX,
                retain: true,
            },
        ),
        (
            [0x02, 1, 0x03ff_00bf, 0, 0, 0],
            Cmd::GetLog {
                nsid: 1,
                page: 0xbf,
                bytes: 4_096,
                offset: 0,
                retain: false,
            },
        ),
        (
            [0x02, 1, 0x0000_80bf, 1, 0, 1],
            Cmd::GetLog {
                nsid: 1,
                page: 0xbf,
                bytes: 0x4_0004,
                offset: 1 << 32,
                retain: true,
            },
        ),
        (
            [0x06, 0, 0, 0, 0, 0],
            Cmd::Identify {
                nsid: 0,
                cns: 0,
                csi: 0,
            },
        ),
        (
            [0xffff_0006, ALL, 0xff, 0xff00_0000, 0, 0],
            Cmd::Identify {
                nsid,
                cns: 0xff,
                csi: 0xff,
            },
        ),
        (
            [0x09, 0, 0, 0, 0, 0],
            Cmd::SetFeature {
                feature: 0,
                value: 0,
            },
        ),
        (
            [0xffff_0009, 0, 0xff, ALL, 0, 0],
            Cmd::SetFeature {
                feature: 0xff,
                value: ALL,
            },
        ),
        ([0x0a, 0, 0, 0, 0, 0], Cmd::GetFeature { feature: 0 }),
        (
            [0xffff_000a, 0, 0xff, 0, 0, 0],
            Cmd::GetFeature { feature: 0xff },
        ),
        ([0xffff_000c, 0, 0, 0, 0, 0], Cmd::Event),
        (
            [0xc0, 0, 0, 0, 0, 0],
            Cmd::Excursion {
                nsid: 0,
                slba: 0,
                kind: 0,
            },
        ),
        (
            [0xffff_00c0, ALL, ALL, ALL, 0, 0xff],
            Cmd::Excursion {
                nsid,
                slba,
                kind: 0xff,
            },
        ),
    ] {
        spells(&rt, true, dwords, cmd);
    }
}

// An opcode that isn't listed for the kind of queue is unknown. An unknown command is the same on
// both kinds.
#[test]
fn opcodes(rt: HostRuntime) {
    for opcode in 0..=0xff {
        let sqe = entry([u32::from(opcode), 0, 0, 0, 0, 0], 0);
        let unknown = Cmd::Unknown { opcode };
        let io = [0x00, 0x01, 0x02, 0x79, 0x7a, 0x7d].contains(&opcode);
        let admin = [0x02, 0x06, 0x09, 0x0a, 0x0c, 0xc0].contains(&opcode);
        assert_eq!(rt; read(&sqe, false) != unknown, io, "{opcode:x}");
        assert_eq!(rt; read(&sqe, true) != unknown, admin, "{opcode:x}");
    }
    for admin in [false, true] {
        spells(
            &rt,
            admin,
            [0xffff_00ff, 0, 0, 0, 0, 0],
            Cmd::Unknown { opcode: 0xff },
        );
        spells(
            &rt,
            admin,
            [0x19, 0, 0, 0, 0, 0],
            Cmd::Unknown { opcode: 0x19 },
        );
    }
}

// An entry spells the same command with every bit set that isn't read. A row has the opcode and the
// bits that are read of dword 1 and dwords 10 to 13.
#[test]
fn ignored_bits(rt: HostRuntime) {
    for (admin, opcode, read_bits) in [
        (false, 0x00, [ALL, 0, 0, 0, 0]),
        (false, 0x01, [ALL, ALL, ALL, 0xffff, 0]),
        (false, 0x02, [ALL, ALL, ALL, 0xffff, 0]),
        (false, 0x7d, [ALL, ALL, ALL, 0xffff, 0]),
        (false, 0x79, [ALL, ALL, ALL, 0, 0x3ff]),
        (false, 0x7a, [ALL, ALL, ALL, ALL, 0x1_ffff]),
        (true, 0x02, [ALL, 0xffff_80ff, 0xffff, ALL, ALL]),
        (true, 0x06, [ALL, 0xff, 0xff00_0000, 0, 0]),
        (true, 0x09, [0, 0xff, ALL, 0, 0]),
        (true, 0x0a, [0, 0xff, 0, 0, 0]),
        (true, 0x0c, [0, 0, 0, 0, 0]),
        (true, 0xc0, [ALL, ALL, ALL, 0, 0xff]),
        (false, 0x19, [0, 0, 0, 0, 0]),
    ] {
        let [nsid, ten, eleven, twelve, thirteen] = read_bits;
        let ignored = [!0xff | opcode, !nsid, !ten, !eleven, !twelve, !thirteen];
        let plain = read(&entry([opcode, 0, 0, 0, 0, 0], 0), admin);
        assert_eq!(rt; read(&entry(ignored, 0xff), admin), plain, "{opcode:x}");
    }
}

// Blocks of 4,096 bytes, and commands that move at most 8,192 bytes.
const FIELDS: GeometryFields = GeometryFields {
    block_exp: 12,
    mdts: 1,
    ..SMALL_DRIVE
};

// A row has the number of bytes that an entry brings and the number it asks for, with that limit
// and without one.
#[test]
fn lengths(rt: HostRuntime) {
    let limited = Geometry::new(FIELDS).expect(&rt, "valid fields");
    let unlimited = Geometry::new(GeometryFields { mdts: 0, ..FIELDS }).expect(&rt, "valid fields");
    for (admin, dwords, brings, asks, asks_unlimited) in [
        (false, [0x01, 1, 0, 0, 0xffff, 0], 1 << 28, 0, 0),
        (false, [0x7d, 1, 0, 0, 2, 0], 12_288, 0, 0),
        (true, [0x01, 1, 0, 0, 2, 0], 0, 0, 0),
        (false, [0x02, 1, 0, 0, 1, 0], 0, 8_192, 8_192),
        (false, [0x02, 1, 0, 0, 2, 0], 0, 0, 12_288),
        (false, [0x02, 1, 0, 0, 0xffff, 0], 0, 0, 1 << 28),
        (false, [0x7a, 1, 0, 0, 2_047, 0], 0, 8_192, 8_192),
        (false, [0x7a, 1, 0, 0, 2_048, 0], 0, 0, 8_196),
        (false, [0x7a, 1, 0, 0, ALL, 0], 0, 0, 0),
        (true, [0x02, 1, 0x07ff_00bf, 0, 0, 0], 0, 8_192, 8_192),
        (true, [0x02, 1, 0xffff_00bf, 0xffff, 0, 0], 0, 0, 0),
        (true, [0x06, 1, 0, 0, 0, 0], 0, 4_096, 4_096),
        (false, [0x00, 1, 0, 0, 0, 0], 0, 0, 0),
    ] {
        let sqe = entry(dwords, 0);
        assert_eq!(rt; transfer_len(&limited, admin, &sqe), brings);
        assert_eq!(rt; transfer_len(&unlimited, admin, &sqe), brings);
        assert_eq!(rt; reply_len(&limited, admin, &sqe), asks);
        assert_eq!(rt; reply_len(&unlimited, admin, &sqe), asks_unlimited);
    }
}
