//! Calls of a host, what comes of them, and what the host then knows of their zones.
ghost use Rattle.std.specs.Prelude.{◌≡◌, ◌≤◌, IfOk};
ghost use Rattle.host_library.specs.Asking.{IsData};

use host_library::{FailLink, Host, HostErr, Link, LoopLink, Shadow, Stage};
use solo_drive::Solo;
use std::alloc::Global;
use std::process::Abort;
use std::test::Fail;
use zns_io::{Bytes, NoMemory};
use zns_types::{Code, Geometry, SMALL_DRIVE};

// A call of a host: its zone or first block, then its offset in the zone, and then its number of
// blocks.
#[derive(Clone, Copy, Debug)]
enum Call {
    Write(u64, u32),
    Append(u32, u32),
    Put(u32, u64, u32),
    Open(u32),
    Flush(u32, u64),
    Reset(u32),
    Report(u32),

    // No call: the oldest command, which is one of this zone, is sent again.
    Again(u32),
}

// The zone that a call is about.
fn zone_of(call: Call) -> u64 {
    match call {
        Call::Write(lba, _) => lba / SMALL_DRIVE.zone_size,
        Call::Append(zone, _)
        | Call::Put(zone, _, _)
        | Call::Open(zone)
        | Call::Flush(zone, _)
        | Call::Reset(zone)
        | Call::Report(zone)
        | Call::Again(zone) => u64::from(zone),
    }
}

// Host data of `count` blocks.
fn blocks(alloc: Global, count: u32) -> Result<Bytes, NoMemory>
    requires some { 1 ≤ count }
    requires few { count ≤ 48 }
    ensures { IfOk result (IsData SMALL_DRIVE) }
{
    Bytes::filled(alloc, 512 * count, 0x17)
}

// Makes a call.
fn ask<L: Link>(rt: &impl Abort, alloc: Global, host: &mut Host<L>, call: Call) -> Result<(), Fail>
    requires { host.old.geometry ≡ SMALL_DRIVE }
    ensures { host.new.geometry ≡ SMALL_DRIVE }
{
    let _cid = match call {
        Call::Write(lba, count) => {
            assert!(rt; 1 <= count && count <= 48);
            host.write(lba, blocks(alloc, count)?)?
        }
        Call::Append(zone, count) => {
            assert!(rt; zone < 4 && 1 <= count && count <= 48);
            host.append(zone, blocks(alloc, count)?)?
        }
        Call::Put(zone, offset, count) => {
            assert!(rt; zone < 4 && offset < 64 && 1 <= count && count <= 48);
            host.window_put(zone, offset, blocks(alloc, count)?)?
        }
        Call::Open(zone) => {
            assert!(rt; zone < 4);
            host.open_window(zone)?
        }
        Call::Flush(zone, last) => {
            assert!(rt; zone < 4 && last < 64);
            host.flush_to(zone, last)?
        }
        Call::Reset(zone) => {
            assert!(rt; zone < 4);
            host.reset(zone)?
        }
        Call::Report(zone) => {
            assert!(rt; zone < 4);
            host.report(zone)?
        }
        Call::Again(_) => 0,
    };
    Ok(())
}

// Sends the oldest command. Returns the number of the block that an append wrote first, which is 0
// after other commands, or why the command failed, as text.
fn sent<L: Link>(alloc: Global, host: &mut Host<L>) -> Result<String, Fail>
    ensures { host.new.geometry ≡ host.old.geometry }
{
    let mut out = [0; 128];
    match host.pump(&mut out) {
        Ok(Some(done)) => {
            let lba = u64::from(done.dw0) | u64::from(done.dw1) << 32;
            Ok(format!(in alloc; "{lba}")?)
        }
        Ok(None) => Ok(format!(in alloc; "no command waits")?),
        Err(e) => Ok(format!(in alloc; "{e}")?),
    }
}

// Calls, what comes of each, and the shadow of its zone afterwards: its stage, whether it has a
// random write area, and its write pointer.
type Row = (Call, &'static str, (Stage, bool, u64));

// Makes the calls one after another on a new host, and sends each.
fn follow<L: Link>(
    rt: &impl Abort,
    alloc: Global,
    mut host: Host<L>,
    rows: &[Row],
) -> Result<(), Fail>
    requires { host.geometry ≡ SMALL_DRIVE }
{
    for (call, answer, (stage, window, pointer)) in rows {
        ask(rt, alloc, &mut host, *call)?;
        let sent = sent(alloc, &mut host)?;
        assert_eq!(rt; sent.as_str(), *answer, "{call:?}");
        let zone = zone_of(*call);
        assert!(rt; zone < 4);
        let shadow = Shadow {
            stage: *stage,
            window: *window,
            pointer: *pointer,
        };
        assert_eq!(rt; host.shadow(zone as u32), shadow, "{call:?}");
    }
    Ok(())
}

// The main loop of a file system: zone 0 has a log in a random write area, and zone 1 takes appends
// until it is full and is then reset. The drive has room for all calls but the last.
#[test]
fn a_file_system_goes_round(rt: HostRuntime) -> Result<(), Fail> {
    let rows: [Row; 16] = [
        (Call::Report(0), "0", (Stage::Empty, false, 0)),
        (Call::Open(0), "0", (Stage::Active, true, 0)),
        (Call::Put(0, 0, 4), "0", (Stage::Active, true, 0)),
        (Call::Flush(0, 3), "0", (Stage::Active, true, 4)),
        (
            Call::Append(0, 1),
            "the drive refused the command: Code { sct: 1, sc: 182 }",
            (Stage::Active, true, 4),
        ),
        (Call::Put(0, 10, 4), "0", (Stage::Active, true, 8)),
        (Call::Report(0), "0", (Stage::Active, true, 8)),
        (Call::Report(1), "0", (Stage::Empty, false, 0)),
        (Call::Append(1, 1), "64", (Stage::Active, false, 1)),
        (Call::Append(1, 47), "65", (Stage::Full, false, 0)),
        (Call::Reset(1), "0", (Stage::Empty, false, 0)),
        (Call::Report(1), "0", (Stage::Empty, false, 0)),
        (Call::Write(128, 2), "0", (Stage::Unknown, false, 0)),
        (Call::Report(2), "0", (Stage::Active, false, 2)),
        (Call::Write(130, 46), "0", (Stage::Full, false, 0)),
        (
            Call::Report(2),
            "the link failed",
            (Stage::Unknown, false, 0),
        ),
    ];
    let g = Geometry::new(SMALL_DRIVE)?;
    let drive = Solo::new(rt.alloc(), g, 15)?;
    let host = Host::new(rt.alloc(), LoopLink::new(drive), g)?;
    follow(&rt, rt.alloc(), host, &rows)
}

// The second send fails: its command stays in the ring, and its zone is Unknown until a report.
#[test]
fn a_send_that_fails_is_sent_again(rt: HostRuntime) -> Result<(), Fail> {
    let rows: [Row; 4] = [
        (Call::Report(0), "0", (Stage::Empty, false, 0)),
        (Call::Open(0), "the link failed", (Stage::Unknown, false, 0)),
        (Call::Again(0), "0", (Stage::Unknown, false, 0)),
        (Call::Report(0), "0", (Stage::Active, true, 0)),
    ];
    let g = Geometry::new(SMALL_DRIVE)?;
    let link = FailLink::new(Solo::new(rt.alloc(), g, 16)?, vec![in rt.alloc(); 1]?);
    let host = Host::new(rt.alloc(), link, g)?;
    follow(&rt, rt.alloc(), host, &rows)
}

#[test]
fn errors_are_told_as_text(rt: HostRuntime) -> Result<(), Fail> {
    let data = Bytes::filled(rt.alloc(), 512, 0)?;
    let rows = [
        (HostErr::LinkFault, "LinkFault: the link failed"),
        (
            HostErr::RingFull(data),
            "RingFull(512 bytes): the ring is full",
        ),
        (
            HostErr::Refused(Code::ZONE_FULL),
            "Refused(Code { sct: 1, sc: 185 }): \
             the drive refused the command: Code { sct: 1, sc: 185 }",
        ),
        (
            HostErr::Torn(0x40),
            "Torn(64): the completion entry is torn: its last byte is 0x40",
        ),
    ];
    for (error, text) in rows {
        assert_eq!(rt;
            format!(in rt.alloc(); "{error:?}: {error}")?.as_str(),
            text
        );
    }
    Ok(())
}
