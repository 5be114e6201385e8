ghost use Rattle.std.specs.Prelude.{◌≡◌, ◌<◌, length, None};
ghost use Rattle.zone_model.specs.Zones.{zones};
ghost use Rattle.solo_drive.specs.Drives.{HasLengths, act_of};
ghost use Rattle.solo_drive.specs.Parts.{AreLent};
ghost use Rattle.zone_desk.specs.Sights.{zones_held};
ghost use Rattle.zone_desk.specs.Passes.{IsIdle};

use cqe_codec::Cqe;
use solo_drive::Applied;
use sqe_codec::{Sqe, reply_len, transfer_len};
use std::alloc::Global;
use std::sync::Wait;
use std::test::Fail;
use zns_io::Bytes;
use zns_types::{Code, Geometry, GeometryFields, SMALL_DRIVE};
use zone_desk::{Desk, PassErr, QueuePass};

// The small drive with two I/O queues.
const SMALL: GeometryFields = GeometryFields {
    queues: 3,
    ..SMALL_DRIVE
};

// Takes the book's word, and gives the book back.
fn take_and_give<R: Wait>(rt: &R, desk: &Desk, pass: &mut QueuePass)
    requires desk { pass.old.desk ≡ desk.now }
    requires idle { IsIdle pass.old.sight }
    requires none_open { pass.old.opened ≡ None }
    ensures desk { pass.new.desk ≡ pass.old.desk }
    ensures idle { IsIdle pass.new.sight }
    ensures queue { pass.new.sight.queue ≡ pass.old.sight.queue }
{
    desk.take_word(rt, pass, 1);
    desk.put_back(pass);
}

#[test]
fn passes_share_the_room(rt: HostRuntime) -> Result<(), Fail> {
    let alloc = rt.alloc();
    let g = Geometry::new(SMALL)?;
    let (desk, mut main) = Desk::new(alloc, g, 5)?;
    let mut first = desk.pass(alloc, &mut main, 1, 3)?;
    let Err(again) = desk.pass(alloc, &mut main, 1, 3) else {
        panic!(rt; "queue 1 has two passes")
    };
    assert_eq!(rt; again, PassErr::QueueTaken(1));
    let Err(short) = desk.pass(alloc, &mut main, 2, 3) else {
        panic!(rt; "there is more room than was left")
    };
    assert_eq!(rt; short, PassErr::RoomShort(2));
    let mut second = desk.pass(alloc, &mut main, 2, 2)?;
    take_and_give(&rt, &desk, &mut first);
    let note = desk.note(&mut first);
    desk.learn(&mut second, note);
    assert_eq!(rt; (first.served(), first.spare()), (0, 3));
    let solo = desk.close(main, vec![in alloc; first, second]?);
    assert_eq!(rt;
        (solo.journal().len(), solo.spare(), solo.pointer(0)),
        (0, 5, 0)
    );
    Ok(())
}

#[test]
fn book_goes_back_before_the_zones(rt: HostRuntime) -> Result<(), Fail> {
    let alloc = rt.alloc();
    let g = Geometry::new(SMALL)?;
    let (desk, mut main) = Desk::new(alloc, g, 5)?;
    let mut first = desk.pass(alloc, &mut main, 1, 2)?;
    let mut second = desk.pass(alloc, &mut main, 2, 2)?;
    desk.take_word(&rt, &mut first, 2);
    desk.take_word(&rt, &mut first, 1);
    desk.give_book(&mut first);
    let zone = desk.try_word(&mut second, 2);
    assert!(rt; !zone, "the zone's word went back with the book's");
    let book = desk.try_word(&mut second, 1);
    assert!(rt; book, "the book's word did not go back");
    desk.put_back(&mut first);
    desk.put_back(&mut second);
    desk.take_word(&rt, &mut second, 2);
    desk.put_back(&mut second);
    Ok(())
}

// A drive with one such zone.
const ONE: GeometryFields = GeometryFields {
    zones: 1,
    active_limit: 1,
    open_limit: 1,
    ..SMALL
};

// A command by its opcode, its first block and its dwords 12 and 13, and the byte that fills its
// host data. Expected are: whether its bytes move before the book is taken, its status, and some
// bytes of what it reads, with their places.
#[derive(Clone, Copy)]
struct Case {
    entry: [u8; 4],
    data: u8,
    ahead: bool,
    code: Code,
    read: &'static [(usize, u8)],
}

// Bytes of three blocks that were written one at a time.
const BLOCKS: &[(usize, u8)] = &[(0, 0x11), (511, 0x11), (512, 0x22), (1535, 0x33)];

// A report of one zone, Implicitly Opened, with the write pointer at block 4.
const REPORT: &[(usize, u8)] = &[(0, 1), (64, 2), (65, 0x20), (88, 4)];

// While the zone is Empty or Closed, a Write waits for the book. Only a Read, and a command that
// writes to an opened zone, go ahead of it.
fn rows() -> [Case; 8] {
    [
        row([0x01, 0, 0, 0], 0x11, false, Code::SUCCESS, &[]),
        row([0x01, 1, 0, 0], 0x22, true, Code::SUCCESS, &[]),
        row([0x7d, 0, 0, 0], 0x33, true, Code::SUCCESS, &[]),
        row([0x02, 0, 2, 0], 0, true, Code::SUCCESS, BLOCKS),
        row([0x01, 0, 0, 0], 0x44, true, Code::ZONE_INVALID_WRITE, &[]),
        row([0x79, 0, 0, 1], 0, false, Code::SUCCESS, &[]),
        row([0x01, 3, 0, 0], 0x55, false, Code::SUCCESS, &[]),
        row([0x7a, 0, 31, 0], 0, false, Code::SUCCESS, REPORT),
    ]
}

fn row(entry: [u8; 4], data: u8, ahead: bool, code: Code, read: &'static [(usize, u8)]) -> Case {
    Case {
        entry,
        data,
        ahead,
        code,
        read,
    }
}

fn entry_of(row: &Case) -> Sqe {
    let [opcode, slba, length, how] = row.entry;
    let mut bytes = [0; 64];
    bytes[0] = opcode;
    bytes[4] = 1;
    bytes[40] = slba;
    bytes[48] = length;
    bytes[52] = how;
    Sqe { bytes }
}

// The answer to a command: whether bytes moved before the book was taken, what was posted, and the
// room for what is read.
#[derive(Drop)]
struct Told {
    ahead: bool,
    applied: Applied,
    out: Vec<u8>,
}

// The one entry that was posted.
fn entry_in(applied: &Applied) -> Option<Cqe> {
    let Applied::Done(posted) = applied else {
        return None;
    };
    match posted.entries.as_slice() {
        [entry] => Some(*entry),
        _ => None,
    }
}

// Takes the word of the drive's only zone.
fn take_only<R: Wait>(rt: &R, desk: &Desk, pass: &mut QueuePass)
    requires desk { pass.old.desk ≡ desk.now }
    requires one { desk.now.geometry.zones ≡ 1 }
    requires idle { IsIdle pass.old.sight }
    requires none_open { pass.old.opened ≡ None }
    ensures desk { pass.new.desk ≡ desk.now }
    ensures no_book { pass.new.sight.journal ≡ None }
    ensures none_open { pass.new.opened ≡ None }
    ensures held { zones_held pass.new.sight ≡ zones desk.now.geometry }
    ensures queue { pass.new.sight.queue ≡ pass.old.sight.queue }
    ensures spare { pass.new.sight.spare ≡ pass.old.sight.spare }
{
    desk.take_word(rt, pass, 2);
}

// Serves a command with one call on the zone that the pass has, and gives everything back.
fn apply_taken<R: Wait>(
    rt: &R,
    desk: &Desk,
    pass: &mut QueuePass,
    sqe: Sqe,
    payload: Bytes,
    out: &mut [u8],
) -> Applied
    requires desk { pass.old.desk ≡ desk.now }
    requires no_book { pass.old.sight.journal ≡ None }
    requires none_open { pass.old.opened ≡ None }
    requires lent { AreLent desk.now.geometry
        (act_of pass.old.sight.queue sqe payload) (zones_held pass.old.sight) }
    requires spare { 0 < pass.old.sight.spare }
    requires lengths { HasLengths desk.now.geometry
        (act_of pass.old.sight.queue sqe payload) (length out.old) }
    ensures desk { pass.new.desk ≡ pass.old.desk }
    ensures idle { IsIdle pass.new.sight }
    ensures none_open { pass.new.opened ≡ None }
{
    desk.take_word(rt, pass, 1);
    let applied = desk.apply_act(pass, sqe, payload, out);
    desk.put_back(pass);
    applied
}

// Serves a command on the drive's only zone: with two calls if `ahead` is set and its bytes move
// before the book is taken, and else with one. Returns whether they moved, and the answer.
fn serve<R: Wait>(
    rt: &R,
    desk: &Desk,
    pass: &mut QueuePass,
    sqe: Sqe,
    payload: Bytes,
    out: &mut [u8],
    ahead: bool,
) -> (bool, Applied)
    requires desk { pass.old.desk ≡ desk.now }
    requires one { desk.now.geometry.zones ≡ 1 }
    requires idle { IsIdle pass.old.sight }
    requires none_open { pass.old.opened ≡ None }
    requires spare { 0 < pass.old.sight.spare }
    requires lengths { HasLengths desk.now.geometry
        (act_of pass.old.sight.queue sqe payload) (length out.old) }
    ensures desk { pass.new.desk ≡ pass.old.desk }
    ensures idle { IsIdle pass.new.sight }
    ensures none_open { pass.new.opened ≡ None }
{
    take_only(rt, desk, pass);
    if !ahead {
        return (false, apply_taken(rt, desk, pass, sqe, payload, out));
    }
    match desk.ready_act(pass, sqe, &payload, out) {
        Some(ready) => {
            desk.take_word(rt, pass, 1);
            let posted = desk.settle_act(pass, sqe, payload, ready);
            desk.put_back(pass);
            (true, Applied::Done(posted))
        }
        None => (false, apply_taken(rt, desk, pass, sqe, payload, out)),
    }
}

// Serves the command of a row.
fn serve_row<R: Wait>(
    rt: &R,
    alloc: Global,
    desk: &Desk,
    pass: &mut QueuePass,
    row: &Case,
    ahead: bool,
) -> Result<Option<Told>, Fail>
    requires desk { pass.old.desk ≡ desk.now }
    requires one { desk.now.geometry.zones ≡ 1 }
    requires idle { IsIdle pass.old.sight }
    requires none_open { pass.old.opened ≡ None }
    ensures desk { pass.new.desk ≡ pass.old.desk }
    ensures idle { IsIdle pass.new.sight }
    ensures none_open { pass.new.opened ≡ None }
{
    if pass.spare() == 0 {
        return Ok(None);
    }
    let g = desk.geometry();
    let admin = pass.queue() == 0;
    let sqe = entry_of(row);
    let payload = Bytes::filled(alloc, transfer_len(g, admin, &sqe), row.data)?;
    let mut out = vec![in alloc; 0xee; reply_len(g, admin, &sqe) as usize]?;
    let (ahead, applied) = serve(rt, desk, pass, sqe, payload, &mut out, ahead);
    Ok(Some(Told {
        ahead,
        applied,
        out,
    }))
}

// The answers to the rows, which one pass serves one after another.
fn told_of_rows<R: Wait>(rt: &R, alloc: Global, ahead: bool) -> Result<Vec<Told>, Fail> {
    let (desk, mut main) = Desk::new(alloc, Geometry::new(ONE)?, 8)?;
    let mut pass = desk.pass(alloc, &mut main, 1, 8)?;
    let mut told = Vec::new(alloc);
    for row in rows().iter() {
        if let Some(answer) = serve_row(rt, alloc, &desk, &mut pass, row, ahead)? {
            told.push(answer)?;
        }
    }
    Ok(told)
}

// Where bytes move before the book is taken, the two calls answer what the one call answers.
#[test]
fn both_calls_are_one(rt: HostRuntime) -> Result<(), Fail> {
    let alloc = rt.alloc();
    let both = told_of_rows(&rt, alloc, true)?;
    let plain = told_of_rows(&rt, alloc, false)?;
    let cases = rows();
    assert!(rt; both.len() == 8 && plain.len() == 8);
    for n in 0..8 {
        let (case, one, other) = (&cases[n], &both[n], &plain[n]);
        let entry = entry_in(&one.applied);
        assert_eq!(rt; one.ahead, case.ahead, "at {n}");
        assert_eq!(rt; entry.map(|e| e.code), Some(case.code), "at {n}");
        assert_eq!(rt; entry, entry_in(&other.applied), "at {n}");
        assert_eq!(rt; one.out, other.out, "at {n}");
        for (place, byte) in case.read.iter() {
            assert_eq!(rt; one.out.get(*place), Some(byte), "at {n}");
        }
    }
    Ok(())
}
