ghost use Rattle.std.specs.Prelude.{◌+◌, ◌<◌, ◌≤◌};
ghost use Rattle.queue_controller.specs.Words.{HoldsNothing};

use queue_controller::{FreeGate, Gate, Tried, run_session, try_serve};
use session_file::{Session, read};
use sqe_codec::{Cmd, reply_len, transfer_len, write};
use std::alloc::Global;
use std::sync::atomic::{AtomicU32, Ordering};
use std::test::Fail;
use std::thread;
use zns_io::Bytes;
use zns_types::{Code, Geometry, GeometryFields, SMALL_DRIVE};
use zone_desk::{Desk, QueuePass};

// Four zones of 48 blocks of 512 bytes, of which at most three may be active and two opened, and
// the queues 0 to 2.
const DRIVE: [u8; 52] = *b"ZNSQ0001\
    \x09\x00\x00\x00\x04\x00\x00\x00\x40\x00\x00\x00\x00\x00\x00\x00\
    \x30\x00\x00\x00\x00\x00\x00\x00\x03\x00\x00\x00\x02\x00\x00\x00\
    \x01\x00\x00\x00\x04\x00\x08\x00\x03\x00\x40\x00";

// A command of a queue: an entry by its opcode, its first block and its dword 13, and the length of
// its host data.
#[derive(Clone, Copy)]
struct Command {
    queue: u8,
    opcode: u8,
    slba: u8,
    dword: u8,
    bytes: u16,
}

// Opens the zone that begins with this block.
fn opens(queue: u8, slba: u8) -> Command {
    Command {
        queue,
        opcode: 0x79,
        slba,
        dword: 3,
        bytes: 0,
    }
}

// The session of these commands, as its file gives it.
fn session(alloc: Global, commands: &[Command]) -> Result<Session, Fail> {
    let mut file = Vec::from_slice(alloc, &DRIVE)?;
    file.extend_from_slice(&[
        (commands.len() % 256) as u8,
        0,
        0,
        0,
        0,
        0,
        0,
        0,
        0,
        0,
        0,
        0,
    ])?;
    for command in commands {
        file.extend_from_slice(&[command.queue, 0, 0, 0])?;
        file.extend_from_slice(&u32::from(command.bytes).to_le_bytes())?;
        file.extend_from_slice(&[command.opcode, 0, 1, 0, 1, 0, 0, 0])?;
        file.extend_from_slice(&[0; 32])?;
        file.extend_from_slice(&[command.slba, 0, 0, 0, 0, 0, 0, 0, 0, 0, 0, 0])?;
        file.extend_from_slice(&[command.dword, 0, 0, 0, 0, 0, 0, 0, 0, 0, 0, 0])?;
        for _ in 0..command.bytes {
            file.push(0x11)?;
        }
    }
    Ok(read(alloc, &file)?)
}

// Each of two workers comes once, and looks for the other for a while.
#[derive(Drop)]
struct Meeting {
    first: AtomicU32,
    second: AtomicU32,
    met: AtomicU32,
}

const TURNS: u32 = 100_000;

impl Meeting {
    fn meet(&self, mine: &AtomicU32, other: &AtomicU32) {
        mine.store(1, Ordering::SeqCst);
        for _ in 0..TURNS {
            if other.load(Ordering::SeqCst) == 1 {
                self.met.fetch_add(1, Ordering::SeqCst);
                return;
            }
            thread::yield_now();
        }
    }
}

impl Gate for Meeting {
    fn before(&self, queue: u16, number: u32) {
        match (queue, number) {
            (1, 0) => self.meet(&self.first, &self.second),
            (2, 0) => self.meet(&self.second, &self.first),
            _ => {}
        }
    }

    fn moved(&self, _queue: u16, _number: u32) {}
}

// The same, of workers whose bytes have moved before the book's word is taken.
#[derive(Drop)]
struct Crossing {
    meeting: Meeting,
}

impl Gate for Crossing {
    fn before(&self, _queue: u16, _number: u32) {}

    fn moved(&self, queue: u16, number: u32) {
        match (queue, number) {
            (1, 1) => self.meeting.meet(&self.meeting.first, &self.meeting.second),
            (2, 1) => self.meeting.meet(&self.meeting.second, &self.meeting.first),
            _ => {}
        }
    }
}

impl Meeting {
    fn new() -> Meeting {
        Meeting {
            first: AtomicU32::new(0),
            second: AtomicU32::new(0),
            met: AtomicU32::new(0),
        }
    }
}

// Writes one block.
fn writes(queue: u8, slba: u8) -> Command {
    Command {
        queue,
        opcode: 0x01,
        slba,
        dword: 0,
        bytes: 512,
    }
}

#[test]
fn two_queues_run_side_by_side(rt: HostRuntime) -> Result<(), Fail> {
    let alloc = rt.alloc();
    let gate = Meeting::new();
    let asked = session(alloc, &[opens(1, 0), opens(2, 64)])?;
    let outcome = run_session(&rt, alloc, asked, &gate)?;
    assert_eq!(rt; gate.met.load(Ordering::SeqCst), 2);
    assert_eq!(rt; outcome.drive.journal().len(), 2);
    Ok(())
}

// Each has its zone's word but not the book's, and is seen by the other.
#[test]
fn two_queues_move_bytes_side_by_side(rt: HostRuntime) -> Result<(), Fail> {
    let alloc = rt.alloc();
    let gate = Crossing {
        meeting: Meeting::new(),
    };
    let commands = [opens(1, 0), writes(1, 0), opens(2, 64), writes(2, 64)];
    let outcome = run_session(&rt, alloc, session(alloc, &commands)?, &gate)?;
    assert_eq!(rt; gate.meeting.met.load(Ordering::SeqCst), 2);
    assert_eq!(rt; outcome.drive.geometry().fields().zones, 4);
    assert_eq!(rt; outcome.drive.pointer(0), 1);
    assert_eq!(rt; outcome.drive.pointer(1), 1);
    Ok(())
}

#[test]
fn last_opener_is_refused(rt: HostRuntime) -> Result<(), Fail> {
    let alloc = rt.alloc();
    let asked = session(alloc, &[opens(1, 0), opens(1, 64), opens(2, 128)])?;
    let outcome = run_session(&rt, alloc, asked, &FreeGate)?;
    assert_eq!(rt; outcome.replies.len(), 3);
    for number in 0..3 {
        let codes = outcome
            .replies
            .reply(number)
            .entries
            .as_slice()
            .iter()
            .map(|entry| entry.code);
        let code = if number == 2 {
            Code::TOO_MANY_OPEN_ZONES
        } else {
            Code::SUCCESS
        };
        assert!(rt; codes.eq([code]));
    }
    Ok(())
}

#[test]
fn one_write_is_served(rt: HostRuntime) -> Result<(), Fail> {
    let alloc = rt.alloc();
    let outcome = run_session(&rt, alloc, session(alloc, &[writes(1, 0)])?, &FreeGate)?;
    assert_eq!(rt; outcome.drive.pointer(0), 1);
    Ok(())
}

// Counts the commands that come to it.
#[derive(Drop)]
struct Counting {
    came: AtomicU32,
}

impl Gate for Counting {
    fn before(&self, _queue: u16, _number: u32) {
        self.came.fetch_add(1, Ordering::SeqCst);
    }

    fn moved(&self, _queue: u16, _number: u32) {}
}

// If memory runs out for a session, none of its commands was served. That shows in runs of this
// test that refuse each request for memory in turn.
#[test]
fn all_commands_are_served_or_none(rt: HostRuntime) -> Result<(), Fail> {
    let alloc = rt.alloc();
    let gate = Counting {
        came: AtomicU32::new(0),
    };
    let asked = session(alloc, &[opens(1, 0), opens(1, 64), opens(2, 128)])?;
    let came = match run_session(&rt, alloc, asked, &gate) {
        Ok(outcome) => outcome.drive.journal().len(),
        Err(_) => 0,
    };
    assert_eq!(rt; gate.came.load(Ordering::SeqCst), came);
    Ok(())
}

// The outcome of a write of one block: its status, or the word that was held.
#[derive(Clone, Copy, PartialEq, Eq, Debug)]
enum Came {
    Served(Option<Code>),
    Held(u32),
}

// Tries to write a block.
fn try_write(alloc: Global, desk: &Desk, pass: &mut QueuePass, slba: u64) -> Result<Came, Fail>
    requires free { HoldsNothing desk.now pass.old }
    requires spare { 0 < pass.old.sight.spare }
    ensures free { HoldsNothing desk.now pass.new }
    ensures spare { pass.old.sight.spare ≤ pass.new.sight.spare + 1 }
{
    let cmd = Cmd::Write {
        nsid: 1,
        slba,
        blocks: 1,
    };
    let sqe = write(&cmd, 7);
    let (g, admin) = (desk.geometry(), pass.queue() == 0);
    let payload = Bytes::filled(alloc, transfer_len(g, admin, &sqe), 0x11)?;
    let mut out = vec![in alloc; 0; reply_len(g, admin, &sqe) as usize]?;
    match try_serve(desk, pass, sqe, payload, &mut out) {
        Tried::Served(posted) => {
            let codes = posted.entries.as_slice().first().map(|entry| entry.code);
            Ok(Came::Served(codes))
        }
        Tried::Busy { word, payload: _ } => Ok(Came::Held(word)),
    }
}

#[test]
fn all_words_only_where_one_gives_way(rt: HostRuntime) -> Result<(), Fail> {
    let alloc = rt.alloc();
    let (desk, mut main) = Desk::new(
        alloc,
        Geometry::new(GeometryFields {
            queues: 3,
            ..SMALL_DRIVE
        })?,
        6,
    )?;
    let mut first = desk.pass(alloc, &mut main, 1, 5)?;
    let mut second = desk.pass(alloc, &mut main, 2, 1)?;
    let mut third = desk.pass(alloc, &mut main, 0, 0)?;
    assert_eq!(rt;
        try_write(alloc, &desk, &mut first, 0)?,
        Came::Served(Some(Code::SUCCESS))
    );
    assert_eq!(rt;
        try_write(alloc, &desk, &mut first, 64)?,
        Came::Served(Some(Code::SUCCESS))
    );
    desk.take_word(&rt, &mut second, 5);
    assert_eq!(rt; try_write(alloc, &desk, &mut first, 128)?, Came::Held(5));
    desk.put_back(&mut second);
    assert_eq!(rt;
        try_write(alloc, &desk, &mut first, 128)?,
        Came::Served(Some(Code::SUCCESS))
    );
    // Three zones are active now, which is the limit, and none has to give way to a fourth.
    desk.take_word(&rt, &mut third, 2);
    assert_eq!(rt;
        try_write(alloc, &desk, &mut first, 192)?,
        Came::Served(Some(Code::TOO_MANY_ACTIVE_ZONES))
    );
    Ok(())
}
