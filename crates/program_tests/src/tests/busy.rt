use super::sessions::{RECORD, Record, push};
use queue_controller::FreeGate;
use sha2::{Digest, Sha256};
use std::alloc::Global;
use std::sync::Wait;
use std::test::Fail;
use std::thread::Threads;
use zns_io::{Bytes, SureSink, SureSource};
use zns_program::{Status, Word, top};

// The header of a session of 2,000 commands. The drive has 16 zones of 2,048 blocks of 4,096 bytes,
// 1,024 of which can be written, and 3 queues; 14 zones may be opened; 2 may have a random write
// area of 16 blocks.
const HEADER: [u8; 64] = [
    0x5a, 0x4e, 0x53, 0x51, 0x30, 0x30, 0x30, 0x31, 12, 0, 0, 0, 16, 0, 0, 0, 0, 8, 0, 0, 0, 0, 0,
    0, 0, 4, 0, 0, 0, 0, 0, 0, 14, 0, 0, 0, 14, 0, 0, 0, 2, 0, 0, 0, 4, 0, 16, 0, 3, 0, 64, 0,
    0xd0, 7, 0, 0, 0, 0, 0, 0, 0, 0, 0, 0,
];

// The first block of the zone that is written through a random write area.
const ZONE_8: u64 = 16_384;

// A command of the admin queue.
const ADMIN: Record = Record { queue: 0, ..RECORD };

// A Zone Management Send on queue 2.
const SEND: Record = Record {
    queue: 2,
    opcode: 0x79,
    ..RECORD
};

// Notices of changed zones, an event request, and the zoned namespace's Identify page.
const ADMIN_COMMANDS: [Record; 3] = [
    Record {
        opcode: 0x09,
        cid: 1,
        place: 0x0800_0000_0000_000b,
        ..ADMIN
    },
    Record {
        opcode: 0x0c,
        cid: 2,
        ..ADMIN
    },
    Record {
        opcode: 0x06,
        cid: 3,
        place: 0x0200_0000_0000_0005,
        ..ADMIN
    },
];

const OPEN_WITH_AREA: Record = Record {
    place: ZONE_8,
    action: 0x203,
    ..SEND
};

const RESET_ALL: Record = Record {
    place: u64::MAX,
    action: 0x104,
    ..SEND
};

// `count` Appends of one block to zone 0 on queue 1.
fn push_appends(alloc: Global, file: &mut Vec<u8>, count: u16) -> Result<(), Fail> {
    for cid in 0..count {
        let append = Record {
            opcode: 0x7d,
            cid,
            data: 4_096,
            ..RECORD
        };
        push(alloc, file, append)?;
    }
    Ok(())
}

// On queue 2, writes four blocks twice, commits them, and reports on the zone.
fn push_step(alloc: Global, file: &mut Vec<u8>, cid: u16) -> Result<(), Fail> {
    let place = ZONE_8 + 4 * u64::from(cid);
    for byte in [0x22, 0x33] {
        let write = Record {
            queue: 2,
            opcode: 0x01,
            cid,
            place,
            length: 3,
            data: 16_384,
            byte,
            ..RECORD
        };
        push(alloc, file, write)?;
    }
    let commit = Record {
        cid,
        place: place + 3,
        action: 0x11,
        ..SEND
    };
    push(alloc, file, commit)?;
    let report = Record {
        queue: 2,
        opcode: 0x7a,
        cid,
        place: ZONE_8,
        length: 31,
        ..RECORD
    };
    push(alloc, file, report)
}

// `count` Reads of four blocks on queue 2.
fn push_reads(alloc: Global, file: &mut Vec<u8>, count: u16) -> Result<(), Fail> {
    for cid in 0..count {
        let read = Record {
            queue: 2,
            opcode: 0x02,
            cid,
            place: ZONE_8,
            length: 3,
            ..RECORD
        };
        push(alloc, file, read)?;
    }
    Ok(())
}

// 2,000 commands of three queues. 400 of the 1,000 Appends come after all zones are reset.
fn busy_session(alloc: Global) -> Result<Vec<u8>, Fail> {
    let mut file = Vec::from_slice(alloc, &HEADER)?;
    for record in ADMIN_COMMANDS {
        push(alloc, &mut file, record)?;
    }
    push_appends(alloc, &mut file, 600)?;
    push(alloc, &mut file, OPEN_WITH_AREA)?;
    for step in 0..240 {
        push_step(alloc, &mut file, step)?;
    }
    push_reads(alloc, &mut file, 35)?;
    push(alloc, &mut file, RESET_ALL)?;
    push_appends(alloc, &mut file, 400)?;
    Ok(file)
}

// What a word writes for this input, if the run ends well.
fn output_of<R: Threads + Wait + Sync>(
    rt: &R,
    alloc: Global,
    word: &str,
    input: Vec<u8>,
) -> Result<Vec<u8>, Fail> {
    let words = vec![in alloc; Word::of(alloc, word)?]?;
    let mut source = SureSource::new(Bytes::from_vec(input), 10_000);
    let mut sink = SureSink::new(alloc, 1_000_000, 5_000)?;
    match top(rt, alloc, &words, &mut source, &mut sink, &FreeGate) {
        Status::Ok => Ok(Vec::from_slice(alloc, sink.bytes())?),
        _ => Err(Fail::from("the run did not end well")),
    }
}

// The SHA-256 of bytes, in hexadecimal digits.
fn digest_of(alloc: Global, bytes: &[u8]) -> Result<String, Fail> {
    Ok(hex::encode(alloc, &Sha256::digest(bytes))?)
}

// The digest is that of the result of another program.
#[test]
fn a_busy_session_is_served_and_checked(rt: HostRuntime) -> Result<(), Fail> {
    let alloc = rt.alloc();
    let session = busy_session(alloc)?;
    for word in ["one", "run"] {
        let result = output_of(&rt, alloc, word, Vec::from_slice(alloc, &session)?)?;
        if word == "one" {
            assert_eq!(rt;
                digest_of(alloc, &result)?.as_str(),
                "37b23f6d7a1c46e74e8d8ecbee2f056a1b84a198617dc0fcae738a3e428df6ff"
            );
        }
        let mut both = Vec::from_slice(alloc, &session)?;
        both.extend_from_slice(&result)?;
        let said = output_of(&rt, alloc, "check", both)?;
        assert_eq!(rt; said.as_slice(), b"same\n".as_slice(), "{word}");
    }
    Ok(())
}
