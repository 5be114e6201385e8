use arrayvec::ArrayVec;
use cqe_codec::Cqe;
use session_file::{
    Act, Acts, Begun, Feed, FileErr, First, Journal, Reason, Replies, Reply, ResultFile,
    begin_from, read, read_order_after, write, write_result,
};
use sqe_codec::Sqe;
use std::alloc::Global;
use std::test::Fail;
use zns_io::{Bytes, SureSource};

// Four zones of 64 blocks, 48 of which can be written, and no commands.
const HEADER: [u8; 64] = *b"ZNSQ0001\
    \x09\x00\x00\x00\x04\x00\x00\x00\x40\x00\x00\x00\x00\x00\x00\x00\
    \x30\x00\x00\x00\x00\x00\x00\x00\x00\x00\x00\x00\x00\x00\x00\x00\
    \x00\x00\x00\x00\x00\x00\x00\x00\x02\x00\x40\x00\x00\x00\x00\x00\
    \x00\x00\x00\x00\x00\x00\x00\x00";

// A Write of one block at LBA 0 on queue 1, up to its host data.
const RECORD: [u8; 16] = *b"\x01\x00\x00\x00\x00\x02\x00\x00\x01\x00\x01\x00\x01\x00\x00\x00";

// The session of one Write, and one byte after it.
fn one_write(alloc: Global) -> Result<Vec<u8>, Fail> {
    let mut file = Vec::new(alloc);
    file.extend_from_slice(&HEADER[..52])?;
    file.extend_from_slice(&[1])?;
    file.extend_from_slice(&HEADER[53..])?;
    file.extend_from_slice(&RECORD)?;
    file.extend_from_slice(&[0; 56])?;
    file.extend_from_slice(&[0x11; 513])?;
    Ok(file)
}

#[test]
fn sessions_are_read_and_written(rt: HostRuntime) -> Result<(), Fail> {
    let alloc = rt.alloc();
    let mut file = one_write(alloc)?;
    file.truncate(648);
    for bytes in [HEADER.as_slice(), file.as_slice()] {
        let session = read(alloc, bytes)?;
        assert_eq!(rt; write(alloc, &session)?.as_slice(), bytes);
    }
    Ok(())
}

fn bad(reason: Reason, offset: u64) -> Option<FileErr> {
    Some(FileErr::Bad { reason, offset })
}

#[test]
fn a_session_and_then_an_order_come_from_a_source(rt: HostRuntime) -> Result<(), Fail> {
    let alloc = rt.alloc();
    let mut file = one_write(alloc)?;
    file.truncate(648);
    file.extend_from_slice(b"ZNSR0001\x01\x00\x00\x00\x01\x00")?;
    let mut source = SureSource::new(Bytes::from_vec(file), 650);
    let Begun {
        session,
        len,
        mut rest,
    } = match begin_from(alloc, &mut source) {
        Ok(First::Session(begun)) => begun,
        _ => return Err(Fail::from("no session came")),
    };
    assert_eq!(rt; len, 648);
    assert_eq!(rt; rest.rest().len(), 2);
    let short = read_order_after(alloc, rest.rest(), 648, &session).err();
    assert_eq!(rt; short, bad(Reason::Short, 650));
    if rest.rest().len() <= 20 {
        assert_eq!(rt; rest.fill(alloc, &mut source, 14, 20), Ok(true));
    }
    let order = read_order_after(alloc, rest.rest(), 648, &session)?;
    assert_eq!(rt; order.len(), 1);
    let mut other = Vec::from_slice(alloc, rest.rest())?;
    if let Some(queue) = other.get_mut(12) {
        *queue = 0;
    }
    let other = read_order_after(alloc, Feed::from_vec(other).rest(), 648, &session).err();
    assert_eq!(rt; other, bad(Reason::ResultOrder, 660));
    rest.skip(rest.rest().len());
    assert_eq!(rt; rest.more(alloc, &mut source, 20), Ok(false));
    assert!(rt; rest.rest().is_empty());
    Ok(())
}

#[test]
fn a_front_of_no_session_is_given_back(rt: HostRuntime) -> Result<(), Fail> {
    let alloc = rt.alloc();
    for len in [63, 100] {
        let mut file = one_write(alloc)?;
        file.truncate(len);
        match begin_from(alloc, &mut SureSource::new(Bytes::from_vec(file), 10)) {
            Ok(First::Other(front)) => assert_eq!(rt; front.as_slice().len(), len),
            _ => return Err(Fail::from("it was taken for a session")),
        }
    }
    Ok(())
}

#[test]
fn a_result_is_written(rt: HostRuntime) -> Result<(), Fail> {
    let alloc = rt.alloc();
    let mut journal = Journal::new(alloc, 1)?;
    journal.push(Act {
        queue: 1,
        sqe: Sqe { bytes: [0; 64] },
        payload: Bytes::empty(alloc),
    });
    let mut entries = ArrayVec::new();
    entries.push(Cqe {
        head: 1,
        sqid: 1,
        cid: 1,
        phase: true,
        ..Cqe::default()
    });
    let mut replies = Replies::new(alloc, 1)?;
    replies.push(Reply {
        entries,
        read: Bytes::of(alloc, &[7])?,
    });
    let result = write_result(alloc, &journal, &replies, &[8; 64], &[9; 4096])?;
    let bytes = result.as_slice();
    assert_eq!(rt; bytes.len(), 4_197);
    let front = b"ZNSR0001\x01\x00\x00\x00\x01\x00\x01\x00\
        \x00\x00\x00\x00\x00\x00\x00\x00\x01\x00\x01\x00\x01\x00\x01\x00\
        \x01\x00\x00\x00\x07\x08";
    assert!(rt; bytes.starts_with(front));
    let mut acts = Acts::new(alloc, 1)?;
    acts.push(Act {
        queue: 1,
        sqe: Sqe { bytes: [0; 64] },
        payload: Bytes::empty(alloc),
    });
    let mut file = ResultFile::new(alloc, &acts)?;
    file.put(replies.reply(0).entries.as_slice(), &[7])?;
    let file = file.finish(&[8; 64], &[9; 4096])?;
    assert!(rt; file.as_slice() == bytes);
    Ok(())
}
