use super::sessions::one_write;
use session_file::Reason;
use std::test::Fail;
use zns_io::{Bytes, MemSink, MemSource, SureSource};
use zns_program::{Status, Word, top_plain};

// The number of a call that isn't made.
const NO_CALL: u32 = 99;

// A read or a write that fails is reported, even if the next one would succeed. What was written
// before is the front of the output.
#[test]
fn failing_reads_and_writes_are_reported(rt: HostRuntime) -> Result<(), Fail> {
    let alloc = rt.alloc();
    // the read and the write that fail, the status, its line, and how many bytes are written
    let (read, write) = ("zns_runner: read fault\n", "zns_runner: write fault\n");
    let rows = [
        (NO_CALL, NO_CALL, Status::Ok, "", 4_388),
        (0, NO_CALL, Status::ReadFault, read, 0),
        (1, NO_CALL, Status::ReadFault, read, 0),
        (7, NO_CALL, Status::ReadFault, read, 0),
        (NO_CALL, 0, Status::WriteFault, write, 0),
        (NO_CALL, 1, Status::WriteFault, write, 1_000),
        (NO_CALL, 4, Status::WriteFault, write, 4_000),
    ];
    let words = vec![in alloc; Word::of(alloc, "one")?]?;
    let mut whole = Vec::new(alloc);
    for (failing_read, failing_write, status, line, written) in rows {
        let input = Bytes::from_vec(one_write(alloc)?);
        let mut source = MemSource::new(input, 100, vec![in alloc; failing_read]?);
        let mut sink = MemSink::new(alloc, 20_000, 1_000, vec![in alloc; failing_write]?)?;
        let ended = top_plain(alloc, &words, &mut source, &mut sink);
        assert_eq!(rt; (ended, sink.bytes().len()), (status, written));
        assert_eq!(rt; ended.line(alloc)?.as_slice(), line.as_bytes());
        if status == Status::Ok {
            whole.extend_from_slice(sink.bytes())?;
        }
        assert_eq!(rt; Some(sink.bytes()), whole.get(..written));
    }
    Ok(())
}

// Every front of a session is too short, and that is reported at its end.
#[test]
fn a_session_may_not_be_cut(rt: HostRuntime) -> Result<(), Fail> {
    let alloc = rt.alloc();
    let whole = one_write(alloc)?;
    let words = vec![in alloc; Word::of(alloc, "one")?]?;
    for len in 0..whole.len() {
        let mut source = SureSource::new(Bytes::of(alloc, whole.get(..len).unwrap_or(&[]))?, 600);
        let mut sink = MemSink::new(alloc, 1_000, 1_000, Vec::new(alloc))?;
        let short = Status::BadFile {
            reason: Reason::Short,
            offset: len as u64,
        };
        assert_eq!(rt; top_plain(alloc, &words, &mut source, &mut sink), short);
        assert!(rt; sink.bytes().is_empty());
    }
    Ok(())
}
