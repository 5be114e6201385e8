use super::*;
use std::alloc::{AllocError, Global};
use std::test::Fail;

// `len` bytes that count up from 0, starting again after 250.
fn counted(alloc: Global, len: usize) -> Result<Vec<u8>, AllocError> {
    let mut items = Vec::new(alloc);
    for at in 0..len {
        items.push((at % 251) as u8)?;
    }
    Ok(items)
}

// Reads 250 bytes in pieces of 100, with some failing calls: how many bytes came and how the
// reading ended.
fn length_read(
    alloc: Global,
    failing: &[u32],
    limit: u32,
) -> Result<Result<usize, ReadErr>, AllocError> {
    let bytes = counted(alloc, 250)?;
    let failing = Vec::from_slice(alloc, failing)?;
    let mut source = MemSource::new(Bytes::from_vec(bytes), 100, failing);
    Ok(read_all(alloc, &mut source, u64::from(limit)).map(|bytes| bytes.as_slice().len()))
}

// Writes 2,500 bytes in pieces of 1,000, with some failing calls: whether all were taken, and how
// many were.
fn length_written(alloc: Global, room: u32, failing: &[u32]) -> Result<(bool, usize), Fail> {
    let bytes = counted(alloc, 2500)?;
    let failing = Vec::from_slice(alloc, failing)?;
    let mut sink = MemSink::new(alloc, room, 1000, failing)?;
    let result = write_all(&mut sink, &bytes);
    let kept = sink.bytes();
    if kept.len() > bytes.len() || kept != &bytes[..kept.len()] {
        return Err(Fail::from("other bytes were kept"));
    }
    Ok((result.is_ok(), kept.len()))
}

#[test]
fn a_source_in_memory_gives_pieces_and_fails_by_its_list(rt: HostRuntime) -> Result<(), Fail> {
    let alloc = rt.alloc();
    let failing = vec![in alloc; 1u32, 4]?;
    let mut source = MemSource::new(Bytes::from_vec(counted(alloc, 250)?), 100, failing);
    let mut out = [0; 256];
    for (len, first) in [
        (Ok(100), 0),
        (Err(Failed), 0),
        (Ok(100), 100),
        (Ok(50), 200),
        (Err(Failed), 200),
        (Ok(0), 200),
    ] {
        assert_eq!(rt; source.read(&mut out), len);
        assert_eq!(rt; out[0], first);
    }
    let mut sure = SureSource::new(Bytes::from_vec(counted(alloc, 250)?), 100);
    for len in [100, 100, 50, 0] {
        assert_eq!(rt; sure.read(&mut out), Ok(len));
    }
    Ok(())
}

#[test]
fn all_is_read_up_to_a_limit(rt: HostRuntime) -> Result<(), Fail> {
    let alloc = rt.alloc();
    for (failing, limit, want) in [
        ([9].as_slice(), 1000, Ok(250)),
        ([9].as_slice(), 250, Ok(250)),
        ([9].as_slice(), 249, Err(ReadErr::Over)),
        ([9].as_slice(), 0, Err(ReadErr::Over)),
        ([0].as_slice(), 1000, Err(ReadErr::Failed)),
        ([1].as_slice(), 1000, Err(ReadErr::Failed)),
        ([3].as_slice(), 1000, Err(ReadErr::Failed)),
        ([4].as_slice(), 1000, Ok(250)),
    ] {
        assert_eq!(rt; length_read(alloc, failing, limit)?, want);
    }
    let mut sure = SureSource::new(Bytes::from_vec(counted(alloc, 5000)?), 3000);
    let all = read_all(alloc, &mut sure, 5000)?;
    assert_eq!(rt; all.as_slice(), counted(alloc, 5000)?.as_slice());
    Ok(())
}

#[test]
fn a_sink_in_memory_takes_a_front(rt: HostRuntime) -> Result<(), Fail> {
    let alloc = rt.alloc();
    for (room, failing, want) in [
        (2500, [9], (true, 2500)),
        (2500, [0], (false, 0)),
        (2500, [1], (false, 1000)),
        (2500, [2], (false, 2000)),
        (2500, [3], (true, 2500)),
        (1500, [9], (false, 1500)),
        (0, [9], (false, 0)),
    ] {
        assert_eq!(rt; length_written(alloc, room, &failing)?, want);
    }
    Ok(())
}

#[test]
fn a_sure_sink_drops_what_passes_its_room(rt: HostRuntime) -> Result<(), Fail> {
    let alloc = rt.alloc();
    let bytes = counted(alloc, 150)?;
    // The writes are of 60, 60 and 30 bytes.
    for (room, len) in [(150, 150), (149, 120), (100, 90), (59, 30), (29, 0)] {
        let mut sink = SureSink::new(alloc, room, 60)?;
        assert_eq!(rt; write_all(&mut sink, &bytes), Ok(()));
        assert_eq!(rt; sink.bytes().len(), len);
    }
    Ok(())
}

#[test]
fn readers_and_writers_of_std(rt: HostRuntime) -> Result<(), Fail> {
    let alloc = rt.alloc();
    let bytes = counted(alloc, 5000)?;
    let mut source = StdSource::new(bytes.as_slice());
    assert_eq!(rt;
        read_all(alloc, &mut source, 5000)?.as_slice(),
        bytes.as_slice()
    );

    let mut items = Vec::new(alloc);
    let mut sink = StdSink::new(&mut items);
    write_all(&mut sink, &bytes)?;
    drop(sink);
    assert_eq!(rt; items.as_slice(), bytes.as_slice());

    // Each call makes one call of the reader or the writer, with the whole buffer or all the bytes.
    let mut out = [0; 4096];
    let mut source = StdSource::new(bytes.as_slice());
    for len in [4096, 904, 0] {
        assert_eq!(rt; source.read(&mut out), Ok(len));
    }
    let mut sink = StdSink::new(Vec::new(alloc));
    assert!(rt; !bytes.is_empty());
    assert_eq!(rt; sink.write(&bytes), Ok(5000));

    let mut room = [0; 4];
    let mut small = StdSink::new(&mut room[..]);
    assert_eq!(rt; write_all(&mut small, &bytes), Err(Failed));
    drop(small);
    assert_eq!(rt; room, [0, 1, 2, 3]);
    Ok(())
}

#[test]
fn bytes_are_copied_and_filled(rt: HostRuntime) -> Result<(), Fail> {
    let alloc = rt.alloc();
    for from in [[].as_slice(), [7].as_slice(), [0, 255, 1, 0].as_slice()] {
        assert_eq!(rt; Bytes::of(alloc, from)?.as_slice(), from);
    }
    for (len, byte, want) in [
        (0, 7, [].as_slice()),
        (1, 255, [255].as_slice()),
        (4, 0, [0, 0, 0, 0].as_slice()),
        (3, 0x11, [0x11, 0x11, 0x11].as_slice()),
    ] {
        assert_eq!(rt; Bytes::filled(alloc, len, byte)?.as_slice(), want);
    }
    Ok(())
}

#[test]
fn errors_say_what_is_wrong(rt: HostRuntime) -> Result<(), Fail> {
    let alloc = rt.alloc();
    let failed = format!(in alloc; "{}", Failed)?;
    assert_eq!(rt; failed.as_str(), "a read or a write failed");
    for (error, want) in [
        (ReadErr::NoMemory, "out of memory"),
        (ReadErr::Failed, "a read failed"),
        (ReadErr::Over, "more bytes came than were allowed"),
    ] {
        let text = format!(in alloc; "{error}")?;
        assert_eq!(rt; text.as_str(), want);
    }
    Ok(())
}

#[test]
fn zeros_fill_up_to_a_length(rt: HostRuntime) -> Result<(), Fail> {
    let alloc = rt.alloc();
    for (len, zeros) in [(0, 0), (3, 0), (4, 1), (4099, 4096), (9000, 8997)] {
        let mut bytes = Vec::with_capacity(alloc, 9000)?;
        bytes.extend_from_slice(&[7; 3])?;
        pad(&mut bytes, len);
        let counted = bytes.iter().filter(|byte| **byte == 0).count();
        assert_eq!(rt; (bytes.len(), counted), (3 + zeros, zeros), "up to {len}");
        assert!(rt; bytes.starts_with(&[7; 3]), "up to {len}");
    }
    Ok(())
}
