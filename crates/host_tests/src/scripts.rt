use host_script::{read, serve};
use session_file::{FileErr, Reason, Which};
use std::alloc::Global;
use std::test::Fail;
use zns_io::Bytes;

// Four zones of 64 blocks of 512 bytes, of which 48 can be written; at most three active and two
// opened; one random write area of 8 blocks in granules of 4; two queues of 64 entries; no
// commands.
const HEADER: [u8; 64] = [
    b'Z', b'N', b'S', b'Q', b'0', b'0', b'0', b'1', 9, 0, 0, 0, 4, 0, 0, 0, 64, 0, 0, 0, 0, 0, 0,
    0, 48, 0, 0, 0, 0, 0, 0, 0, 3, 0, 0, 0, 2, 0, 0, 0, 1, 0, 0, 0, 4, 0, 8, 0, 2, 0, 64, 0, 0, 0,
    0, 0, 0, 0, 0, 0, 0, 0, 0, 0,
];

// The script of these lines on the drive above.
fn script(alloc: Global, lines: &str) -> Result<Vec<u8>, Fail> {
    let mut bytes = Vec::from_slice(alloc, &HEADER)?;
    bytes.extend_from_slice(lines.as_bytes())?;
    Ok(bytes)
}

// What the drive answers to these lines.
fn answers(alloc: Global, lines: &str) -> Result<Bytes, Fail> {
    let script = read(alloc, &script(alloc, lines)?)?;
    Ok(serve(alloc, script)?)
}

#[test]
fn each_kind_of_line_is_answered(rt: HostRuntime) -> Result<(), Fail> {
    // lines, and what is written for them
    let rows = [
        ("", ""),
        ("r 0\n", "ok\n"),
        (
            "o 0\np 0 0 4 17\nf 0 3\nd 0\na 0 1 5\nr 0\nd 0\n",
            "ok\nok\nok\n0 3 1 4\nrefused 1 b6\nok\n0 1 0 0\n",
        ),
        (
            "a 1 47 9\na 1 1 9\nd 1\nw 256 1 7\nw 128 2 7\nd 2\n",
            "ok 64\nok 111\n1 e 0 -\nrefused 0 80\nok\n2 2 0 2\n",
        ),
        ("w 18446744073709551615 65536 255\n", "refused 0 80\n"),
    ];
    for (lines, text) in rows {
        assert_eq!(rt; answers(rt.alloc(), lines)?.as_slice(), text.as_bytes());
    }
    Ok(())
}

// The error of a line that has no meaning and begins at an offset.
fn bad_line(offset: u64) -> Option<FileErr> {
    Some(FileErr::Bad {
        reason: Reason::HostLine,
        offset,
    })
}

#[test]
fn lines_are_refused_by_name_and_place(rt: HostRuntime) -> Result<(), Fail> {
    let sent = FileErr::Large {
        which: Which::Sent,
        number: 167_772_160,
    };
    // lines, and why they are refused
    let rows = [
        ("o 4\n", bad_line(64)),
        ("r 0\no 0", bad_line(68)),
        ("r 0\n\nr 0\n", bad_line(68)),
        ("d  0\n", bad_line(64)),
        ("d 0 \n", bad_line(64)),
        ("d 00\n", bad_line(64)),
        ("x 0\n", bad_line(64)),
        ("p 0 0 1 1 1\n", bad_line(64)),
        ("f 0 64\n", bad_line(64)),
        ("a 0 0 1\n", bad_line(64)),
        ("a 0 65537 1\n", bad_line(64)),
        ("a 0 1 256\n", bad_line(64)),
        ("w 18446744073709551616 1 1\n", bad_line(64)),
        (
            "w 0 65536 1\nw 0 65536 1\nw 0 65536 1\nw 0 65536 1\nw 0 65536 1\n",
            Some(sent),
        ),
        ("w 0 65536 1\nw 0 65536 1\nw 0 65536 1\nw 0 65536 1\n", None),
    ];
    for (lines, error) in rows {
        let bytes = script(rt.alloc(), lines)?;
        assert_eq!(rt; read(rt.alloc(), &bytes).err(), error, "{lines}");
    }
    Ok(())
}

#[test]
fn headers_are_refused_by_name_and_place(rt: HostRuntime) -> Result<(), Fail> {
    // a place in the header, the byte that is put there, and the offset of what is wrong
    for (place, byte, offset) in [(8, 8, 8), (48, 1, 48), (52, 1, 52), (56, 1, 56)] {
        let mut header = HEADER;
        header[place] = byte;
        let error = FileErr::Bad {
            reason: Reason::Header,
            offset,
        };
        assert_eq!(rt; read(rt.alloc(), &header).err(), Some(error));
    }
    Ok(())
}

#[test]
fn one_line_too_many_is_told(rt: HostRuntime) -> Result<(), Fail> {
    let mut bytes = script(rt.alloc(), "")?;
    for _ in 0..262_144 {
        bytes.extend_from_slice(b"r 0\n")?;
    }
    assert_eq!(rt; read(rt.alloc(), &bytes).err(), None);
    bytes.push(b'?')?;
    let error = FileErr::Large {
        which: Which::Commands,
        number: 262_145,
    };
    assert_eq!(rt; read(rt.alloc(), &bytes).err(), Some(error));
    Ok(())
}
