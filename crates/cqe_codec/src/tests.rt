use crate::{Cqe, CqeErr, read, write};
use std::test::Fail;
use zns_types::Code;

// An entry that is refused for good, one that may be retried, and one in which every number is
// different.
const ENTRIES: [([u8; 16], Cqe); 3] = [
    (
        [
            0, 0, 0, 0, 0, 0, 0, 0, 0x02, 0x00, 0x01, 0x00, 0x02, 0x00, 0x79, 0x83,
        ],
        Cqe {
            dw0: 0,
            dw1: 0,
            head: 2,
            sqid: 1,
            cid: 2,
            phase: true,
            code: Code::ZONE_INVALID_WRITE,
            dnr: true,
        },
    ),
    (
        [
            0, 0, 0, 0, 0, 0, 0, 0, 0x03, 0x00, 0x01, 0x00, 0x07, 0x00, 0x7d, 0x03,
        ],
        Cqe {
            dw0: 0,
            dw1: 0,
            head: 3,
            sqid: 1,
            cid: 7,
            phase: true,
            code: Code::TOO_MANY_OPEN_ZONES,
            dnr: false,
        },
    ),
    (
        [1, 2, 3, 4, 5, 6, 7, 8, 9, 10, 11, 12, 13, 14, 0x02, 0x0e],
        Cqe {
            dw0: 0x0403_0201,
            dw1: 0x0807_0605,
            head: 0x0a09,
            sqid: 0x0c0b,
            cid: 0x0e0d,
            phase: false,
            code: Code { sct: 7, sc: 1 },
            dnr: false,
        },
    ),
];

#[test]
fn entries_go_both_ways(rt: HostRuntime) {
    for (bytes, cqe) in ENTRIES {
        assert_eq!(rt; write(&cqe), bytes);
        assert_eq!(rt; read(&bytes), Ok(cqe));
    }
}

#[test]
fn unused_bits_are_refused(rt: HostRuntime) {
    for last in [0x10, 0x20, 0x40, 0x70, 0x90, 0xff] {
        let mut bytes = [0; 16];
        bytes[15] = last;
        assert_eq!(rt; read(&bytes), Err(CqeErr::Reserved(last)));
    }
    assert_eq!(rt; read(&[0; 16]), Ok(Cqe::default()));
}

#[test]
fn the_error_shows_the_byte(rt: HostRuntime) -> Result<(), Fail> {
    let text = format!(in rt.alloc(); "{}", CqeErr::Reserved(0x4a))?;
    assert_eq!(rt;
        text.as_str(),
        "reserved bits are set: the last byte is 0x4a"
    );
    Ok(())
}
