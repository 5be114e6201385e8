use crate::{DescErr, Descriptor, read, write};
use std::test::Fail;
use zns_types::State;

// The bytes of a descriptor with these first three bytes, capacity 48, first block 0 and the write
// pointer at block 1.
fn bytes_of(kind: u8, state: u8, attributes: u8) -> [u8; 64] {
    let mut bytes = [0; 64];
    bytes[0] = kind;
    bytes[1] = state;
    bytes[2] = attributes;
    bytes[8] = 48;
    bytes[24] = 1;
    bytes
}

fn descriptor_of(state: State, attributes: u8) -> Descriptor {
    Descriptor {
        state,
        attributes,
        capacity: 48,
        first: 0,
        pointer: 1,
    }
}

#[test]
fn descriptors_go_both_ways(rt: HostRuntime) {
    let rows = [
        (0x10, 0, State::Empty),
        (0x20, 0, State::ImplicitlyOpened),
        (0x30, 8, State::ExplicitlyOpened),
        (0x40, 2, State::Closed),
        (0xd0, 4, State::ReadOnly),
        (0xe0, 1, State::Full),
        (0xf0, 15, State::Offline),
    ];
    for (state_byte, attributes, state) in rows {
        let bytes = bytes_of(0x02, state_byte, attributes);
        let descriptor = descriptor_of(state, attributes);
        assert_eq!(rt; write(&descriptor), bytes);
        assert_eq!(rt; read(&bytes), Ok(descriptor));
    }
}

#[test]
fn reserved_bits_are_ignored(rt: HostRuntime) {
    let mut bytes = [0xff; 64];
    bytes[0] = 0xf2;
    bytes[1] = 0x1f;
    bytes[2] = 0xf5;
    let descriptor = Descriptor {
        state: State::Empty,
        attributes: 5,
        capacity: u64::MAX,
        first: u64::MAX,
        pointer: u64::MAX,
    };
    assert_eq!(rt; read(&bytes), Ok(descriptor));
}

#[test]
fn other_bytes_are_refused(rt: HostRuntime) {
    let rows = [
        (0x03, 0x50, DescErr::TypeNot2(3)),
        (0x20, 0x10, DescErr::TypeNot2(0x20)),
        (0x02, 0x50, DescErr::StateUnknown(80)),
        (0xf2, 0x02, DescErr::StateUnknown(2)),
        (0x02, 0xc1, DescErr::StateUnknown(0xc1)),
    ];
    for (kind, state, wanted) in rows {
        assert_eq!(rt; read(&bytes_of(kind, state, 0)), Err(wanted));
    }
}

#[test]
fn the_errors_show_their_byte(rt: HostRuntime) -> Result<(), Fail> {
    let kind = format!(in rt.alloc(); "{}", DescErr::TypeNot2(3))?;
    assert_eq!(rt;
        kind.as_str(),
        "the zone is not written in sequence: byte 0 is 0x03"
    );
    let state = format!(in rt.alloc(); "{}", DescErr::StateUnknown(0x50))?;
    assert_eq!(rt;
        state.as_str(),
        "the zone's state is unknown: byte 1 is 0x50"
    );
    Ok(())
}
