use crate::{Code, Field, GeomErr, Geometry, GeometryFields, State};

// Sixty-four zones of 64 blocks, with random write areas of two granules.
const DRIVE: GeometryFields = GeometryFields {
    block_exp: 12,
    mdts: 0,
    zasl: 0,
    flags: 0,
    zones: 64,
    zone_size: 64,
    capacity: 48,
    active_limit: 0,
    open_limit: 0,
    windows: 2,
    granule: 4,
    window: 8,
    queues: 2,
    depth: 8,
};

#[test]
fn the_edges_of_each_rule_are_a_drive(rt: HostRuntime) {
    let rows = [
        DRIVE,
        GeometryFields {
            block_exp: 9,
            zones: 4_096,
            zone_size: 128,
            ..DRIVE
        },
        GeometryFields {
            zones: 1,
            zone_size: 65_536,
            capacity: 65_536,
            ..DRIVE
        },
        GeometryFields {
            mdts: 16,
            zasl: 16,
            flags: 1,
            ..DRIVE
        },
        GeometryFields {
            zone_size: 1,
            capacity: 1,
            granule: 1,
            window: 1,
            ..DRIVE
        },
        GeometryFields {
            windows: 0,
            granule: 0,
            window: 0,
            ..DRIVE
        },
        GeometryFields {
            granule: 48,
            window: 48,
            ..DRIVE
        },
        GeometryFields {
            granule: 4,
            window: 4,
            windows: u32::MAX,
            ..DRIVE
        },
        GeometryFields {
            active_limit: u32::MAX,
            open_limit: u32::MAX,
            ..DRIVE
        },
        GeometryFields {
            queues: 1,
            depth: 2,
            ..DRIVE
        },
        GeometryFields {
            queues: 17,
            depth: 4_096,
            ..DRIVE
        },
    ];
    for fields in rows {
        let made = Geometry::new(fields).map(|geometry| *geometry.fields());
        assert_eq!(rt; made, Ok(fields));
    }
}

fn bad(field: Field, number: u64) -> GeomErr {
    GeomErr {
        field,
        number,
        large: false,
    }
}

fn large(field: Field, number: u64) -> GeomErr {
    GeomErr {
        field,
        number,
        large: true,
    }
}

#[test]
fn the_first_broken_number_is_named(rt: HostRuntime) {
    let rows = [
        (
            GeometryFields {
                block_exp: 10,
                ..DRIVE
            },
            bad(Field::BlockExp, 10),
        ),
        (GeometryFields { mdts: 17, ..DRIVE }, bad(Field::Mdts, 17)),
        (GeometryFields { zasl: 17, ..DRIVE }, bad(Field::Zasl, 17)),
        (GeometryFields { flags: 2, ..DRIVE }, bad(Field::Flags, 2)),
        (GeometryFields { zones: 0, ..DRIVE }, bad(Field::Zones, 0)),
        (
            GeometryFields {
                zones: 4_097,
                ..DRIVE
            },
            large(Field::Zones, 4_097),
        ),
        (
            GeometryFields {
                zone_size: 0,
                ..DRIVE
            },
            bad(Field::ZoneSize, 0),
        ),
        (
            GeometryFields {
                zone_size: 1_025,
                ..DRIVE
            },
            large(Field::ZoneSize, 1_025),
        ),
        (
            GeometryFields {
                zone_size: u64::MAX,
                ..DRIVE
            },
            large(Field::ZoneSize, u64::MAX),
        ),
        (
            GeometryFields {
                capacity: 0,
                ..DRIVE
            },
            bad(Field::Capacity, 0),
        ),
        (
            GeometryFields {
                capacity: 65,
                ..DRIVE
            },
            bad(Field::Capacity, 65),
        ),
        (
            GeometryFields {
                block_exp: 0,
                flags: 9,
                depth: 0,
                ..DRIVE
            },
            bad(Field::BlockExp, 0),
        ),
        (
            GeometryFields {
                flags: 9,
                zones: 0,
                ..DRIVE
            },
            bad(Field::Flags, 9),
        ),
        (
            GeometryFields {
                zones: 5_000,
                zone_size: 0,
                ..DRIVE
            },
            large(Field::Zones, 5_000),
        ),
        (
            GeometryFields {
                zone_size: 1_025,
                capacity: 0,
                ..DRIVE
            },
            large(Field::ZoneSize, 1_025),
        ),
    ];
    for (fields, wanted) in rows {
        assert_eq!(rt; Geometry::new(fields).err(), Some(wanted));
    }
}

#[test]
fn the_first_broken_window_or_queue_is_named(rt: HostRuntime) {
    let rows = [
        (
            GeometryFields {
                windows: 0,
                ..DRIVE
            },
            bad(Field::Granule, 4),
        ),
        (
            GeometryFields {
                granule: 0,
                ..DRIVE
            },
            bad(Field::Granule, 0),
        ),
        (
            GeometryFields {
                granule: 5,
                ..DRIVE
            },
            bad(Field::Granule, 5),
        ),
        (
            GeometryFields {
                windows: 0,
                granule: 0,
                ..DRIVE
            },
            bad(Field::Window, 8),
        ),
        (GeometryFields { window: 0, ..DRIVE }, bad(Field::Window, 0)),
        (
            GeometryFields {
                window: 10,
                ..DRIVE
            },
            bad(Field::Window, 10),
        ),
        (
            GeometryFields {
                window: 52,
                ..DRIVE
            },
            bad(Field::Window, 52),
        ),
        (GeometryFields { queues: 0, ..DRIVE }, bad(Field::Queues, 0)),
        (
            GeometryFields {
                queues: 18,
                ..DRIVE
            },
            large(Field::Queues, 18),
        ),
        (GeometryFields { depth: 1, ..DRIVE }, bad(Field::Depth, 1)),
        (
            GeometryFields {
                depth: 4_097,
                ..DRIVE
            },
            large(Field::Depth, 4_097),
        ),
        (
            GeometryFields {
                capacity: 0,
                granule: 5,
                ..DRIVE
            },
            bad(Field::Capacity, 0),
        ),
        (
            GeometryFields {
                granule: 5,
                window: 7,
                queues: 0,
                ..DRIVE
            },
            bad(Field::Granule, 5),
        ),
        (
            GeometryFields {
                window: 7,
                depth: 0,
                ..DRIVE
            },
            bad(Field::Window, 7),
        ),
        (
            GeometryFields {
                queues: 18,
                depth: 0,
                ..DRIVE
            },
            large(Field::Queues, 18),
        ),
    ];
    for (fields, wanted) in rows {
        assert_eq!(rt; Geometry::new(fields).err(), Some(wanted));
    }
}

#[test]
fn a_drive_has_these_lengths(rt: HostRuntime) {
    let rows = [
        (DRIVE, 4_096, 4_096, 268_435_456),
        (
            GeometryFields {
                block_exp: 9,
                mdts: 16,
                ..DRIVE
            },
            512,
            4_096,
            33_554_432,
        ),
        (
            GeometryFields {
                mdts: 1,
                zones: 3,
                ..DRIVE
            },
            4_096,
            192,
            8_192,
        ),
    ];
    for (fields, block_len, blocks, transfer) in rows {
        let made = Geometry::new(fields);
        assert!(rt; made.is_ok());
        if let Ok(geometry) = made {
            assert_eq!(rt; geometry.block_len(), block_len);
            assert_eq!(rt; geometry.blocks(), blocks);
            assert_eq!(rt; geometry.greatest_transfer(), transfer);
            assert_eq!(rt; geometry.first(0), 0);
        }
    }
}

#[test]
fn blocks_lie_in_their_zones(rt: HostRuntime) {
    let made = Geometry::new(DRIVE);
    assert!(rt; made.is_ok());
    if let Ok(geometry) = made {
        for (lba, zone) in [(0, 0), (63, 0), (64, 1), (4_095, 63)] {
            assert!(rt; lba < geometry.blocks());
            assert_eq!(rt; geometry.zone_of(lba), zone, "at {lba}");
        }
        for (zone, first) in [(0, 0), (1, 64), (63, 4_032)] {
            assert!(rt; zone < geometry.fields().zones);
            assert_eq!(rt; geometry.first(zone), first, "at {zone}");
        }
    }
}

#[test]
fn each_state_has_its_number(rt: HostRuntime) {
    let mut found = [None; 256];
    let states = [
        (0x1, State::Empty),
        (0x2, State::ImplicitlyOpened),
        (0x3, State::ExplicitlyOpened),
        (0x4, State::Closed),
        (0xd, State::ReadOnly),
        (0xe, State::Full),
        (0xf, State::Offline),
    ];
    for (number, state) in states {
        assert_eq!(rt; state.number(), number);
        found[usize::from(number)] = Some(state);
    }
    for number in 0..=255u8 {
        assert_eq!(rt; State::of_number(number), found[usize::from(number)]);
    }
}

#[test]
fn want_of_a_resource_may_be_tried_again(rt: HostRuntime) {
    let rows = [
        (Code::SUCCESS, 0, 0x00, false),
        (Code::INVALID_OPCODE, 0, 0x01, true),
        (Code::INVALID_FIELD, 0, 0x02, true),
        (Code::INVALID_NAMESPACE, 0, 0x0b, true),
        (Code::LBA_OUT_OF_RANGE, 0, 0x80, true),
        (Code::EVENT_LIMIT_EXCEEDED, 1, 0x05, true),
        (Code::INVALID_LOG_PAGE, 1, 0x09, true),
        (Code::INVALID_ZONE_OPERATION, 1, 0xb6, true),
        (Code::ZRWA_RESOURCES_UNAVAILABLE, 1, 0xb7, false),
        (Code::ZONE_BOUNDARY_ERROR, 1, 0xb8, true),
        (Code::ZONE_FULL, 1, 0xb9, true),
        (Code::ZONE_READ_ONLY, 1, 0xba, true),
        (Code::ZONE_OFFLINE, 1, 0xbb, true),
        (Code::ZONE_INVALID_WRITE, 1, 0xbc, true),
        (Code::TOO_MANY_ACTIVE_ZONES, 1, 0xbd, false),
        (Code::TOO_MANY_OPEN_ZONES, 1, 0xbe, false),
        (Code::INVALID_ZONE_STATE_TRANSITION, 1, 0xbf, true),
    ];
    let mut all = Code::all().into_iter();
    for (code, sct, sc, dnr) in rows {
        assert_eq!(rt; all.next(), Some(code));
        assert_eq!(rt; (code.sct, code.sc), (sct, sc));
        assert_eq!(rt; code.dnr(), dnr);
    }
}
