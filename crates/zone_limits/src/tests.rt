use super::*;
use std::test::Fail;
use zns_types::{Code, Geometry, GeometryFields};

// Four zones, of which three may be active, two may be opened and one may have a random write area.
const SMALL: GeometryFields = GeometryFields {
    block_exp: 9,
    mdts: 0,
    zasl: 0,
    flags: 0,
    zones: 4,
    zone_size: 64,
    capacity: 48,
    active_limit: 3,
    open_limit: 2,
    windows: 1,
    granule: 4,
    window: 8,
    queues: 2,
    depth: 64,
};

// What an Open of an Empty zone with a random write area needs.
const ALL: Need = Need {
    active: true,
    opened: true,
    window: true,
};

#[test]
fn the_first_want_refuses(rt: HostRuntime) -> Result<(), Fail> {
    let g = Geometry::new(SMALL)?;
    let rows = [
        ((3, 2, 1), false, Err(Code::TOO_MANY_ACTIVE_ZONES)),
        ((2, 2, 1), false, Err(Code::TOO_MANY_OPEN_ZONES)),
        ((2, 2, 1), true, Err(Code::ZRWA_RESOURCES_UNAVAILABLE)),
        ((2, 2, 0), true, Ok(Grant { evict: true })),
        ((2, 1, 0), false, Ok(Grant { evict: false })),
    ];
    for ((active, opened, windows), evictable, answer) in rows {
        let limits = Limits {
            active,
            opened,
            windows,
        };
        assert_eq!(rt; need(&limits, &g, ALL, evictable), answer, "at {limits:?}");
    }
    Ok(())
}

#[test]
fn another_zone_is_wanted_before_a_window_is(rt: HostRuntime) -> Result<(), Fail> {
    let g = Geometry::new(SMALL)?;
    for ((active, opened, windows), wants) in [
        ((3, 2, 0), false),
        ((2, 2, 1), true),
        ((2, 1, 0), false),
    ] {
        let limits = Limits {
            active,
            opened,
            windows,
        };
        assert_eq!(rt; wants_room(&limits, &g, ALL), wants, "at {limits:?}");
    }
    Ok(())
}

#[test]
fn counts_come_back(rt: HostRuntime) -> Result<(), Fail> {
    let g = Geometry::new(SMALL)?;
    let mut limits = Limits::default();
    take(&mut limits, &g, ALL);
    assert_eq!(rt;
        limits,
        Limits {
            active: 1,
            opened: 1,
            windows: 1
        }
    );
    give_back(&mut limits, ALL);
    assert_eq!(rt; limits, Limits::default());
    Ok(())
}
