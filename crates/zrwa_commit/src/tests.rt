use super::*;
use std::test::Fail;
use zns_types::{Code, Geometry, GeometryFields};

// Random write areas of 8 blocks, committed 4 at a time, in zones of 48 blocks.
const SMALL: GeometryFields = GeometryFields {
    block_exp: 9,
    mdts: 0,
    zasl: 0,
    flags: 0,
    zones: 4,
    zone_size: 64,
    capacity: 48,
    active_limit: 3,
    open_limit: 2,
    windows: 1,
    granule: 4,
    window: 8,
    queues: 2,
    depth: 64,
};

#[test]
fn writes_move_the_pointer(rt: HostRuntime) -> Result<(), Fail> {
    let g = Geometry::new(SMALL)?;
    let rows = [
        (8, Some(0)),
        (9, Some(4)),
        (12, Some(4)),
        (13, Some(8)),
        (16, Some(8)),
        (17, None),
    ];
    for (end, pointer) in rows {
        let moved = if admits(0, 0, end, &g) {
            Some(implicit(0, u64::from(end), &g))
        } else {
            None
        };
        assert_eq!(rt; moved, pointer, "up to {end}");
    }
    assert!(rt; !admits(4, 3, 1, &g));
    Ok(())
}

#[test]
fn flushes_move_the_pointer(rt: HostRuntime) -> Result<(), Fail> {
    let g = Geometry::new(SMALL)?;
    let rows: [(u32, u64, Result<u64, Code>); 7] = [
        (0, 3, Ok(4)),
        (0, 7, Ok(8)),
        (0, 2, Err(Code::INVALID_FIELD)),
        (0, 8, Err(Code::ZONE_BOUNDARY_ERROR)),
        (4, 3, Err(Code::ZONE_BOUNDARY_ERROR)),
        (44, 47, Ok(48)),
        (44, 48, Err(Code::ZONE_BOUNDARY_ERROR)),
    ];
    for (p, last, pointer) in rows {
        assert_eq!(rt;
            explicit(u64::from(p), last, &g),
            pointer,
            "from {p} to {last}"
        );
    }
    Ok(())
}
