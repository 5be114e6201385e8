use crate::fields::GeometryFields;

/// A small drive for examples and tests: four zones of 48 blocks of 512 bytes, which begin 64
/// blocks apart. At most three zones may be active, two opened, and one may have a random write
/// area, of 8 blocks in granules of 4. It has the admin queue and one I/O queue, each with 64
/// entries.
pub const SMALL_DRIVE: GeometryFields = GeometryFields {
    block_exp: 9,
    mdts: 0,
    zasl: 0,
    flags: 0,
    zones: 4,
    zone_size: 64,
    capacity: 48,
    active_limit: 3,
    open_limit: 2,
    windows: 1,
    granule: 4,
    window: 8,
    queues: 2,
    depth: 64,
};
