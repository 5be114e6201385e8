/// A field of a geometry.
#[derive(Clone, Copy, Debug, PartialEq, Eq)]
pub enum Field {
    BlockExp,
    Mdts,
    Zasl,
    Flags,
    Zones,
    ZoneSize,
    Capacity,
    Granule,
    Window,
    Queues,
    Depth,
}

/// The first rule that fields break: the field, its number, and whether the number is too large for
/// this drive, rather than making no drive at all.
#[derive(Clone, Copy, Debug, PartialEq, Eq)]
pub struct GeomErr {
    pub field: Field,
    pub number: u64,
    pub large: bool,
}
