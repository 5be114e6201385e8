use zns_types::State;

// The type of a zone that is written in sequence.
pub const SEQUENTIAL: u8 = 2;

/// A zone, as a report shows it.
#[derive(Clone, Copy, Debug, PartialEq, Eq)]
pub struct Descriptor {
    /// The zone's state.
    pub state: State,

    /// Bit 0: the controller finished the zone; bit 1: a finish is recommended; bit 2: a reset is
    /// recommended; bit 3: the zone has a random write area.
    pub attributes: u8,

    /// The number of blocks that can be written.
    pub capacity: u64,

    /// The number of the first block.
    pub first: u64,

    /// The number of the block at the write pointer, or all ones if the pointer means nothing.
    pub pointer: u64,
}
