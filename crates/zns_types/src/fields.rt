/// The numbers of a drive, as the header of a session gives them.
#[derive(Clone, Copy, Debug, PartialEq, Eq)]
pub struct GeometryFields {
    /// A block has `2^block_exp` bytes: 512 or 4,096.
    pub block_exp: u8,

    /// One command moves at most `2^(12 + mdts)` bytes; 0 means no limit other than 65,536 blocks.
    pub mdts: u8,

    /// One Append moves at most `2^(12 + zasl)` bytes; 0 means no further limit.
    pub zasl: u8,

    /// Bit 0: a Read may cross the boundary of two zones.
    pub flags: u8,

    /// The number of zones.
    pub zones: u32,

    /// The blocks from the start of a zone to the start of the next.
    pub zone_size: u64,

    /// The blocks of a zone that can be written.
    pub capacity: u64,

    /// The most zones that may be active; 0 means no limit.
    pub active_limit: u32,

    /// The most zones that may be opened; 0 means no limit.
    pub open_limit: u32,

    /// The most zones that may have a random write area; 0 means that none is supported.
    pub windows: u32,

    /// The blocks that a random write area commits at a time.
    pub granule: u16,

    /// The blocks of a random write area.
    pub window: u16,

    /// The number of queues, including the admin queue.
    pub queues: u16,

    /// The entries of each queue.
    pub depth: u16,
}
