/// What a command does to one zone. Offsets are in blocks from the zone's start.
#[derive(Clone, Copy, Debug, PartialEq, Eq)]
pub enum Deed {
    /// Writes blocks from an offset on.
    Write { from: u64, blocks: u32 },

    /// Writes blocks from the write pointer on.
    Append { blocks: u32 },

    /// Opens the zone, with a random write area if one is asked for.
    Open { window: bool },

    /// Commits the blocks of the random write area up to an offset.
    Commit { last: u64 },

    Close,
    Finish,
    Reset,
    Offline,

    /// The controller itself acts on the zone, in one of five ways.
    Excursion { kind: u8 },
}
