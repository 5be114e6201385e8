ghost use Rattle.std.specs.Prelude.{◌≡◌, ◌≤◌};
ghost use Rattle.host_script.specs.Lines.{IsLine, blocks_of, byte_of, data_len};

use zns_types::Geometry;

/// A line of a script: one command of a host. Its host data is `blocks` blocks, 1 to 65,536, whose
/// bytes are all `byte`. Zones are counted from 0, and offsets are in blocks from a zone's start.
#[derive(Clone, Copy, Debug, PartialEq, Eq)]
pub enum Line {
    /// `w`: Write from the block `lba` of the namespace on.
    Write {
        lba: u64,
        blocks: u32,
        byte: u8,
    },

    /// `a`: Zone Append.
    Append {
        zone: u32,
        blocks: u32,
        byte: u8,
    },

    /// `p`: Write into a zone's random write area, from the offset `offset` on.
    Put {
        zone: u32,
        offset: u64,
        blocks: u32,
        byte: u8,
    },

    /// `o`: open a zone with a random write area.
    Open {
        zone: u32,
    },

    /// `f`: commit a zone's random write area, up to the block at the offset `last`.
    Flush {
        zone: u32,
        last: u64,
    },

    /// `r`: reset a zone.
    Reset {
        zone: u32,
    },

    /// `d`: report a zone.
    Report {
        zone: u32,
    },
}

impl Line {
    // The number of blocks of its host data.
    fn blocks(self) -> u32
        ensures { result ≡ blocks_of self }
    {
        match self {
            Line::Write { blocks, .. } | Line::Append { blocks, .. } | Line::Put { blocks, .. } => {
                blocks
            }
            _ => 0,
        }
    }

    /// The byte that its host data repeats, or 0 if it has none.
    pub fn byte(self) -> u8
        ensures { result ≡ byte_of self }
    {
        match self {
            Line::Write { byte, .. } | Line::Append { byte, .. } | Line::Put { byte, .. } => byte,
            _ => 0,
        }
    }

    /// The length of its host data, in bytes.
    pub fn data_len(self, g: &Geometry) -> u32
        requires { IsLine g.now.fields self }
        ensures exact { result ≡ data_len g.now.fields self }
        ensures few { result ≤ 268435456 }
    {
        self.blocks() * g.block_len()
    }
}
