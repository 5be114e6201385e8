/// A command, as the 64 bytes of a submission queue entry spell it on a kind of queue: the admin
/// queue or an I/O queue.
///
/// `nsid` is the namespace, `slba` and `zslba` are logical block numbers in the namespace, from 0,
/// and `blocks` is a count of at least one. Lengths are in bytes. Bits that belong to no field are
/// ignored.
#[derive(Clone, Copy, Debug, PartialEq, Eq)]
pub enum Cmd {
    /// Flush (Base Specification 2.0, 7.1).
    Flush {
        nsid: u32,
    },

    /// Write of 1 to 65,536 blocks starting at `slba` (NVM Command Set Specification 1.0, 3.2.6).
    Write {
        nsid: u32,
        slba: u64,
        blocks: u32,
    },

    /// Read of 1 to 65,536 blocks starting at `slba` (NVM Command Set Specification 1.0, 3.2.4).
    Read {
        nsid: u32,
        slba: u64,
        blocks: u32,
    },

    /// Zone Append of 1 to 65,536 blocks to the zone that begins at `zslba` (Zoned Namespace
    /// Command Set Specification 1.1, 3.4.1).
    Append {
        nsid: u32,
        zslba: u64,
        blocks: u32,
    },

    /// Zone Management Send (Zoned Namespace Command Set Specification 1.1, 3.4.3). `slba` is the
    /// first block of the zone; with action 11h, Flush Explicit ZRWA Range, the last block to
    /// commit. `all` is Select All, and `option` asks an Open for a random write area.
    Send {
        nsid: u32,
        slba: u64,
        action: u8,
        all: bool,
        option: bool,
    },

    /// Zone Management Receive of `bytes` bytes, a multiple of 4 and at least 4 (Zoned Namespace
    /// Command Set Specification 1.1, 3.4.2). The report begins with the zone of block `slba`;
    /// `filter` says which states it takes, and `partial` is Partial Report.
    Receive {
        nsid: u32,
        slba: u64,
        bytes: u64,
        action: u8,
        filter: u8,
        partial: bool,
    },

    /// Identify, which gives 4,096 bytes (Base Specification 2.0, 5.17).
    Identify {
        nsid: u32,
        cns: u8,
        csi: u8,
    },

    /// Get Log Page of `bytes` bytes, a multiple of 4 and at least 4, starting at byte `offset` of
    /// the page (Base Specification 2.0, 5.16). `retain` is Retain Asynchronous Event.
    GetLog {
        nsid: u32,
        page: u8,
        bytes: u64,
        offset: u64,
        retain: bool,
    },

    /// Set Features: `value` is dword 11 (Base Specification 2.0, 5.27).
    SetFeature {
        feature: u8,
        value: u32,
    },

    /// Get Features (Base Specification 2.0, 5.15).
    GetFeature {
        feature: u8,
    },

    /// Asynchronous Event Request (Base Specification 2.0, 5.2).
    Event,

    /// An excursion: the host makes the zone that begins at `slba` do what a controller does on its
    /// own. This is the project's own command, opcode C0h. `kind` 1 finishes the zone, 2 recommends
    /// a finish and 3 a reset, 4 makes it Read Only and 5 Offline.
    Excursion {
        nsid: u32,
        slba: u64,
        kind: u8,
    },

    /// A command whose opcode isn't listed for its kind of queue.
    Unknown {
        opcode: u8,
    },
}
