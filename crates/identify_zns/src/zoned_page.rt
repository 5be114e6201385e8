ghost use Rattle.std.specs.Prelude.{◌≡◌, length};
ghost use Rattle.identify_zns.specs.Pages.{zoned_page};

use byteorder::{ByteOrder, LittleEndian};

/// What the page of a zoned namespace says.
#[derive(Clone, Copy, Debug, PartialEq, Eq)]
pub struct ZonedPage {
    /// Whether a Read may cross the boundary between two zones.
    pub cross: bool,

    /// The most zones that may be active, less one; all ones means no limit.
    pub mar: u32,

    /// The most zones that may be opened, less one; all ones means no limit.
    pub mor: u32,

    /// The most zones that may have a random write area.
    pub windows: u32,

    /// The number of blocks that a random write area commits at a time.
    pub granule: u16,

    /// The number of blocks in a random write area.
    pub window: u16,

    /// Whether a command can commit random write areas.
    pub explicit: bool,

    /// The number of blocks from the start of a zone to the start of the next.
    pub zone_size: u64,
}

/// Reads the page of a zoned namespace.
pub fn read_zoned(page: &[u8]) -> ZonedPage
    requires { length page.now ≡ 4096 }
    ensures { result ≡ zoned_page page.now }
{
    ZonedPage {
        cross: LittleEndian::read_u16(&page[2..]) % 2 == 1,
        mar: LittleEndian::read_u32(&page[4..]),
        mor: LittleEndian::read_u32(&page[8..]),
        windows: LittleEndian::read_u32(&page[44..]),
        granule: LittleEndian::read_u16(&page[48..]),
        window: LittleEndian::read_u16(&page[50..]),
        explicit: page[52] % 2 == 1,
        zone_size: LittleEndian::read_u64(&page[2816..]),
    }
}
