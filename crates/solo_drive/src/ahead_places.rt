ghost use Rattle.std.specs.Prelude.{◌≡◌};
ghost use Rattle.solo_drive.specs.Ahead.{is_in_opened, goes_ahead, opened_in};

use sqe_codec::Cmd;
use zns_types::Geometry;
use zone_cell::ZoneCell;

// Whether one of the cells is that of `zone`, and the zone is opened.
fn is_opened(cells: &[ZoneCell], zone: u32) -> bool
    ensures { result ≡ opened_in cells.now zone }
{
    for cell in cells {
        if cell.zone() == zone && cell.state().is_opened() {
            return true;
        }
    }
    false
}

// Whether a block is in an opened zone of the cells.
fn is_in_opened(cells: &[ZoneCell], g: &Geometry, lba: u64) -> bool
    ensures { result ≡ is_in_opened g.now.fields (opened_in cells.now) lba }
{
    lba < g.blocks() && is_opened(cells, g.zone_of(lba))
}

/// Whether a command can move its bytes before the book is held: it is a Read, or a Write or an
/// Append whose first block is in an opened zone of the cells.
pub fn goes_ahead(cells: &[ZoneCell], g: &Geometry, command: Cmd) -> bool
    ensures { result ≡ goes_ahead g.now.fields (opened_in cells.now) command }
{
    match command {
        Cmd::Read { .. } => true,
        Cmd::Write { slba, .. } => is_in_opened(cells, g, slba),
        Cmd::Append { zslba, .. } => is_in_opened(cells, g, zslba),
        _ => false,
    }
}
