ghost use Rattle.std.specs.Prelude.{◌≡◌, ◌≤◌, ◌<◌, ◌++◌, length, drop, map, All};
ghost use Rattle.zns_types.specs.Geometry.{all_blocks};
ghost use Rattle.drive_rules.specs.Reports.{report};
ghost use Rattle.zone_cell.specs.Cells.{IsOf, descriptor_of};
ghost use Rattle.mgmt_receive.specs.Receiving.{report_of};

use crate::counts::count_all;
use crate::descriptors::give_all;
use crate::filters::wanted_state;
use crate::head::write_head;
use zns_types::Geometry;
use zone_cell::ZoneCell;

// Fills `out` with the report of these zones.
fn fill_report(cells: &[ZoneCell], g: &Geometry, filter: u8, partial: bool, out: &mut [u8])
    requires of { All (IsOf g.now.fields) cells.now }
    ensures { out.new
        ≡ report
        (length out.old)
        filter
        partial
        (map (descriptor_of g.now.fields) cells.now) }
{
    let wanted = wanted_state(filter);
    let head = out.len().min(64);
    let gave = give_all(cells, g, wanted, &mut out[head..]);
    let number = if partial {
        gave.given
    } else {
        count_all(cells, wanted, gave)
    };
    write_head(number as u64, &mut out[..head]);
}

/// Reports the zones that match a filter, starting at the zone that holds a block, in the first
/// `bytes` bytes of `out`. `partial` asks for the number of zones that fit, not of all that match.
/// The rest of `out` is unchanged. The cells are those of all zones.
pub fn report(
    cells: &[ZoneCell],
    g: &Geometry,
    slba: u64,
    bytes: u64,
    filter: u8,
    partial: bool,
    out: &mut [u8],
)
    requires all { length cells.now ≡ g.now.fields.zones }
    requires of { All (IsOf g.now.fields) cells.now }
    requires within { slba < all_blocks g.now.fields }
    requires room { bytes ≤ length out.old }
    ensures { out.new
        ≡ report_of g.now.fields cells.now slba bytes filter partial ++ drop bytes out.old }
{
    let from = g.zone_of(slba) as usize;
    fill_report(
        &cells[from..],
        g,
        filter,
        partial,
        &mut out[..bytes as usize],
    );
}
