ghost use Rattle.std.specs.Prelude.{◌≡◌, ◌^◌, ◌<◌, ◌≤◌, ◌++◌, length, drop, All};
ghost use Rattle.zns_types.specs.Geometry.{all_blocks};
ghost use Rattle.drive_book.specs.Outcomes.{plain_success};
ghost use Rattle.mgmt_receive.specs.Receiving.{report_of};
ghost use Rattle.zone_cell.specs.Cells.{IsOf};

use drive_book::Outcome;
use mgmt_receive::report;
use zns_types::Geometry;
use zone_cell::ZoneCell;

/// Serves a Zone Management Receive that none of its front rows refuses, from the cells of all
/// zones. The report goes to the first `bytes` bytes of `out`; the rest of `out` is unchanged.
pub fn serve_receive(
    cells: &[ZoneCell],
    g: &Geometry,
    slba: u64,
    bytes: u64,
    filter: u8,
    partial: bool,
    out: &mut [u8],
) -> Outcome
    requires all { length cells.now ≡ g.now.fields.zones }
    requires of { All (IsOf g.now.fields) cells.now }
    requires within { slba < all_blocks g.now.fields }
    requires few { bytes < 2 ^ 32 }
    requires room { bytes ≤ length out.old }
    ensures outcome { result ≡ record plain_success { len = bytes } }
    ensures read { out.new
        ≡ report_of g.now.fields cells.now slba bytes filter partial ++ drop bytes out.old }
{
    report(cells, g, slba, bytes, filter, partial, out);
    Outcome {
        len: bytes as u32,
        ..Outcome::done()
    }
}
