ghost use Rattle.std.specs.Prelude.{◌≡◌, ◌≤◌, [], ◌++◌, true, is_some, length, drop, unwrap_or};
ghost use Rattle.drive_book.specs.Outcomes.{plain_success};
ghost use Rattle.identify_zns.specs.Pages.{page_of};

use drive_book::Outcome;
use identify_zns::{IdErr, fill};
use zns_types::Geometry;

// The length of a page in bytes.
const PAGE: u32 = 4096;

/// Serves an Identify that none of its front rows refuses: there is a page for this structure (CNS)
/// and command set (CSI). It goes to the start of `out`; the rest of `out` is unchanged.
pub fn serve_identify(g: &Geometry, cns: u8, csi: u8, out: &mut [u8]) -> Outcome
    requires page { is_some (page_of cns csi g.now.fields) ≡ true }
    requires room { 4096 ≤ length out.old }
    ensures outcome { result ≡ record plain_success { len = 4096 } }
    ensures read { out.new
        ≡ unwrap_or (page_of cns csi g.now.fields) [] ++ drop 4096 out.old }
{
    match fill(cns, csi, g, &mut out[..PAGE as usize]) {
        Ok(()) => Outcome {
            len: PAGE,
            ..Outcome::done()
        },
        Err(IdErr::Unknown) => unreachable!(),
    }
}
