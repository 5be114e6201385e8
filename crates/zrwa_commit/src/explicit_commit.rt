ghost use Rattle.std.specs.Prelude.{◌≡◌, ◌+◌, ◌^◌, ◌<◌, ◌≤◌, ◌↔◌, Some, None, IfOk, IfErr, IsOk};
ghost use Rattle.zns_types.specs.Rows.{first_holding};
ghost use Rattle.zrwa_commit.specs.Windows.{commit_rows};

use zns_types::{Code, Geometry};

/// The write pointer after a commit of the blocks from `p` up to and including the offset `last`,
/// or the status that refuses it.
pub fn explicit(p: u64, last: u64, g: &Geometry) -> Result<u64, Code>
    requires windows { 1 ≤ g.now.fields.windows }
    requires pointer { p < 2 ^ 32 }
    ensures refused { IfErr result (λ code.
        first_holding (commit_rows g.now.fields p last) ≡ Some code) }
    ensures admitted { IsOk result ↔ (first_holding (commit_rows g.now.fields p last) ≡ None) }
    ensures pointer { IfOk result (λ new. new ≡ last + 1) }
{
    let fields = g.fields();
    if last < p || last >= p + u64::from(fields.window) || last >= fields.capacity {
        return Err(Code::ZONE_BOUNDARY_ERROR);
    }
    if (last - p + 1) % u64::from(fields.granule) != 0 {
        return Err(Code::INVALID_FIELD);
    }
    Ok(last + 1)
}
