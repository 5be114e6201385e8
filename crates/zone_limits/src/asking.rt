ghost use Rattle.std.specs.Prelude.{◌≡◌, ◌↔◌, ◌&&◌, not, Some, None, IfErr, IfOk, IsOk};
ghost use Rattle.zns_types.specs.Rows.{first_holding};
ghost use Rattle.zone_limits.specs.Resources.{at_limit, no_active_left, need_rows, evicts};

use crate::limits::{Grant, Limits, Need};
use zns_types::{Code, Geometry};

// Whether a limit is reached; 0 means no limit.
fn at_limit(limit: u32, count: u32) -> bool
    ensures { result ≡ at_limit limit count }
{
    limit != 0 && count >= limit
}

/// What must happen before a command that needs these resources, or the status that says which of
/// them is used up. `evictable` says whether a zone can be closed to make room for the one to be
/// opened.
pub fn need(limits: &Limits, g: &Geometry, need: Need, evictable: bool) -> Result<Grant, Code>
    ensures refused { IfErr result (λ code.
        first_holding (need_rows g.now.fields limits.now need evictable) ≡ Some code) }
    ensures granted { IsOk result
        ↔ (first_holding (need_rows g.now.fields limits.now need evictable) ≡ None) }
    ensures evict { IfOk result (λ grant. grant.evict ≡ evicts g.now.fields limits.now need) }
{
    let fields = g.fields();
    if need.active && at_limit(fields.active_limit, limits.active) {
        return Err(Code::TOO_MANY_ACTIVE_ZONES);
    }
    let evict = need.opened && at_limit(fields.open_limit, limits.opened);
    if evict && !evictable {
        return Err(Code::TOO_MANY_OPEN_ZONES);
    }
    if need.window && limits.windows >= fields.windows {
        return Err(Code::ZRWA_RESOURCES_UNAVAILABLE);
    }
    Ok(Grant { evict })
}

/// Whether another zone has to give way for what a command needs: there are active resources left
/// for it, but no open ones.
pub fn wants_room(limits: &Limits, g: &Geometry, need: Need) -> bool
    ensures { result
        ≡ (not (no_active_left g.now.fields limits.now need).holds
        && evicts g.now.fields limits.now need) }
{
    let fields = g.fields();
    let no_active_left = need.active && at_limit(fields.active_limit, limits.active);
    !no_active_left && need.opened && at_limit(fields.open_limit, limits.opened)
}
