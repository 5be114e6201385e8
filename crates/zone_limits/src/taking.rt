ghost use Rattle.std.specs.Prelude.{◌≡◌, ◌<◌, ◌≤◌, IsTrue};
ghost use Rattle.zns_types.specs.declared.fields.GeometryFields.{GeometryFields};
ghost use Rattle.zone_limits.specs.Resources.{taken, given_back, AreWithin, HasRoom};

use crate::limits::{Limits, Need};
use zns_types::Geometry;

/// Adds the resources that a command needs and was granted.
pub fn take(limits: &mut Limits, g: &Geometry, need: Need)
    requires active { IsTrue need.active → HasRoom g.now.fields.active_limit limits.old.active }
    requires opened { IsTrue need.opened → HasRoom g.now.fields.open_limit limits.old.opened }
    requires windows { IsTrue need.window → limits.old.windows < g.now.fields.windows }
    requires active_zones { IsTrue need.active → limits.old.active < g.now.fields.zones }
    requires opened_zones { IsTrue need.opened → limits.old.opened < g.now.fields.zones }
    requires window_zones { IsTrue need.window → limits.old.windows < g.now.fields.zones }
    ensures counts { limits.new ≡ taken limits.old need }
    ensures within { AreWithin g.now.fields limits.old → AreWithin g.now.fields limits.new }
{
    if need.active {
        limits.active += 1;
    }
    if need.opened {
        limits.opened += 1;
    }
    if need.window {
        limits.windows += 1;
    }
}

/// Subtracts the resources that a zone gives back.
pub fn give_back(limits: &mut Limits, need: Need)
    requires active { IsTrue need.active → 1 ≤ limits.old.active }
    requires opened { IsTrue need.opened → 1 ≤ limits.old.opened }
    requires windows { IsTrue need.window → 1 ≤ limits.old.windows }
    ensures counts { limits.new ≡ given_back limits.old need }
    ensures within { (g : GeometryFields) → AreWithin g limits.old → AreWithin g limits.new }
{
    limits.active -= u32::from(need.active);
    limits.opened -= u32::from(need.opened);
    limits.windows -= u32::from(need.window);
}
