ghost use Rattle.std.specs.Prelude.{◌≡◌, ◌≤◌, ◌*◌, ◌^◌, ◌||◌, ◌==◌, true, false, Bool, IsTrue, IsNone, IfNone};
ghost use Rattle.zns_types.specs.Rules.{rules, unit_rules, zone_rules, window_rules, queue_rules};
ghost use Rattle.zns_types.specs.Rows.{first_holding};
ghost use Rattle.zns_types.specs.Geometry.{IsGeometry, HasUnits, HasZones, HasWindows, HasQueues};

use crate::field::{Field, GeomErr};
use crate::fields::GeometryFields;

// A number that makes no drive at all.
fn bad(field: Field, number: u64) -> Option<GeomErr>
    ensures { result ≡ Some (record { field = field; number = number; large = false }) }
{
    Some(GeomErr {
        field,
        number,
        large: false,
    })
}

// A number that is too large for this drive.
fn large(field: Field, number: u64) -> Option<GeomErr>
    ensures { result ≡ Some (record { field = field; number = number; large = true }) }
{
    Some(GeomErr {
        field,
        number,
        large: true,
    })
}

// The first rule on blocks and transfers that is broken.
fn broken_unit(g: &GeometryFields) -> Option<GeomErr>
    ensures exact { result ≡ first_holding (unit_rules g.now) }
    ensures valid { IfNone result (HasUnits g.now) }
    ensures only { HasUnits g.now → IsNone result }
{
    if g.block_exp != 9 && g.block_exp != 12 {
        return bad(Field::BlockExp, u64::from(g.block_exp));
    }
    if g.mdts > 16 {
        return bad(Field::Mdts, u64::from(g.mdts));
    }
    if g.zasl > 16 {
        return bad(Field::Zasl, u64::from(g.zasl));
    }
    if g.flags > 1 {
        return bad(Field::Flags, u64::from(g.flags));
    }
    None
}

// The first rule on the number and size of zones that is broken.
fn broken_zone(g: &GeometryFields) -> Option<GeomErr>
    requires { HasUnits g.now }
    ensures exact { result ≡ first_holding (zone_rules g.now) }
    ensures valid { IfNone result (HasZones g.now) }
    ensures only { HasZones g.now → IsNone result }
{
    if g.zones == 0 {
        return bad(Field::Zones, 0);
    }
    if g.zones > 4_096 {
        return large(Field::Zones, u64::from(g.zones));
    }
    if g.zone_size == 0 {
        return bad(Field::ZoneSize, 0);
    }
    if g.zone_size > ((1 << 28) >> g.block_exp) / u64::from(g.zones) {
        return large(Field::ZoneSize, g.zone_size);
    }
    if g.capacity == 0 || g.capacity > g.zone_size {
        return bad(Field::Capacity, g.capacity);
    }
    None
}

// The first rule on random write areas that is broken.
fn broken_window(g: &GeometryFields) -> Option<GeomErr>
    ensures exact { result ≡ first_holding (window_rules g.now) }
    ensures valid { IfNone result (HasWindows g.now) }
    ensures only { HasWindows g.now → IsNone result }
{
    let granule = u64::from(g.granule);
    let window = u64::from(g.window);
    if (g.granule == 0) != (g.windows == 0) {
        return bad(Field::Granule, granule);
    }
    if g.granule == 0 {
        return if g.window == 0 {
            None
        } else {
            bad(Field::Window, window)
        };
    }
    if g.capacity % granule != 0 {
        return bad(Field::Granule, granule);
    }
    if window % granule != 0 || window < granule || window > g.capacity {
        return bad(Field::Window, window);
    }
    None
}

// The first rule on queues that is broken.
fn broken_queue(g: &GeometryFields) -> Option<GeomErr>
    ensures exact { result ≡ first_holding (queue_rules g.now) }
    ensures valid { IfNone result (HasQueues g.now) }
    ensures only { HasQueues g.now → IsNone result }
{
    if g.queues == 0 {
        return bad(Field::Queues, 0);
    }
    if g.queues > 17 {
        return large(Field::Queues, u64::from(g.queues));
    }
    if g.depth < 2 {
        return bad(Field::Depth, u64::from(g.depth));
    }
    if g.depth > 4_096 {
        return large(Field::Depth, u64::from(g.depth));
    }
    None
}

/// The first rule that is broken.
pub fn first_broken(g: &GeometryFields) -> Option<GeomErr>
    ensures exact { result ≡ first_holding (rules g.now) }
    ensures valid { IfNone result (IsGeometry g.now) }
    ensures only { IsGeometry g.now → IsNone result }
{
    if let Some(broken) = broken_unit(g) {
        return Some(broken);
    }
    if let Some(broken) = broken_zone(g) {
        return Some(broken);
    }
    if let Some(broken) = broken_window(g) {
        return Some(broken);
    }
    broken_queue(g)
}
