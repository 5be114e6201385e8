ghost use Rattle.std.specs.Prelude.{◌≡◌, ◌+◌, ◌-◌, ◌*◌, ◌%◌, ◌^◌, ◌<◌, ◌≤◌, max};
ghost use Rattle.zrwa_commit.specs.Least.{least_multiple};
ghost use Rattle.zrwa_commit.specs.Windows.{is_admitted, FewestGranules};

use zns_types::Geometry;

/// Whether a write of `count` blocks from the offset `from` on is admitted when the write pointer
/// is `p`: into the random write area, or at most as far again past it.
pub fn admits(p: u64, from: u64, count: u32, g: &Geometry) -> bool
    requires pointer { p < 2 ^ 32 }
    requires offset { from < 2 ^ 32 }
    ensures { result ≡ is_admitted g.now.fields p from (from + count) }
{
    p <= from && from + u64::from(count) <= p + 2 * u64::from(g.fields().window)
}

/// The write pointer after a write that ends before the offset `end`, if it was at `p`.
pub fn implicit(p: u64, end: u64, g: &Geometry) -> u64
    requires windows { 1 ≤ g.now.fields.windows }
    requires pointer { p < 2 ^ 32 }
    requires admitted { end ≤ p + 2 * g.now.fields.window }
    ensures fewest { FewestGranules g.now.fields p end result }
    ensures least { p % g.now.fields.granule ≡ 0 → result
        ≡ least_multiple g.now.fields.granule (max p (end - g.now.fields.window)) }
    ensures in_capacity { p < g.now.fields.capacity → end ≤ g.now.fields.capacity
        → result < g.now.fields.capacity }
{
    let fields = g.fields();
    let granule = u64::from(fields.granule);
    let area_end = p + u64::from(fields.window);
    p + end.saturating_sub(area_end).div_ceil(granule) * granule
}
