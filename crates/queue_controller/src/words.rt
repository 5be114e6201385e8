//! Takes the words of a command's zones in rising order.
ghost use Rattle.std.specs.Prelude.{◌≡◌, ◌+◌, ◌-◌, ◌<◌, ◌≤◌};
ghost use Rattle.std.specs.List.{range_with_len};
ghost use Rattle.solo_drive.specs.Reaching.{zones_of};
ghost use Rattle.queue_controller.specs.Words.{HoldsNothing, AreInRow, HasZones, TriesZones};

use solo_drive::Reach;
use std::sync::Wait;
use zns_types::Geometry;
use zone_desk::{Desk, QueuePass};

/// The book's lock word. The zones' words follow it.
pub(crate) const BOOK: u32 = 1;

// The zones of a reach: from the first of the two on, up to but not including the second.
fn bounds(g: &Geometry, reach: Reach) -> (u32, u32)
    requires { AreInRow g.now.fields (zones_of g.now.fields reach) }
    ensures zones { range_with_len result.0 (result.1 - result.0) ≡ zones_of g.now.fields reach }
    ensures order { result.0 ≤ result.1 }
    ensures within { result.1 ≤ g.now.fields.zones }
    ensures few { result.1 ≤ 4096 }
{
    match reach {
        Reach::Nothing => (0, 0),
        Reach::Range(first, last) => {
            if first > last {
                return (0, 0);
            }
            (first, last + 1)
        }
        Reach::All => (0, g.fields().zones),
    }
}

// Takes the words of the zones from `first` on, up to but not including `end`.
fn take_between<R: Wait>(rt: &R, desk: &Desk, pass: &mut QueuePass, first: u32, end: u32)
    requires free { HoldsNothing desk.now pass.old }
    requires order { first ≤ end }
    requires within { end ≤ desk.now.geometry.zones }
    requires few { end ≤ 4096 }
    ensures { HasZones (range_with_len first (end - first)) pass.old pass.new }
{
    for zone in first..end {
        desk.take_word(rt, pass, zone + 2);
    }
}

/// Takes the words of a reach's zones one after another, and waits for each.
pub(crate) fn take_zones<R: Wait>(rt: &R, desk: &Desk, pass: &mut QueuePass, reach: Reach)
    requires free { HoldsNothing desk.now pass.old }
    requires row { AreInRow desk.now.geometry (zones_of desk.now.geometry reach) }
    ensures { HasZones (zones_of desk.now.geometry reach) pass.old pass.new }
{
    let (first, end) = bounds(desk.geometry(), reach);
    take_between(rt, desk, pass, first, end);
}

// Takes the words of the zones from `first` on, up to but not including `end`. Stops at a word that
// is held, and returns it.
fn try_between(desk: &Desk, pass: &mut QueuePass, first: u32, end: u32) -> Option<u32>
    requires free { HoldsNothing desk.now pass.old }
    requires order { first ≤ end }
    requires within { end ≤ desk.now.geometry.zones }
    requires few { end ≤ 4096 }
    ensures { TriesZones (range_with_len first (end - first)) pass.old pass.new result }
{
    for zone in first..end {
        if !desk.try_word(pass, zone + 2) {
            return Some(zone + 2);
        }
    }
    None
}

/// Takes the words of a reach's zones one after another. Stops at a word that is held, and returns
/// it.
pub(crate) fn try_zones(desk: &Desk, pass: &mut QueuePass, reach: Reach) -> Option<u32>
    requires free { HoldsNothing desk.now pass.old }
    requires row { AreInRow desk.now.geometry (zones_of desk.now.geometry reach) }
    ensures { TriesZones (zones_of desk.now.geometry reach) pass.old pass.new result }
{
    let (first, end) = bounds(desk.geometry(), reach);
    try_between(desk, pass, first, end)
}
