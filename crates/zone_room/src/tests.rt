ghost use Rattle.std.specs.Prelude.{IsTrue, All, length, ◌≡◌, ◌<◌};
ghost use Rattle.zone_limits.specs.Resources.{AreWithin};
ghost use Rattle.zone_cell.specs.Cells.{IsOf};
ghost use Rattle.zone_cell.specs.Deeds.{HasBlocks, IsBlocksFor, HasSmallOffset};
ghost use Rattle.zone_room.specs.Using.{IsCounted, AreCounted, EachIsCounted};
ghost use Rattle.zone_room.specs.Rooms.{cell_use};

use super::*;
use crate::counting::use_of;
use drive_rules::Deed;
use std::test::Fail;
use zns_types::{Code, Geometry, GeometryFields, State};
use zone_cell::ZoneCell;
use zone_limits::Limits;

// Two zones may be opened, and one may have a random write area.
const SMALL: GeometryFields = GeometryFields {
    block_exp: 9,
    mdts: 0,
    zasl: 0,
    flags: 0,
    zones: 4,
    zone_size: 64,
    capacity: 48,
    active_limit: 4,
    open_limit: 2,
    windows: 1,
    granule: 4,
    window: 8,
    queues: 2,
    depth: 64,
};

// Whether the counts are within the limits.
fn is_within(limits: &Limits, g: &Geometry) -> bool
    ensures { IsTrue result → AreWithin g.now.fields limits.now }
{
    let fields = g.fields();
    (fields.active_limit == 0 || limits.active <= fields.active_limit)
        && (fields.open_limit == 0 || limits.opened <= fields.open_limit)
        && limits.windows <= fields.windows
        && limits.active <= fields.zones
        && limits.opened <= fields.zones
        && limits.windows <= fields.zones
}

// Whether a resource is counted for a zone that uses it.
fn counts(zones: u32, count: u32, uses: bool) -> bool
    ensures { IsTrue result → IsCounted zones count uses }
{
    if uses { count >= 1 } else { count < zones }
}

// Whether a zone's use is counted.
fn is_counted(cell: &ZoneCell, limits: &Limits, g: &Geometry) -> bool
    ensures { IsTrue result → AreCounted g.now.fields limits.now (cell_use cell.now) }
{
    let used = use_of(cell);
    let zones = g.fields().zones;
    is_within(limits, g)
        && counts(zones, limits.active, used.active)
        && counts(zones, limits.opened, used.opened)
        && counts(zones, limits.windows, used.window)
}

// Whether each zone's use is counted.
fn are_counted(cells: &[ZoneCell], limits: &Limits, g: &Geometry) -> bool
    ensures { IsTrue result → EachIsCounted g.now.fields limits.now cells.now }
{
    for cell in cells {
        if !is_counted(cell, limits, g) {
            return false;
        }
    }
    true
}

// Whether host data is exactly `blocks` blocks, and at least one.
fn has_blocks(g: &Geometry, blocks: u32, payload: &[u8]) -> bool
    ensures { IsTrue result → HasBlocks g.now.fields blocks payload.now }
{
    blocks > 0 && payload.len() as u64 == u64::from(blocks) * u64::from(g.block_len())
}

// Whether host data is what a deed comes with.
fn is_supplied(g: &Geometry, deed: Deed, payload: &[u8]) -> bool
    ensures blocks { IsTrue result → IsBlocksFor g.now.fields deed payload.now }
    ensures offset { IsTrue result → HasSmallOffset deed }
{
    match deed {
        Deed::Write { from, blocks } => from < 1 << 32 && has_blocks(g, blocks, payload),
        Deed::Append { blocks } => has_blocks(g, blocks, payload),
        _ => true,
    }
}

// Serves a deed, if everything it requires holds.
fn serve(
    cells: &mut [ZoneCell],
    limits: &mut Limits,
    g: &Geometry,
    place: usize,
    all: bool,
    deed: Deed,
) -> Option<Served>
    requires { All (IsOf g.now.fields) cells.old }
    ensures { All (IsOf g.now.fields) cells.new }
{
    let payload = [0x11; 2_048];
    if place >= cells.len() || !is_supplied(g, deed, &payload) || !are_counted(cells, limits, g) {
        return None;
    }
    Some(serve_deed(cells, limits, g, place, all, deed, &payload))
}

// A deed to the zone at a place.
type Row = (usize, Deed, Served, [State; 4]);

#[test]
fn another_zone_gives_way(rt: HostRuntime) -> Result<(), Fail> {
    let g = Geometry::new(SMALL)?;
    let alloc = rt.alloc();
    let mut cells = [
        ZoneCell::new(alloc, &g, 0)?,
        ZoneCell::new(alloc, &g, 1)?,
        ZoneCell::new(alloc, &g, 2)?,
        ZoneCell::new(alloc, &g, 3)?,
    ];
    let mut limits = Limits::default();
    let (e, i, x, c) = (
        State::Empty,
        State::ImplicitlyOpened,
        State::ExplicitlyOpened,
        State::Closed,
    );
    let write = |from: u64| Deed::Write { from, blocks: 4 };
    let open = |window: bool| Deed::Open { window };
    let no_window_left = Served::Refused(Code { sct: 1, sc: 0xb7 });
    let too_many_open = Served::Refused(Code { sct: 1, sc: 0xbe });
    let rows: [Row; 8] = [
        (1, write(0), Served::Done, [e, i, e, e]),
        (2, write(0), Served::Done, [e, i, i, e]),
        (0, write(0), Served::Done, [i, c, i, e]),
        (3, open(true), Served::Done, [c, c, i, x]),
        (0, open(true), no_window_left, [c, c, i, x]),
        (2, open(false), Served::Done, [c, c, x, x]),
        (0, write(4), too_many_open, [c, c, x, x]),
        (3, Deed::Close, Served::Done, [c, c, x, c]),
    ];
    for (place, deed, served, states) in rows {
        let got = serve(&mut cells, &mut limits, &g, place, true, deed);
        assert_eq!(rt; got, Some(served), "{deed:?} of {place}");
        let now = [
            cells[0].state(),
            cells[1].state(),
            cells[2].state(),
            cells[3].state(),
        ];
        assert_eq!(rt; now, states, "after {deed:?} of {place}");
    }
    let mut one = [ZoneCell::new(alloc, &g, 0)?];
    for (opened, served, state) in [(2, Served::Widens, e), (1, Served::Done, i)] {
        let mut limits = Limits {
            active: 2,
            opened,
            windows: 0,
        };
        let got = serve(&mut one, &mut limits, &g, 0, false, write(0));
        assert_eq!(rt; got, Some(served), "{opened} opened");
        assert_eq!(rt; one[0].state(), state, "{opened} opened");
        assert_eq!(rt; limits.opened, 2, "{opened} opened");
    }
    Ok(())
}
