ghost use Rattle.std.specs.Prelude.{◌≡◌, ◌≤◌, ◌+◌, ◌<◌, IfOk, length, All};
ghost use Rattle.zone_cell.specs.Cells.{IsOf};

use super::*;
use std::alloc::Global;
use std::test::Fail;
use zns_io::NoMemory;
use zns_types::{Geometry, GeometryFields, SMALL_DRIVE};
use zone_cell::ZoneCell;
use zone_state::{Action, go};

const SMALL: GeometryFields = GeometryFields {
    active_limit: 0,
    open_limit: 0,
    windows: 0,
    granule: 0,
    window: 0,
    ..SMALL_DRIVE
};

// A report of all zones, in 320 bytes.
const ALL: Asked = Asked {
    slba: 0,
    bytes: 320,
    filter: 0,
    partial: false,
};

// The byte that the output buffer is filled with before a report.
const KEPT: u8 = 0xee;

// What a Receive asks for.
#[derive(Clone, Copy, Debug)]
struct Asked {
    slba: u64,
    bytes: u64,
    filter: u8,
    partial: bool,
}

// Applies an action to a zone if its state allows it.
fn turn(cell: &mut ZoneCell, g: &Geometry, action: Action)
    requires { IsOf g.now.fields cell.old }
    ensures { IsOf g.now.fields cell.new }
{
    if go(cell.state(), action).is_ok() {
        cell.turn(g, action, false);
    }
}

// A zone after an action, and after another one if its number is odd.
fn zone_after(
    alloc: Global,
    g: &Geometry,
    zone: u32,
    first: Action,
    odd: Action,
) -> Result<ZoneCell, NoMemory>
    requires { zone < g.now.fields.zones }
    ensures { IfOk result (λ c. IsOf g.now.fields c) }
{
    let mut cell = ZoneCell::new(alloc, g, zone)?;
    turn(&mut cell, g, first);
    if zone % 2 == 1 {
        turn(&mut cell, g, odd);
    }
    Ok(cell)
}

// All zones after an action each, and after another one for those with an odd number.
fn zones_after(
    alloc: Global,
    g: &Geometry,
    first: Action,
    odd: Action,
) -> Result<Vec<ZoneCell>, NoMemory>
    ensures len { IfOk result (λ cells. length cells.items ≡ g.now.fields.zones) }
    ensures of { IfOk result (λ cells. All (IsOf g.now.fields) cells.items) }
{
    let mut cells = Vec::new(alloc);
    for zone in 0..g.fields().zones {
        let cell = zone_after(alloc, g, zone, first, odd)?;
        cells.push(cell)?;
    }
    Ok(cells)
}

// The output buffer after a Receive, if the block is in the namespace and the report fits.
fn receive(cells: &[ZoneCell], g: &Geometry, asked: Asked) -> [u8; 320]
    requires all { length cells.now ≡ g.now.fields.zones }
    requires of { All (IsOf g.now.fields) cells.now }
{
    let mut out = [KEPT; 320];
    if asked.bytes <= 320 && asked.slba < g.blocks() {
        report(
            cells,
            g,
            asked.slba,
            asked.bytes,
            asked.filter,
            asked.partial,
            &mut out,
        );
    }
    out
}

// Writes the descriptor of a zone with no attributes: its state's byte, its first block, and its
// pointer's eight bytes.
fn show(out: &mut [u8; 320], place: usize, state: u8, first: u8, pointer: [u8; 8])
    requires { place + 64 ≤ 320 }
{
    out[place] = 2;
    out[place + 1] = state;
    out[place + 8] = 48;
    out[place + 16] = first;
    out[place + 24..place + 32].copy_from_slice(&pointer);
}

// A pointer that is a byte.
fn at(block: u8) -> [u8; 8] {
    [block, 0, 0, 0, 0, 0, 0, 0]
}

// A report of `bytes` bytes without descriptors: `number` zones, and zeros. The rest is unchanged.
fn empty_report(bytes: usize, number: u8) -> [u8; 320]
    requires { bytes ≤ 320 }
{
    let mut out = [KEPT; 320];
    out[..bytes].fill(0);
    if bytes > 0 {
        out[0] = number;
    }
    out
}

#[test]
fn reports_begin_at_the_zone_of_a_block(rt: HostRuntime) -> Result<(), Fail> {
    let g = Geometry::new(SMALL)?;
    let cells = zones_after(rt.alloc(), &g, Action::Reset, Action::Reset)?;
    for (slba, partial, number) in [(64, false, 3), (127, false, 3), (64, true, 2)] {
        let asked = Asked {
            slba,
            bytes: 192,
            partial,
            ..ALL
        };
        let mut expected = empty_report(192, number);
        show(&mut expected, 64, 0x10, 64, at(64));
        show(&mut expected, 128, 0x10, 128, at(128));
        assert_eq!(rt; receive(&cells, &g, asked), expected, "{asked:?}");
    }
    Ok(())
}

#[test]
fn reports_are_cut_to_their_length(rt: HostRuntime) -> Result<(), Fail> {
    let g = Geometry::new(SMALL)?;
    let cells = zones_after(rt.alloc(), &g, Action::Reset, Action::Reset)?;
    for (bytes, partial, number) in [
        (124, true, 0),
        (124, false, 4),
        (64, false, 4),
        (8, false, 4),
        (4, false, 4),
        (4, true, 0),
    ] {
        let asked = Asked {
            bytes,
            partial,
            ..ALL
        };
        let expected = empty_report(bytes as usize, number);
        assert_eq!(rt; receive(&cells, &g, asked), expected, "{asked:?}");
    }
    Ok(())
}

// The number of zones that each filter finds, after an action on each zone.
fn found(cells: &[ZoneCell], g: &Geometry) -> [u8; 8]
    requires all { length cells.now ≡ g.now.fields.zones }
    requires of { All (IsOf g.now.fields) cells.now }
{
    let mut found = [0; 8];
    for filter in 0..8 {
        let out = receive(
            cells,
            g,
            Asked {
                filter: filter as u8,
                ..ALL
            },
        );
        found[filter] = out[0];
    }
    found
}

#[test]
fn filters_take_their_states(rt: HostRuntime) -> Result<(), Fail> {
    let g = Geometry::new(SMALL)?;
    for (first, odd, expected) in [
        (Action::Reset, Action::Reset, [4, 4, 0, 0, 0, 0, 0, 0]),
        (Action::Write, Action::Reset, [4, 2, 2, 0, 0, 0, 0, 0]),
        (Action::Open, Action::Close, [4, 0, 0, 2, 2, 0, 0, 0]),
        (
            Action::Finish,
            Action::Excursion(5),
            [4, 0, 0, 0, 0, 2, 0, 2],
        ),
        (
            Action::Excursion(4),
            Action::Offline,
            [4, 0, 0, 0, 0, 0, 2, 2],
        ),
    ] {
        let cells = zones_after(rt.alloc(), &g, first, odd)?;
        assert_eq!(rt; found(&cells, &g), expected, "{first:?} {odd:?}");
    }
    Ok(())
}

#[test]
fn reports_leave_out_other_zones(rt: HostRuntime) -> Result<(), Fail> {
    let g = Geometry::new(SMALL)?;
    let cells = zones_after(rt.alloc(), &g, Action::Finish, Action::Reset)?;
    for (partial, number) in [(false, 2), (true, 2)] {
        let asked = Asked {
            filter: 1,
            partial,
            ..ALL
        };
        let mut expected = empty_report(320, number);
        show(&mut expected, 64, 0x10, 64, at(64));
        show(&mut expected, 128, 0x10, 192, at(192));
        assert_eq!(rt; receive(&cells, &g, asked), expected, "{asked:?}");
    }
    Ok(())
}

#[test]
fn full_zones_show_no_pointer(rt: HostRuntime) -> Result<(), Fail> {
    let g = Geometry::new(SMALL)?;
    let cells = zones_after(rt.alloc(), &g, Action::Finish, Action::Finish)?;
    let asked = Asked {
        slba: 192,
        filter: 5,
        ..ALL
    };
    let mut expected = empty_report(320, 1);
    show(&mut expected, 64, 0xe0, 192, [0xff; 8]);
    assert_eq!(rt; receive(&cells, &g, asked), expected);
    Ok(())
}
