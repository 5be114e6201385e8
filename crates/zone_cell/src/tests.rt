ghost use Rattle.std.specs.Prelude.{IsTrue};
ghost use Rattle.zone_cell.specs.Cells.{IsOf};
ghost use Rattle.zone_cell.specs.Deeds.{HasBlocks, IsBlocksFor, HasSmallOffset};

use super::*;
use crate::cell::all_bytes;
use drive_rules::Deed;
use std::alloc::Global;
use std::test::Fail;
use zns_io::Bytes;
use zns_types::{Code, Geometry, GeometryFields, State};

// Random write areas of 8 blocks, committed 4 at a time, in zones of 48 blocks.
const SMALL: GeometryFields = GeometryFields {
    block_exp: 9,
    mdts: 0,
    zasl: 0,
    flags: 0,
    zones: 4,
    zone_size: 64,
    capacity: 48,
    active_limit: 3,
    open_limit: 2,
    windows: 1,
    granule: 4,
    window: 8,
    queues: 2,
    depth: 64,
};

// Something done to a zone, or checked of it.
#[derive(Clone, Copy, Debug)]
enum Step {
    // A deed, with host data that repeats one byte.
    Do(Deed, u8),

    // Whether some blocks, given by offset and number, hold one byte throughout.
    Read(u32, u32, u8),

    // Whether the zone is in a state, with a random write area or without.
    Is(State, bool),

    // Whether a descriptor of the zone shows these attributes.
    Shows(u8),

    // Whether the bytes of all blocks have a byte where a block begins.
    Holds(u32, u8),
}

use Step::{Do, Holds, Is, Read, Shows};

// A step, its status, and the pointer after it.
type Row = (Step, Code, u64);

const DONE: Code = Code { sct: 0, sc: 0 };

const NO_OPERATION: Code = Code { sct: 1, sc: 0xb6 };

const PAST_CAPACITY: Code = Code { sct: 1, sc: 0xb8 };

const FULL: Code = Code { sct: 1, sc: 0xb9 };

const MISPLACED: Code = Code { sct: 1, sc: 0xbc };

const NO_TRANSITION: Code = Code { sct: 1, sc: 0xbf };

// The status of a step that fails its check.
const WRONG: Code = Code::INVALID_OPCODE;

// An Open with a random write area.
const OPEN: Step = Do(Deed::Open { window: true }, 0);

const RESET: Step = Do(Deed::Reset, 0);

fn write(from: u64, blocks: u32, byte: u8) -> Step {
    Do(Deed::Write { from, blocks }, byte)
}

fn append(blocks: u32, byte: u8) -> Step {
    Do(Deed::Append { blocks }, byte)
}

fn commit(last: u64) -> Step {
    Do(Deed::Commit { last }, 0)
}

fn excursion(kind: u8) -> Step {
    Do(Deed::Excursion { kind }, 0)
}

// Whether host data is exactly `blocks` blocks, and at least one.
fn has_blocks(g: &Geometry, blocks: u32, payload: &[u8]) -> bool
    ensures { IsTrue result → HasBlocks g.now.fields blocks payload.now }
{
    blocks > 0 && payload.len() as u64 == u64::from(blocks) * u64::from(g.block_len())
}

// Whether host data is what a deed comes with.
fn is_supplied(g: &Geometry, deed: Deed, payload: &[u8]) -> bool
    ensures blocks { IsTrue result → IsBlocksFor g.now.fields deed payload.now }
    ensures offset { IsTrue result → HasSmallOffset deed }
{
    match deed {
        Deed::Write { from, blocks } => from < 1 << 32 && has_blocks(g, blocks, payload),
        Deed::Append { blocks } => has_blocks(g, blocks, payload),
        _ => true,
    }
}

fn blocks_of(deed: Deed) -> u32 {
    match deed {
        Deed::Write { blocks, .. } | Deed::Append { blocks } => blocks,
        _ => 0,
    }
}

fn serve(cell: &mut ZoneCell, g: &Geometry, deed: Deed, payload: &[u8]) -> Code
    requires { IsOf g.now.fields cell.old }
    ensures { IsOf g.now.fields cell.new }
{
    if !is_supplied(g, deed, payload) {
        return WRONG;
    }
    match cell.check(g, deed) {
        Err(code) => code,
        Ok(_) => {
            cell.act(g, deed, payload);
            DONE
        }
    }
}

fn read(
    alloc: Global,
    cell: &ZoneCell,
    g: &Geometry,
    from: u32,
    count: u32,
    byte: u8,
) -> Result<bool, Fail>
    requires { IsOf g.now.fields cell.now }
{
    if u64::from(from) + u64::from(count) > g.fields().zone_size {
        return Ok(false);
    }
    let mut out = vec![in alloc; 0xee; count as usize * g.block_len() as usize]?;
    cell.get(g, u64::from(from), count, &mut out);
    Ok(out.iter().all(|x| *x == byte))
}

fn take(alloc: Global, cell: &mut ZoneCell, g: &Geometry, step: Step) -> Result<Code, Fail>
    requires { IsOf g.now.fields cell.old }
    ensures { IsOf g.now.fields cell.new }
{
    let same = match step {
        Do(deed, byte) => {
            let data = Bytes::filled(alloc, blocks_of(deed).wrapping_mul(512), byte)?;
            return Ok(serve(cell, g, deed, data.as_slice()));
        }
        Read(from, count, byte) => read(alloc, cell, g, from, count, byte)?,
        Is(state, window) => cell.state() == state && cell.has_window() == window,
        Shows(attributes) => cell.descriptor(g).attributes == attributes,
        Holds(block, byte) => {
            let mut all = vec![in alloc; 0xee; all_bytes(g)]?;
            cell.bytes(g, &mut all);
            all.get(block as usize * 512) == Some(&byte)
        }
    };
    Ok(if same { DONE } else { WRONG })
}

// The first row that fails, on a new zone.
fn first_wrong(alloc: Global, rows: &[Row]) -> Result<Option<usize>, Fail> {
    let g = Geometry::new(SMALL)?;
    let mut cell = ZoneCell::new(alloc, &g, 1)?;
    for (i, (step, code, pointer)) in rows.iter().enumerate() {
        let got = take(alloc, &mut cell, &g, *step)?;
        if got != *code || cell.pointer() != *pointer {
            return Ok(Some(i));
        }
    }
    Ok(None)
}

#[test]
fn writes_move_the_window(rt: HostRuntime) -> Result<(), Fail> {
    let again = [
        (OPEN, DONE, 0),
        (write(4, 2, 0x11), DONE, 0),
        (write(4, 2, 0x22), DONE, 0),
        (Read(4, 2, 0x22), DONE, 0),
        (Read(0, 4, 0), DONE, 0),
    ];
    let past_the_window = [(OPEN, DONE, 0), (write(8, 1, 0x44), DONE, 4)];
    let to_two_windows = [(OPEN, DONE, 0), (write(15, 1, 0x44), DONE, 8)];
    let past_two_windows = [
        (OPEN, DONE, 0),
        (write(16, 1, 0x44), MISPLACED, 0),
        (Read(0, 64, 0), DONE, 0),
        (append(1, 0x55), NO_OPERATION, 0),
        (Is(State::ExplicitlyOpened, true), DONE, 0),
    ];
    assert_eq!(rt; first_wrong(rt.alloc(), &again)?, None, "again");
    assert_eq!(rt;
        first_wrong(rt.alloc(), &past_the_window)?,
        None,
        "past the window"
    );
    assert_eq!(rt;
        first_wrong(rt.alloc(), &to_two_windows)?,
        None,
        "to two windows"
    );
    assert_eq!(rt;
        first_wrong(rt.alloc(), &past_two_windows)?,
        None,
        "past two windows"
    );
    Ok(())
}

#[test]
fn commits_fill_the_zone(rt: HostRuntime) -> Result<(), Fail> {
    let past_the_end = [
        (OPEN, DONE, 0),
        (commit(7), DONE, 8),
        (commit(15), DONE, 16),
        (commit(23), DONE, 24),
        (commit(31), DONE, 32),
        (commit(39), DONE, 40),
        (commit(43), DONE, 44),
        (write(48, 1, 0x66), PAST_CAPACITY, 44),
        (Is(State::ExplicitlyOpened, true), DONE, 44),
    ];
    let to_the_end = [
        (OPEN, DONE, 0),
        (commit(7), DONE, 8),
        (commit(15), DONE, 16),
        (commit(23), DONE, 24),
        (commit(31), DONE, 32),
        (commit(39), DONE, 40),
        (write(40, 8, 0x77), DONE, 40),
        (Is(State::ExplicitlyOpened, true), DONE, 40),
        (commit(47), DONE, 48),
        (Is(State::Full, false), DONE, 48),
        (write(40, 1, 0x88), FULL, 48),
        (Read(40, 8, 0x77), DONE, 48),
    ];
    let with_holes = [
        (OPEN, DONE, 0),
        (write(1, 1, 0x33), DONE, 0),
        (commit(3), DONE, 4),
        (Read(0, 1, 0), DONE, 4),
        (Read(1, 1, 0x33), DONE, 4),
        (Read(2, 2, 0), DONE, 4),
    ];
    assert_eq!(rt;
        first_wrong(rt.alloc(), &past_the_end)?,
        None,
        "past the end"
    );
    assert_eq!(rt; first_wrong(rt.alloc(), &to_the_end)?, None, "to the end");
    assert_eq!(rt; first_wrong(rt.alloc(), &with_holes)?, None, "with holes");
    Ok(())
}

#[test]
fn a_reset_forgets_all_blocks(rt: HostRuntime) -> Result<(), Fail> {
    let filled = [
        (write(0, 48, 0x88), DONE, 48),
        (Is(State::Full, false), DONE, 48),
        (RESET, DONE, 0),
        (Is(State::Empty, false), DONE, 0),
        (Read(0, 64, 0), DONE, 0),
        (write(0, 1, 0x99), DONE, 1),
        (Read(0, 1, 0x99), DONE, 1),
        (Read(1, 63, 0), DONE, 1),
        (append(2, 0xaa), DONE, 3),
        (Read(1, 2, 0xaa), DONE, 3),
    ];
    let with_window = [
        (OPEN, DONE, 0),
        (write(6, 2, 0x88), DONE, 0),
        (RESET, DONE, 0),
        (Is(State::Empty, false), DONE, 0),
        (Read(0, 64, 0), DONE, 0),
        (write(6, 1, 0x99), MISPLACED, 0),
    ];
    assert_eq!(rt; first_wrong(rt.alloc(), &filled)?, None, "of a full zone");
    assert_eq!(rt;
        first_wrong(rt.alloc(), &with_window)?,
        None,
        "with a random write area"
    );
    Ok(())
}

#[test]
fn a_zone_shows_what_happened_to_it(rt: HostRuntime) -> Result<(), Fail> {
    let rows = [
        (Shows(0), DONE, 0),
        (excursion(2), NO_TRANSITION, 0),
        (OPEN, DONE, 0),
        (Shows(8), DONE, 0),
        (write(1, 1, 0x11), DONE, 0),
        (Holds(1, 0x11), DONE, 0),
        (Holds(0, 0), DONE, 0),
        (excursion(2), DONE, 0),
        (Shows(8 + 2), DONE, 0),
        (excursion(3), DONE, 0),
        (Shows(8 + 4 + 2), DONE, 0),
        (excursion(1), DONE, 48),
        (Is(State::Full, false), DONE, 48),
        (Shows(4 + 1), DONE, 48),
        (excursion(4), DONE, 48),
        (Is(State::ReadOnly, false), DONE, 48),
        (Shows(0), DONE, 48),
        (Read(1, 1, 0x11), DONE, 48),
        (RESET, NO_TRANSITION, 48),
        (excursion(6), NO_TRANSITION, 48),
    ];
    assert_eq!(rt; first_wrong(rt.alloc(), &rows)?, None);
    Ok(())
}

// Whether a cell of 48 blocks has marked exactly `blocks`.
fn has_marked(cell: &ZoneCell, blocks: &[u32]) -> bool {
    let written = cell.written();
    for block in 0..written.len() {
        if written.is_written(block) != blocks.contains(&block) {
            return false;
        }
    }
    written.len() == 48
}

#[test]
fn marks_tell_what_was_written(rt: HostRuntime) -> Result<(), Fail> {
    let alloc = rt.alloc();
    let g = Geometry::new(SMALL)?;
    let mut cell = ZoneCell::new(alloc, &g, 1)?;
    let rows: [(Step, &[u32]); 8] = [
        (Is(State::Empty, false), &[]),
        (write(0, 2, 0), &[0, 1]),
        (append(1, 0x11), &[0, 1, 2]),
        (RESET, &[]),
        (OPEN, &[]),
        (write(8, 1, 0x22), &[8]),
        (commit(7), &[8]),
        (RESET, &[]),
    ];
    for (step, marks) in rows {
        assert_eq!(rt; take(alloc, &mut cell, &g, step)?, DONE, "{step:?}");
        assert!(rt; has_marked(&cell, marks), "after {step:?}");
    }
    Ok(())
}
