ghost use Rattle.std.specs.Prelude.{◌≡◌, ◌≤◌, IsTrue, All, length};
ghost use Rattle.zone_cell.specs.Cells.{IsOf};
ghost use Rattle.zone_limits.specs.Resources.{AreWithin};
ghost use Rattle.mgmt_send.specs.Sweeping.{counts_in, AreAllZones};
ghost use Rattle.mgmt_send.specs.Acting.{first_zone, AreRising};

use super::*;
use sqe_codec::Cmd;
use std::test::Fail;
use zns_types::{Code, Geometry, SMALL_DRIVE, State};
use zone_cell::ZoneCell;
use zone_limits::Limits;
use zone_room::use_of;

// The action codes of a Send.
const CLOSE: u8 = 0x01;

const FINISH: u8 = 0x02;

const OPEN: u8 = 0x03;

const RESET: u8 = 0x04;

const OFFLINE: u8 = 0x05;

// The status of a step that fails its check.
const WRONG: Code = Code::INVALID_OPCODE;

// A step of a test.
#[derive(Clone, Copy, Debug)]
enum Step {
    // A Send of an action to the zone of a block.
    One(u64, u8),

    // A Send of an action to all zones.
    All(u8),

    // An excursion of the zone at a place, of a given kind.
    Excursion(usize, u8),
}

use Step::{All, Excursion, One};

// A step, its status, and the states after it.
type Row = (Step, Code, [State; 4]);

// The number of zones that use each resource.
fn count_uses(cells: &[ZoneCell]) -> Limits
    requires { length cells.now ≤ 4096 }
    ensures { result ≡ counts_in cells.now }
{
    let mut active = 0;
    let mut opened = 0;
    let mut windows = 0;
    for i in 0..cells.len() {
        let used = use_of(&cells[i]);
        active += u32::from(used.active);
        opened += u32::from(used.opened);
        windows += u32::from(used.window);
    }
    Limits {
        active,
        opened,
        windows,
    }
}

// Whether the counts are within the limits.
fn is_within(limits: &Limits, g: &Geometry) -> bool
    ensures { IsTrue result → AreWithin g.now.fields limits.now }
{
    let fields = g.fields();
    (fields.active_limit == 0 || limits.active <= fields.active_limit)
        && (fields.open_limit == 0 || limits.opened <= fields.open_limit)
        && limits.windows <= fields.windows
        && limits.active <= fields.zones
        && limits.opened <= fields.zones
        && limits.windows <= fields.zones
}

// Whether these are all zones, and the counts are of what they use.
fn are_all_zones(cells: &[ZoneCell], limits: &Limits, g: &Geometry) -> bool
    requires { All (IsOf g.now.fields) cells.now }
    ensures { IsTrue result → AreAllZones g.now.fields cells.now limits.now }
{
    if cells.len() != g.fields().zones as usize {
        return false;
    }
    let counts = count_uses(cells);
    limits.active == counts.active
        && limits.opened == counts.opened
        && limits.windows == counts.windows
        && is_within(limits, g)
}

// Whether each zone is at the place of its number.
fn are_rising(cells: &[ZoneCell]) -> bool
    ensures rising { IsTrue result → AreRising cells.now }
    ensures first { IsTrue result → first_zone cells.now ≡ 0 }
{
    for i in 0..cells.len() {
        if cells[i].zone() as usize != i {
            return false;
        }
    }
    true
}

// The status of a step, if the cells are those of all zones.
fn status_of(cells: &mut [ZoneCell], limits: &mut Limits, g: &Geometry, step: Step) -> Code
    requires { All (IsOf g.now.fields) cells.old }
    ensures { All (IsOf g.now.fields) cells.new }
{
    if !are_all_zones(cells, limits, g) || !are_rising(cells) {
        return WRONG;
    }
    let (slba, action, all) = match step {
        One(slba, action) => (slba, action, false),
        All(action) => (0, action, true),
        Excursion(place, kind) => {
            if place >= cells.len() {
                return WRONG;
            }
            return excurse(&mut cells[place], limits, g, kind);
        }
    };
    let send = Cmd::Send {
        nsid: 1,
        slba,
        action,
        all,
        option: false,
    };
    act(cells, limits, g, send)
}

#[test]
fn sends_go_to_one_zone_and_to_all(rt: HostRuntime) -> Result<(), Fail> {
    let g = Geometry::new(SMALL_DRIVE)?;
    let alloc = rt.alloc();
    let mut cells = [
        ZoneCell::new(alloc, &g, 0)?,
        ZoneCell::new(alloc, &g, 1)?,
        ZoneCell::new(alloc, &g, 2)?,
        ZoneCell::new(alloc, &g, 3)?,
    ];
    let mut limits = Limits::default();
    let (e, x, c, f) = (
        State::Empty,
        State::ExplicitlyOpened,
        State::Closed,
        State::Full,
    );
    let (r, o) = (State::ReadOnly, State::Offline);
    let done = Code { sct: 0, sc: 0 };
    let too_many_active = Code { sct: 1, sc: 0xbd };
    let too_many_open = Code { sct: 1, sc: 0xbe };
    let no_transition = Code { sct: 1, sc: 0xbf };
    let field = Code { sct: 0, sc: 0x02 };
    let range = Code { sct: 0, sc: 0x80 };
    let rows: [Row; 17] = [
        (One(256, OPEN), range, [e, e, e, e]),
        (One(65, OPEN), field, [e, e, e, e]),
        (All(0x06), field, [e, e, e, e]),
        (One(64, CLOSE), no_transition, [e, e, e, e]),
        (One(0, OPEN), done, [x, e, e, e]),
        (One(64, OPEN), done, [x, x, e, e]),
        (One(128, OPEN), too_many_open, [x, x, e, e]),
        (All(CLOSE), done, [c, c, e, e]),
        (All(OPEN), done, [x, x, e, e]),
        (One(64, CLOSE), done, [x, c, e, e]),
        (One(128, OPEN), done, [x, c, x, e]),
        (All(OPEN), too_many_open, [x, c, x, e]),
        (One(192, OPEN), too_many_active, [x, c, x, e]),
        (All(FINISH), done, [f, f, f, e]),
        (Excursion(1, 4), done, [f, r, f, e]),
        (All(RESET), done, [e, r, e, e]),
        (All(OFFLINE), done, [e, o, e, e]),
    ];
    for (step, code, states) in rows {
        assert_eq!(rt;
            status_of(&mut cells, &mut limits, &g, step),
            code,
            "{step:?}"
        );
        let now = [
            cells[0].state(),
            cells[1].state(),
            cells[2].state(),
            cells[3].state(),
        ];
        assert_eq!(rt; now, states, "after {step:?}");
    }
    Ok(())
}
