ghost use Rattle.std.specs.Prelude.{◌≡◌, IsTrue, [], All};
ghost use Rattle.sqe_codec.specs.Ranges.{HasRanges};
ghost use Rattle.zone_limits.specs.Resources.{recounted};
ghost use Rattle.zone_cell.specs.Cells.{IsOf};
ghost use Rattle.zone_cell.specs.Deeds.{IsBlocksFor, HasSmallOffset};
ghost use Rattle.zone_room.specs.Using.{AreCounted, EachIsCounted};
ghost use Rattle.zone_room.specs.Rooms.{cell_use};
ghost use Rattle.mgmt_send.specs.Acting.{is_send, IsAmong, CanLook, needs_all, AreLentFor, status_of, outcome_of_aim, outcome, excursion_verdict, cell_after_excursion};

use crate::sweeping::sweep;
use drive_rules::{Aim, Deed, aim_of, check_front, sweep_of};
use sqe_codec::Cmd;
use zns_types::{Code, Geometry};
use zone_cell::ZoneCell;
use zone_limits::{Limits, wants_room};
use zone_room::{Served, recount, serve_deed, use_of};

/// Whether a Send to this zone has to look at all zones to find one that gives way.
pub fn needs_all(cell: &ZoneCell, limits: &Limits, g: &Geometry, send: Cmd) -> bool
    requires send { IsTrue (is_send send) }
    requires ranges { HasRanges send }
    requires of { IsOf g.now.fields cell.now }
    ensures { result ≡ needs_all g.now.fields cell.now limits.now send }
{
    if check_front(g, send).is_some() {
        return false;
    }
    let Some(aim) = aim_of(g, send) else {
        return false;
    };
    match cell.check(g, aim.deed) {
        Ok(need) => wants_room(limits, g, need),
        Err(_) => false,
    }
}

// Does a deed to one of the lent zones.
fn act_on_one(cells: &mut [ZoneCell], limits: &mut Limits, g: &Geometry, aim: Aim) -> Code
    requires among { IsAmong cells.old aim.zone }
    requires of { All (IsOf g.now.fields) cells.old }
    requires counted { EachIsCounted g.now.fields limits.old cells.old }
    requires look { CanLook g.now.fields cells.old limits.old aim }
    requires offset { HasSmallOffset aim.deed }
    requires blocks { IsBlocksFor g.now.fields aim.deed [] }
    ensures code { result ≡ (outcome_of_aim g.now.fields cells.old limits.old aim).code }
    ensures cells { cells.new ≡ (outcome_of_aim g.now.fields cells.old limits.old aim).cells }
    ensures limits { limits.new ≡ (outcome_of_aim g.now.fields cells.old limits.old aim).counts }
    ensures of { All (IsOf g.now.fields) cells.new }
{
    let place = (aim.zone - cells[0].zone()) as usize;
    let all = cells.len() == g.fields().zones as usize;
    match serve_deed(cells, limits, g, place, all, aim.deed, &[]) {
        Served::Done => Code::SUCCESS,
        Served::Refused(code) => code,
        Served::Widens => unreachable!(),
    }
}

/// Does a whole Zone Management Send, without a history: a row that no zone decides refuses it, or
/// its deed goes to its zone or to all zones.
pub fn act(cells: &mut [ZoneCell], limits: &mut Limits, g: &Geometry, send: Cmd) -> Code
    requires send { IsTrue (is_send send) }
    requires ranges { HasRanges send }
    requires lent { AreLentFor g.now.fields cells.old limits.old send }
    ensures code { result ≡ (outcome g.now.fields cells.old limits.old send).code }
    ensures cells { cells.new ≡ (outcome g.now.fields cells.old limits.old send).cells }
    ensures limits { limits.new ≡ (outcome g.now.fields cells.old limits.old send).counts }
    ensures of { All (IsOf g.now.fields) cells.new }
{
    if let Some(code) = check_front(g, send) {
        return code;
    }
    if let Some(aim) = aim_of(g, send) {
        return act_on_one(cells, limits, g, aim);
    }
    if let Some(deed) = sweep_of(send) {
        return sweep(cells, limits, g, deed).unwrap_or(Code::SUCCESS);
    }
    Code::SUCCESS
}

/// An excursion: the controller itself acts on a zone, in one of five ways, if the zone's state
/// allows it.
pub fn excurse(cell: &mut ZoneCell, limits: &mut Limits, g: &Geometry, kind: u8) -> Code
    requires of { IsOf g.now.fields cell.old }
    requires counted { AreCounted g.now.fields limits.old (cell_use cell.old) }
    ensures code { result ≡ status_of (excursion_verdict g.now.fields cell.old kind) }
    ensures cell { cell.new ≡ cell_after_excursion g.now.fields cell.old kind }
    ensures limits { limits.new
        ≡ recounted
        (cell_use cell.old)
        (cell_use (cell_after_excursion g.now.fields cell.old kind))
        limits.old }
    ensures of { IsOf g.now.fields cell.new }
{
    let deed = Deed::Excursion { kind };
    if let Err(code) = cell.check(g, deed) {
        return code;
    }
    let before = use_of(cell);
    cell.act(g, deed, &[]);
    recount(limits, g, before, use_of(cell));
    Code::SUCCESS
}
