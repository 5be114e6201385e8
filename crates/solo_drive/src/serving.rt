ghost use Rattle.std.specs.Prelude.{◌≡◌, ◌^◌, ◌<◌, ◌≤◌, Some, None, length};
ghost use Rattle.zns_types.specs.Rows.{first_holding};
ghost use Rattle.sqe_codec.specs.Ranges.{HasRanges};
ghost use Rattle.drive_rules.specs.Aims.{aim_of, sweep_of};
ghost use Rattle.drive_rules.specs.Tables.{front_rows};
ghost use Rattle.zone_model.specs.Places.{command_of};
ghost use Rattle.solo_drive.specs.Drives.{HasLengths};
ghost use Rattle.solo_drive.specs.Parts.{PartsStand};
ghost use Rattle.solo_drive.specs.Applying.{IsDone, Serves};
ghost use Rattle.solo_drive.specs.Telling.{Tells};

use crate::notices::{ask, get_feature, read_log, set_feature};
use crate::pages::serve_identify;
use crate::placing::placed;
use crate::reads::read_blocks;
use crate::reports::serve_receive;
use crate::sweeping::serve_sweep;
use drive_book::{Book, Outcome};
use drive_rules::{Aim, Deed, aim_of, check_front, sweep_of};
use sqe_codec::{Cmd, cid, read};
use zns_types::Geometry;
use zone_cell::ZoneCell;
use zone_model::Act;
use zone_room::{Served, serve_deed};

// What a completed deed to a zone reports besides its status. An Append returns the first of its
// blocks, which start at the pointer before it; an excursion may answer an event request.
fn outcome_of(book: &mut Book, g: &Geometry, aim: Aim, pointer: u64) -> Outcome
    requires within { aim.zone < g.now.fields.zones }
    requires small { pointer ≤ 2 ^ 28 }
    ensures { Tells g.now.fields aim.zone pointer book.old book.new result aim.deed }
{
    match aim.deed {
        Deed::Append { .. } => placed(g.first(aim.zone) + pointer),
        Deed::Excursion { .. } => Outcome {
            event: book.note_excursion(aim.zone),
            ..Outcome::done()
        },
        _ => Outcome::done(),
    }
}

// Serves a command whose deed goes to one zone, once the rows that no zone decides have passed.
fn serve_aim(
    cells: &mut [ZoneCell],
    book: &mut Book,
    g: &Geometry,
    aim: Aim,
    act: &Act,
    out: &mut [u8],
) -> Option<Outcome>
    requires passes { first_holding (front_rows g.now.fields (command_of act.now)) ≡ None }
    requires aim { aim_of g.now.fields (command_of act.now) ≡ Some aim }
    requires within { aim.zone < g.now.fields.zones }
    requires lengths { HasLengths g.now.fields act.now (length out.old) }
    requires parts { PartsStand g.now.fields act.now cells.old book.old }
    ensures { Serves g.now.fields act.now cells.old cells.new book.old book.new
        out.old out.new result }
{
    let place = (aim.zone - cells[0].zone()) as usize;
    let all = cells.len() == g.fields().zones as usize;
    let pointer = cells[place].pointer();
    let payload = act.payload.as_slice();
    match serve_deed(cells, &mut book.limits, g, place, all, aim.deed, payload) {
        Served::Done => Some(outcome_of(book, g, aim, pointer)),
        Served::Refused(code) => Some(Outcome::refused(code)),
        Served::Widens => None,
    }
}

// Serves a command that neither goes to a single zone nor changes all zones, once the rows that no
// zone decides have passed.
fn serve_plain(
    cells: &[ZoneCell],
    book: &mut Book,
    g: &Geometry,
    act: &Act,
    command: Cmd,
    out: &mut [u8],
) -> Outcome
    requires command { command ≡ command_of act.now }
    requires ranges { HasRanges command }
    requires passes { first_holding (front_rows g.now.fields command) ≡ None }
    requires aim { aim_of g.now.fields command ≡ None }
    requires sweep { sweep_of command ≡ None }
    requires lengths { HasLengths g.now.fields act.now (length out.old) }
    requires parts { PartsStand g.now.fields act.now cells.now book.old }
    ensures { IsDone g.now.fields act.now result cells.now cells.now book.old book.new
        out.old out.new }
{
    match command {
        Cmd::Read { slba, blocks, .. } => {
            let first = cells[0].zone();
            read_blocks(cells, g, first, slba, blocks, out)
        }
        Cmd::Receive {
            slba,
            bytes,
            filter,
            partial,
            ..
        } => serve_receive(cells, g, slba, bytes, filter, partial, out),
        Cmd::Identify { cns, csi, .. } => serve_identify(g, cns, csi, out),
        Cmd::GetLog { bytes, retain, .. } => read_log(book, g, bytes, retain, out),
        Cmd::SetFeature { value, .. } => set_feature(book, value),
        Cmd::GetFeature { .. } => get_feature(book),
        Cmd::Event => ask(book, cid(&act.sqe)),
        _ => Outcome::done(),
    }
}

/// Serves an act on lent cells and a book, except for its entries, its tally and its place in the
/// journal. If a zone outside the cells would have to give way, nothing changes.
pub fn serve(
    cells: &mut [ZoneCell],
    book: &mut Book,
    g: &Geometry,
    act: &Act,
    out: &mut [u8],
) -> Option<Outcome>
    requires lengths { HasLengths g.now.fields act.now (length out.old) }
    requires parts { PartsStand g.now.fields act.now cells.old book.old }
    ensures { Serves g.now.fields act.now cells.old cells.new book.old book.new
        out.old out.new result }
{
    let command = read(&act.sqe, act.queue == 0);
    if let Some(code) = check_front(g, command) {
        return Some(Outcome::refused(code));
    }
    if let Some(aim) = aim_of(g, command) {
        return serve_aim(cells, book, g, aim, act, out);
    }
    if let Some(deed) = sweep_of(command) {
        return Some(serve_sweep(cells, book, g, deed));
    }
    Some(serve_plain(cells, book, g, act, command, out))
}
