ghost use Rattle.std.specs.Prelude.{◌≡◌, ◌<◌, None, Some, length};
ghost use Rattle.zns_types.specs.Rows.{first_holding};
ghost use Rattle.sqe_codec.specs.Ranges.{HasRanges};
ghost use Rattle.drive_rules.specs.Aims.{aim_of};
ghost use Rattle.drive_rules.specs.Tables.{front_rows};
ghost use Rattle.zone_model.specs.Places.{command_of};
ghost use Rattle.solo_drive.specs.Drives.{HasLengths, act_of};
ghost use Rattle.solo_drive.specs.Parts.{zones_in, AreLent};
ghost use Rattle.solo_drive.specs.Ahead.{HaveHistory, Readies};

use crate::ahead::{NOTHING, Ready};
use crate::ahead_places::goes_ahead;
use crate::ahead_writes::act_ahead;
use crate::reads::read_blocks;
use drive_book::Outcome;
use drive_rules::{aim_of, check_front};
use sqe_codec::{Cmd, Sqe, read};
use zns_io::Bytes;
use zns_types::Geometry;
use zone_cell::ZoneCell;

/// Moves the bytes of a command before the book is held, if it is a Read, or a Write or an Append
/// whose first block is in an opened zone of the cells; `settle` does the rest. For any other
/// command nothing changes. The cells are those of the command's reach, in ascending order, or all
/// cells. What it reads goes to the start of `out`; the rest of `out` is unchanged.
pub fn ready(
    cells: &mut [ZoneCell],
    g: &Geometry,
    queue: u16,
    sqe: &Sqe,
    payload: &Bytes,
    out: &mut [u8],
) -> Option<Ready>
    requires queue { queue < g.now.fields.queues }
    requires lengths { HasLengths g.now.fields (act_of queue sqe.now payload.now)
        (length out.old) }
    requires stand { HaveHistory g.now.fields cells.old }
    requires lent { AreLent g.now.fields (act_of queue sqe.now payload.now) (zones_in cells.old) }
    ensures { Readies g.now.fields (act_of queue sqe.now payload.now)
        cells.old cells.new out.old out.new result }
{
    let command = read(sqe, queue == 0);
    if !goes_ahead(cells, g, command) {
        return None;
    }
    if let Some(code) = check_front(g, command) {
        return Some(Ready::of(Outcome::refused(code), NOTHING));
    }
    if let Some(aim) = aim_of(g, command) {
        let place = (aim.zone - cells[0].zone()) as usize;
        return Some(act_ahead(&mut cells[place], g, aim, payload.as_slice()));
    }
    match command {
        Cmd::Read { slba, blocks, .. } => {
            let first = cells[0].zone();
            let outcome = read_blocks(cells, g, first, slba, blocks, out);
            Some(Ready::of(outcome, NOTHING))
        }
        _ => unreachable!(),
    }
}
