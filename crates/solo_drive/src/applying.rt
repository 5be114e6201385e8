ghost use Rattle.std.specs.Prelude.{◌<◌, length};
ghost use Rattle.solo_drive.specs.Drives.{HasLengths, act_of};
ghost use Rattle.solo_drive.specs.Parts.{PartsStand};
ghost use Rattle.solo_drive.specs.Applying.{Applies};

use crate::applied::Applied;
use crate::serving::serve;
use drive_book::Book;
use sqe_codec::Sqe;
use zns_io::Bytes;
use zns_types::Geometry;
use zone_cell::ZoneCell;
use zone_model::Act;

/// Serves a command on lent cells and on the book of their drive. The cells are those of the
/// command's reach, in ascending order, or all cells. What it reads goes to the start of `out`; the
/// rest of `out` is unchanged.
pub fn apply(
    cells: &mut [ZoneCell],
    book: &mut Book,
    g: &Geometry,
    queue: u16,
    sqe: Sqe,
    payload: Bytes,
    out: &mut [u8],
) -> Applied
    requires spare { 0 < book.old.journal.spare }
    requires queue { queue < g.now.fields.queues }
    requires lengths { HasLengths g.now.fields (act_of queue sqe payload) (length out.old) }
    requires parts { PartsStand g.now.fields (act_of queue sqe payload) cells.old book.old }
    ensures { Applies g.now.fields (act_of queue sqe payload)
        cells.old cells.new book.old book.new out.old out.new result }
{
    let act = Act {
        queue,
        sqe,
        payload,
    };
    match serve(cells, book, g, &act, out) {
        Some(outcome) => Applied::Done(book.post(g, act, outcome)),
        None => {
            let Act { payload, .. } = act;
            Applied::Widen { payload }
        }
    }
}
