ghost use Rattle.std.specs.Prelude.{◌≡◌, ◌<◌, length};
ghost use Rattle.sqe_codec.specs.Commands.{transfer_len};
ghost use Rattle.zone_model.specs.Places.{command_of};
ghost use Rattle.drive_book.specs.Books.{BookStands};
ghost use Rattle.solo_drive.specs.Drives.{act_of};
ghost use Rattle.solo_drive.specs.Applying.{history_of};
ghost use Rattle.solo_drive.specs.Ahead.{IsDue, IsSettled};

use crate::ahead::Ready;
use drive_book::{Book, Posted};
use sqe_codec::Sqe;
use zns_io::Bytes;
use zns_types::Geometry;
use zone_limits::give_back;
use zone_model::Act;

/// Finishes a command whose bytes have moved: gives back the resources that its zone no longer
/// uses, records the act and makes its entries. After `ready` on cells of the same history, the two
/// calls together do what `apply` does.
pub fn settle(
    book: &mut Book,
    g: &Geometry,
    queue: u16,
    sqe: Sqe,
    payload: Bytes,
    ready: Ready,
) -> Posted
    requires spare { 0 < book.old.journal.spare }
    requires queue { queue < g.now.fields.queues }
    requires payload { length payload
        ≡ transfer_len g.now.fields (command_of (act_of queue sqe payload)) }
    requires stands { BookStands g.now.fields book.old }
    requires due { IsDue g.now.fields (history_of g.now.fields book.old)
        (act_of queue sqe payload) ready }
    ensures { IsSettled g.now.fields (act_of queue sqe payload) result book.old book.new }
{
    give_back(&mut book.limits, ready.freed);
    let act = Act {
        queue,
        sqe,
        payload,
    };
    book.post(g, act, ready.outcome())
}
