//! Serving one act on the parts that a pass has.
ghost use Rattle.std.specs.Prelude.{◌≡◌, ◌+◌, ◌<◌, ◌^◌, length, vec_capacity};
ghost use Rattle.solo_drive.specs.Drives.{HasLengths, act_of};
ghost use Rattle.sqe_codec.specs.Commands.{transfer_len};
ghost use Rattle.zone_model.specs.Places.{command_of};
ghost use Rattle.solo_drive.specs.Ahead.{HaveHistory, IsDue, IsSettled, Readies};
ghost use Rattle.solo_drive.specs.Applying.{history_of};
ghost use Rattle.drive_book.specs.Books.{BookStands};
ghost use Rattle.solo_drive.specs.Parts.{zones_in, AreLent};
ghost use Rattle.zone_desk.specs.Parts.{AreAt, ledger_at};
ghost use Rattle.zone_desk.specs.Serving.{HasServed};

use crate::kept_book::KeptBook;
use solo_drive::{Applied, Posted, Ready, apply, ready, settle};
use sqe_codec::Sqe;
use zns_io::Bytes;
use zns_types::Geometry;
use zone_cell::ZoneCell;

/// Serves one act on the book and on cells in their order. What it reads is at the front of `out`;
/// the rest of `out` is unchanged.
pub(crate) fn serve_on(
    cells: &mut Vec<ZoneCell>,
    book: &mut KeptBook,
    g: &Geometry,
    queue: u16,
    sqe: Sqe,
    payload: Bytes,
    out: &mut [u8],
) -> Applied
    requires book { book.old ≡ ledger_at g.now.fields book.old.journal }
    requires cells { AreAt g.now.fields book.old.journal.acts cells.old.items }
    requires lent { AreLent g.now.fields (act_of queue sqe payload) (zones_in cells.old.items) }
    requires spare { 0 < book.old.journal.spare }
    requires small { length book.old.journal.acts + book.old.journal.spare < 2 ^ 32 }
    requires queue { queue < g.now.fields.queues }
    requires lengths { HasLengths g.now.fields (act_of queue sqe payload) (length out.old) }
    ensures served { HasServed g.now.fields (act_of queue sqe payload) cells.old.items
        cells.new.items book.old book.new out.old out.new result }
    ensures room { vec_capacity cells.new ≡ vec_capacity cells.old }
{
    let ledger = &mut *book.book;
    apply(cells, ledger, g, queue, sqe, payload, out)
}

/// Moves the bytes of a command in cells in their order, if that may happen before the book is
/// taken.
pub(crate) fn move_on(
    cells: &mut Vec<ZoneCell>,
    g: &Geometry,
    queue: u16,
    sqe: Sqe,
    payload: &Bytes,
    out: &mut [u8],
) -> Option<Ready>
    requires queue { queue < g.now.fields.queues }
    requires lengths { HasLengths g.now.fields (act_of queue sqe payload.now) (length out.old) }
    requires stand { HaveHistory g.now.fields cells.old.items }
    requires lent { AreLent g.now.fields (act_of queue sqe payload.now) (zones_in cells.old.items) }
    ensures moved { Readies g.now.fields (act_of queue sqe payload.now)
        cells.old.items cells.new.items out.old out.new result }
    ensures room { vec_capacity cells.new ≡ vec_capacity cells.old }
{
    ready(cells, g, queue, &sqe, payload, out)
}

/// Does the rest of a command whose bytes have moved, on a boxed book.
pub(crate) fn settle_on(
    kept: &mut KeptBook,
    g: &Geometry,
    queue: u16,
    sqe: Sqe,
    payload: Bytes,
    ready: Ready,
) -> Posted
    requires spare { 0 < kept.old.journal.spare }
    requires queue { queue < g.now.fields.queues }
    requires payload { length payload
        ≡ transfer_len g.now.fields (command_of (act_of queue sqe payload)) }
    requires stands { BookStands g.now.fields kept.old }
    requires due { IsDue g.now.fields (history_of g.now.fields kept.old)
        (act_of queue sqe payload) ready }
    ensures { IsSettled g.now.fields (act_of queue sqe payload) result kept.old kept.new }
{
    let book = &mut *kept.book;
    settle(book, g, queue, sqe, payload, ready)
}
