//! Serves a command without waiting.
ghost use Rattle.std.specs.Prelude.{length};
ghost use Rattle.solo_drive.specs.Drives.{act_of};
ghost use Rattle.solo_drive.specs.Parts.{AreLent};
ghost use Rattle.solo_drive.specs.Reaching.{zones_of};
ghost use Rattle.queue_controller.specs.Words.{HoldsNothing};
ghost use Rattle.queue_controller.specs.Serving.{MayServe};
ghost use Rattle.queue_controller.specs.Trying.{Tries, TriesAll, AttemptsOnce};

use crate::words::{BOOK, try_zones};
use solo_drive::{Applied, Posted, Reach, reach_of};
use sqe_codec::Sqe;
use zns_io::Bytes;
use zone_desk::{Desk, QueuePass};

/// The outcome of a command that never waits.
#[derive(Drop)]
pub enum Tried {
    /// It was served.
    Served(Posted),

    /// A lock word that it needs was held, and it wasn't served. The host data comes back.
    Busy { word: u32, payload: Bytes },
}

// The outcome of one attempt at a command, over some zones.
#[derive(Drop)]
pub(crate) enum Attempt {
    Ended(Applied),
    Stopped { word: u32, payload: Bytes },
}

// Takes the words of a reach and the book's, serves the command if it can, and gives everything
// back.
fn try_over(
    desk: &Desk,
    pass: &mut QueuePass,
    reach: Reach,
    sqe: Sqe,
    payload: Bytes,
    out: &mut [u8],
) -> Attempt
    requires may { MayServe desk.now pass.old sqe payload (length out.old) }
    requires lent { AreLent desk.now.geometry
        (act_of pass.old.sight.queue sqe payload) (zones_of desk.now.geometry reach) }
    ensures free { HoldsNothing desk.now pass.new }
    ensures tried { AttemptsOnce desk.now.geometry (act_of pass.old.sight.queue sqe payload)
        (zones_of desk.now.geometry reach) out.old out.new pass.old.sight result pass.new.sight }
{
    if let Some(word) = try_zones(desk, pass, reach) {
        desk.put_back(pass);
        return Attempt::Stopped { word, payload };
    }
    if !desk.try_word(pass, BOOK) {
        desk.put_back(pass);
        return Attempt::Stopped {
            word: BOOK,
            payload,
        };
    }
    let applied = desk.apply_act(pass, sqe, payload, out);
    desk.put_back(pass);
    Attempt::Ended(applied)
}

/// Serves one command of the pass's queue as `serve` does, but never waits. If a lock word that it
/// needs is held, the command isn't served, and what the pass has seen and `out` are unchanged.
/// That word is the book's, 1, or 2 + z of a zone z that the command may read or change, or of any
/// zone if another may have to give way.
pub fn try_serve(
    desk: &Desk,
    pass: &mut QueuePass,
    sqe: Sqe,
    payload: Bytes,
    out: &mut [u8],
) -> Tried
    requires { MayServe desk.now pass.old sqe payload (length out.old) }
    ensures free { HoldsNothing desk.now pass.new }
    ensures tried { Tries desk.now.geometry (act_of pass.old.sight.queue sqe payload)
        out.old out.new pass.old.sight result pass.new.sight }
{
    let reach = reach_of(desk.geometry(), pass.queue(), &sqe);
    match try_over(desk, pass, reach, sqe, payload, out) {
        Attempt::Stopped { word, payload } => Tried::Busy { word, payload },
        Attempt::Ended(applied) => match applied {
            Applied::Done(posted) => Tried::Served(posted),
            Applied::Widen { payload } => try_all(desk, pass, sqe, payload, out),
        },
    }
}

// `try_serve` over all zones.
fn try_all(desk: &Desk, pass: &mut QueuePass, sqe: Sqe, payload: Bytes, out: &mut [u8]) -> Tried
    requires { MayServe desk.now pass.old sqe payload (length out.old) }
    ensures free { HoldsNothing desk.now pass.new }
    ensures tried { TriesAll desk.now.geometry (act_of pass.old.sight.queue sqe payload)
        out.old out.new pass.old.sight result pass.new.sight }
{
    match try_over(desk, pass, Reach::All, sqe, payload, out) {
        Attempt::Stopped { word, payload } => Tried::Busy { word, payload },
        Attempt::Ended(applied) => match applied {
            Applied::Done(posted) => Tried::Served(posted),
            Applied::Widen { .. } => unreachable!(),
        },
    }
}
