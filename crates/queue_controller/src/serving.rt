ghost use Rattle.std.specs.Prelude.{length};
ghost use Rattle.solo_drive.specs.Drives.{act_of};
ghost use Rattle.solo_drive.specs.Parts.{AreLent};
ghost use Rattle.solo_drive.specs.Reaching.{zones_of};
ghost use Rattle.queue_controller.specs.Words.{HoldsNothing};
ghost use Rattle.queue_controller.specs.Keeping.{AttemptsKeeping};
ghost use Rattle.queue_controller.specs.Serving.{MayServe, Serves, IsPosted, HeldFew};
ghost use Rattle.queue_controller.specs.Serving.{MayServeHere, Attempts, ServedOn};

use crate::gate::Gate;
use crate::words::{BOOK, take_zones};
use solo_drive::{Applied, Posted, Reach, reach_of};
use sqe_codec::Sqe;
use std::sync::Wait;
use zns_io::Bytes;
use zone_desk::{Desk, QueuePass};

// Serves a command on the zones that the pass has. If its bytes can move now, they do, and the book
// is taken only for the commit.
fn serve_taken<R: Wait, G: Gate>(
    rt: &R,
    desk: &Desk,
    pass: &mut QueuePass,
    sqe: Sqe,
    payload: Bytes,
    out: &mut [u8],
    gate: &G,
) -> Applied
    requires { MayServeHere desk.now pass.old sqe payload (length out.old) }
    ensures { ServedOn pass.old pass.new (act_of pass.old.sight.queue sqe payload)
        out.old out.new result }
{
    if let Some(ready) = desk.ready_act(pass, sqe, &payload, out) {
        gate.moved(pass.queue(), pass.served());
        desk.take_word(rt, pass, BOOK);
        return Applied::Done(desk.settle_act(pass, sqe, payload, ready));
    }
    desk.take_word(rt, pass, BOOK);
    desk.apply_act(pass, sqe, payload, out)
}

// Serves a command on the zones that the pass has, and keeps them. If another zone has to give way,
// gives everything back instead.
pub(crate) fn serve_here<R: Wait, G: Gate>(
    rt: &R,
    desk: &Desk,
    pass: &mut QueuePass,
    sqe: Sqe,
    payload: Bytes,
    out: &mut [u8],
    gate: &G,
) -> Applied
    requires { MayServeHere desk.now pass.old sqe payload (length out.old) }
    ensures { AttemptsKeeping desk.now (act_of pass.old.sight.queue sqe payload)
        out.old out.new pass.old.sight result pass.new }
{
    match serve_taken(rt, desk, pass, sqe, payload, out, gate) {
        Applied::Done(posted) => {
            desk.give_book(pass);
            Applied::Done(posted)
        }
        Applied::Widen { payload } => {
            desk.put_back(pass);
            Applied::Widen { payload }
        }
    }
}

// Takes the words of a reach and the book's, serves the command if it can, and gives everything
// back.
pub(crate) fn serve_over<R: Wait, G: Gate>(
    rt: &R,
    desk: &Desk,
    pass: &mut QueuePass,
    reach: Reach,
    sqe: Sqe,
    payload: Bytes,
    out: &mut [u8],
    gate: &G,
) -> Applied
    requires may { MayServe desk.now pass.old sqe payload (length out.old) }
    requires lent { AreLent desk.now.geometry
        (act_of pass.old.sight.queue sqe payload) (zones_of desk.now.geometry reach) }
    ensures free { HoldsNothing desk.now pass.new }
    ensures tried { Attempts desk.now.geometry (act_of pass.old.sight.queue sqe payload)
        (zones_of desk.now.geometry reach) out.old out.new pass.old.sight result pass.new.sight }
{
    take_zones(rt, desk, pass, reach);
    let applied = serve_taken(rt, desk, pass, sqe, payload, out, gate);
    desk.put_back(pass);
    applied
}

/// Serves one command of the pass's queue. Waits until the lock words of its zones and of the book
/// are free for it, or those of all zones and of the book if another zone may have to give way. If
/// the call returns, the pass has seen the history that the desk then had, with this act at its
/// end, and the answer is the drive's to the act there. What the act reads is at the front of
/// `out`; the rest of `out` is unchanged.
pub fn serve<R: Wait, G: Gate>(
    rt: &R,
    desk: &Desk,
    pass: &mut QueuePass,
    sqe: Sqe,
    payload: Bytes,
    out: &mut [u8],
    gate: &G,
) -> Posted
    requires { MayServe desk.now pass.old sqe payload (length out.old) }
    ensures free { HoldsNothing desk.now pass.new }
    ensures served { Serves pass.old.sight (act_of pass.old.sight.queue sqe payload)
        (IsPosted desk.now.geometry (act_of pass.old.sight.queue sqe payload)
        result out.old out.new)
        pass.new.sight }
    ensures few { HeldFew desk.now.geometry (act_of pass.old.sight.queue sqe payload)
        pass.old.sight pass.new.sight }
{
    gate.before(pass.queue(), pass.served());
    let reach = reach_of(desk.geometry(), pass.queue(), &sqe);
    match serve_over(rt, desk, pass, reach, sqe, payload, out, gate) {
        Applied::Done(posted) => posted,
        Applied::Widen { payload } => {
            match serve_over(rt, desk, pass, Reach::All, sqe, payload, out, gate) {
                Applied::Done(posted) => posted,
                Applied::Widen { .. } => unreachable!(),
            }
        }
    }
}
