//! Commands that move their bytes before the book is taken, so that commands of different zones can
//! do so in parallel.
ghost use Rattle.std.specs.Prelude.{◌≡◌, ◌≢◌, ◌<◌, None, Some, length};
ghost use Rattle.solo_drive.specs.Drives.{HasLengths, act_of};
ghost use Rattle.solo_drive.specs.Parts.{AreLent};
ghost use Rattle.zone_desk.specs.Sights.{zones_held};
ghost use Rattle.zone_desk.specs.Passes.{HasReadied, HasSettled};

use crate::desk::Desk;
use crate::opened::Opened;
use crate::passes::QueuePass;
use crate::serving::{move_on, settle_on};
use crate::steps::commit;
use solo_drive::{Posted, Ready};
use sqe_codec::Sqe;
use std::marker::Brand;
use std::snapshot::Snapshot;
use zns_io::Bytes;

impl Desk {
    /// Moves the bytes of a command of the pass's queue, if it is a Read, or a Write or an Append
    /// whose first block is in an opened zone. The pass has the command's zones. What it reads is
    /// at the front of `out`; the rest of `out` is unchanged. The command is then open until it is
    /// settled. Any other command changes nothing, and returns `None`.
    pub fn ready_act(
        &self,
        pass: &mut QueuePass,
        sqe: Sqe,
        payload: &Bytes,
        out: &mut [u8],
    ) -> Option<Ready>
        requires desk { pass.old.desk ≡ self.now }
        requires none_open { pass.old.opened ≡ None }
        requires zones { AreLent self.now.geometry
            (act_of pass.old.sight.queue sqe payload.now) (zones_held pass.old.sight) }
        requires lengths { HasLengths self.now.geometry
            (act_of pass.old.sight.queue sqe payload.now) (length out.old) }
        ensures { HasReadied pass.old pass.new sqe payload.now out.old out.new result }
    {
        let queue = pass.queue;
        let moved = move_on(&mut pass.cells, &self.geometry, queue, sqe, payload, out);
        pass.open = Opened::of(sqe, payload, &moved);
        moved
    }

    /// Serves the open command with one commit, on the book that the pass has. The pass has then
    /// seen the journal with this act at its end, where the answer of `ready_act` is the drive's.
    pub fn settle_act(&self, pass: &mut QueuePass, sqe: Sqe, payload: Bytes, ready: Ready) -> Posted
        requires desk { pass.old.desk ≡ self.now }
        requires opened { pass.old.opened
            ≡ Some record { sqe = sqe; payload = payload; ready = ready } }
        requires journal { pass.old.sight.journal ≢ None }
        requires spare { 0 < pass.old.sight.spare }
        ensures { HasSettled pass.old pass.new (act_of pass.old.sight.queue sqe payload) result }
    {
        let bytes = Snapshot::of(&payload);
        let queue = pass.queue;
        let Some(book) = &mut pass.book else {
            unreachable!()
        };
        let posted = settle_on(book, &self.geometry, queue, sqe, payload, ready);
        commit::<Brand>(&self.table.shared, &mut pass.seat, queue, sqe, bytes);
        pass.open = None;
        pass.served += 1;
        pass.spare -= 1;
        posted
    }
}
