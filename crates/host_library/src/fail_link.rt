ghost use Rattle.std.specs.Prelude.{◌≡◌};

use crate::link::Link;
use crate::loop_link::{cannot_serve, own_entry};
use solo_drive::Solo;
use sqe_codec::Sqe;
use zns_io::{Bytes, CallPlan};

/// A link to a drive that it owns, for tests of hosts. Sends are counted from 0. Those whose numbers
/// are in a list fail, and so do those that fail over a [`LoopLink`](crate::LoopLink). The link's
/// history is the drive's journal. The drive doesn't serve a send that fails.
#[derive(Drop)]
pub struct FailLink {
    drive: Solo,
    calls: CallPlan,
}

impl FailLink {
    /// A link to a drive. The sends whose numbers are in `failing` fail.
    pub fn new(drive: Solo, failing: Vec<u32>) -> FailLink
        ensures drive { result.drive ≡ drive }
        ensures calls { result.calls ≡ record { failing = failing.items; made = 0; faults = 0 } }
    {
        FailLink {
            drive,
            calls: CallPlan::new(failing),
        }
    }
}

impl Link for FailLink {
    ghost use Rattle.std.specs.Prelude.{Some};
    ghost use Rattle.host_library.specs.Fails.{LoopsOrFails};

    ghost geometry = { λ link. link.drive.geometry };

    ghost history = { λ link. Some link.drive.acts };

    ghost faults = { λ link. link.calls.faults };

    ghost sure = { λ _. 0 };

    ghost step = { LoopsOrFails };

    fn send(
        &mut self,
        queue: u16,
        sqe: &Sqe,
        payload: Bytes,
        out: &mut [u8],
    ) -> Result<([u8; 16], u32), Bytes> {
        let is_refused = cannot_serve(&self.drive, sqe, queue == 0);
        if self.calls.count(is_refused).is_err() {
            return Err(payload);
        }
        let posted = self.drive.submit(queue, *sqe, payload, out);
        let entry = own_entry(&posted.entries);
        Ok((cqe_codec::write(&entry), posted.len))
    }
}
