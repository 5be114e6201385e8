ghost use Rattle.std.specs.Prelude.{◌≡◌, ◌==◌, ◌||◌, ◌<◌, Some, length, slice_get};
ghost use Rattle.sqe_codec.specs.Commands.{command};
ghost use Rattle.zone_model.specs.Places.{is_event_request};

use crate::link::Link;
use arrayvec::ArrayVec;
use cqe_codec::Cqe;
use solo_drive::Solo;
use sqe_codec::{Cmd, Sqe, read};
use zns_io::Bytes;

/// A link to a drive that it owns. Its history is the drive's journal. A send fails if the drive has
/// no room for one more act, or if the command is an Asynchronous Event Request, whose entry may
/// come later; no other send fails. The drive doesn't serve a send that fails.
#[derive(Drop)]
pub struct LoopLink {
    drive: Solo,
    faults: u64,
}

// Whether an entry is an Asynchronous Event Request.
fn is_event_request(sqe: &Sqe, admin: bool) -> bool
    ensures { result ≡ is_event_request (command admin sqe.now.bytes) }
{
    matches!(read(sqe, admin), Cmd::Event)
}

// Whether a drive can't serve an entry: it has no room for one more act, or the entry is an
// Asynchronous Event Request.
pub(crate) fn cannot_serve(drive: &Solo, sqe: &Sqe, admin: bool) -> bool
    ensures { result
        ≡ ((drive.now.spare == 0) || is_event_request (command admin sqe.now.bytes)) }
{
    drive.spare() == 0 || is_event_request(sqe, admin)
}

// The first of the entries that a command posted, which is its own.
pub(crate) fn own_entry(entries: &ArrayVec<Cqe, 2>) -> Cqe
    requires { 0 < length entries.now.items }
    ensures { slice_get entries.now.items 0 ≡ Some result }
{
    entries[0]
}

impl LoopLink {
    /// A link to a drive.
    pub fn new(drive: Solo) -> LoopLink
        ensures { result ≡ record { drive = drive; faults = 0 } }
    {
        LoopLink { drive, faults: 0 }
    }
}

impl Link for LoopLink {
    ghost use Rattle.host_library.specs.Loops.{Loops};

    ghost geometry = { λ link. link.drive.geometry };

    ghost history = { λ link. Some link.drive.acts };

    ghost faults = { λ link. link.faults };

    ghost sure = { λ link. link.drive.spare };

    ghost step = { Loops };

    fn send(
        &mut self,
        queue: u16,
        sqe: &Sqe,
        payload: Bytes,
        out: &mut [u8],
    ) -> Result<([u8; 16], u32), Bytes> {
        if cannot_serve(&self.drive, sqe, queue == 0) {
            self.faults = self.faults.saturating_add(1);
            return Err(payload);
        }
        let posted = self.drive.submit(queue, *sqe, payload, out);
        let entry = own_entry(&posted.entries);
        Ok((cqe_codec::write(&entry), posted.len))
    }
}
