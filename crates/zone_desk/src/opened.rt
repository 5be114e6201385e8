//! An open command: its bytes have moved, but it isn't in the history yet.
ghost use Rattle.std.specs.Prelude.{◌≡◌};
ghost use Rattle.zone_desk.specs.Ahead.{opened_by};

use solo_drive::Ready;
use sqe_codec::Sqe;
use std::marker::Model;
use std::snapshot::Snapshot;
use zns_io::Bytes;

/// What a pass keeps of its open command.
#[derive(Drop)]
pub struct Opened {
    pub(crate) sqe: Sqe,
    // The host data, used only in contracts.
    pub(crate) payload: Snapshot<Bytes>,
    pub(crate) ready: Ready,
}

impl Model for Opened {
    ghost use Rattle.zone_desk.specs.Ahead.{Open};

    ghost Value = { Open };

    ghost view = { λ o. record { sqe = o.sqe; payload = o.payload.value; ready = o.ready } };
}

impl Opened {
    /// The open command, or `None` if its bytes haven't moved.
    pub fn of(sqe: Sqe, payload: &Bytes, ready: &Option<Ready>) -> Option<Opened>
        ensures { result ≡ opened_by sqe payload.now ready.now }
    {
        match ready {
            Some(ready) => Some(Opened {
                sqe,
                payload: Snapshot::of(payload),
                ready: *ready,
            }),
            None => None,
        }
    }
}
