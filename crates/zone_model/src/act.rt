use sqe_codec::Sqe;
use zns_io::Bytes;

/// A submission queue entry with its queue and the host's data.
#[derive(Drop)]
pub struct Act {
    pub queue: u16,
    pub sqe: Sqe,
    pub payload: Bytes,
}
