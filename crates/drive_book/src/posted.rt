use arrayvec::ArrayVec;
use cqe_codec::Cqe;

/// The answer to a command: its completion queue entries, its own first, and the number of bytes
/// that it read.
#[derive(Drop)]
pub struct Posted {
    pub entries: ArrayVec<Cqe, 2>,
    pub len: u32,
}
