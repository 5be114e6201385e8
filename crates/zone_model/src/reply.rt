use arrayvec::ArrayVec;
use cqe_codec::Cqe;
use zns_io::Bytes;

/// The answer to an act: the entries that it posts, its own first, and the bytes that it reads.
#[derive(Drop)]
pub struct Reply {
    pub entries: ArrayVec<Cqe, 2>,
    pub read: Bytes,
}
