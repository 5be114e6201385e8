/// A submission queue entry: sixteen dwords, the lowest byte first.
#[derive(Clone, Copy)]
pub struct Sqe {
    pub bytes: [u8; 64],
}
