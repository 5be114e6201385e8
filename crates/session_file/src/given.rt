use crate::feed::Feed;
use crate::session::Session;
use zns_io::Bytes;

/// What a source gave.
#[derive(Drop)]
pub enum Given {
    /// A session and nothing after it.
    Whole(Session),

    /// The bytes that were read so far. They need not begin with a session, and more may come.
    Front(Bytes),
}

/// A session that a source began with.
#[derive(Drop)]
pub struct Begun {
    pub session: Session,

    /// The length of the session in bytes.
    pub len: u64,

    /// The bytes that were read after it.
    pub rest: Feed,
}

/// What a source began with.
#[derive(Drop)]
pub enum First {
    /// A session.
    Session(Begun),

    /// The bytes that were read so far. They need not begin with a session, and more may come.
    Other(Bytes),
}
