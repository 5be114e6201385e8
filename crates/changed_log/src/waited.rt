/// What becomes of an Asynchronous Event Request (NVM Express Base Specification 2.0, 5.2).
#[derive(Clone, Copy, Debug, PartialEq, Eq)]
pub enum Waited {
    /// An event was pending and completes the request at once.
    Fired,

    /// Four requests wait already. The status is Asynchronous Event Request Limit Exceeded.
    Limit,

    /// The request waits after the others, and gets no entry now.
    Kept,
}
