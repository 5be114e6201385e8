use zns_types::Code;

/// A completion queue entry.
#[derive(Clone, Copy, Debug, Default, PartialEq, Eq)]
pub struct Cqe {
    /// The first dword of the command's result.
    pub dw0: u32,

    /// The second dword of the command's result.
    pub dw1: u32,

    /// The head of the submission queue.
    pub head: u16,

    /// The identifier of the submission queue.
    pub sqid: u16,

    /// The command identifier that the host gave the command.
    pub cid: u16,

    /// The phase tag.
    pub phase: bool,

    /// The status.
    pub code: Code,

    /// Whether the command would be refused again if retried.
    pub dnr: bool,
}
