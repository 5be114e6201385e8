/// The result of a command that succeeded.
#[derive(Clone, Copy, Debug, PartialEq, Eq)]
pub struct Done {
    /// The command identifier, which the command's call returned.
    pub cid: u16,

    /// Dword 0 of the completion queue entry. After an append, the low 32 bits of the number of its
    /// first block in the namespace.
    pub dw0: u32,

    /// Dword 1 of the completion queue entry. After an append, the high 32 bits of that number.
    pub dw1: u32,

    /// The number of bytes that the command read, at most 128. They are at the start of `out`.
    pub len: u32,
}
