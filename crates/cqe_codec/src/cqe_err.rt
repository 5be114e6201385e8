use thiserror::Error;

/// Why bytes aren't a completion queue entry.
#[derive(Clone, Copy, Debug, PartialEq, Eq, Error)]
pub enum CqeErr {
    /// The Command Retry Delay or the More bit is set. Holds the last byte, where they are.
    #[error("reserved bits are set: the last byte is {0:#04x}")]
    Reserved(u8),
}
