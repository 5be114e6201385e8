use std::fmt;
use thiserror::Error;
use zns_io::Bytes;
use zns_types::Code;

/// Why a call of a host failed. The calls that fill the ring give `RingFull`, and `pump` gives the
/// others.
#[derive(Drop, Error)]
pub enum HostErr {
    /// The link failed. The command is still the oldest in the ring, and the drive may have served
    /// it.
    #[error("the link failed")]
    LinkFault,

    /// The drive refused the command, with this status.
    #[error("the drive refused the command: {0:?}")]
    Refused(Code),

    /// The ring is full: as many commands wait as a queue has entries. This is the host data of the
    /// call, which has none if the command carries none.
    #[error("the ring is full")]
    RingFull(Bytes),

    /// The completion queue entry sets bits of the Command Retry Delay or More, which the drive
    /// never sets. They are in its last byte, which this is.
    #[error("the completion entry is torn: its last byte is {0:#04x}")]
    Torn(u8),
}

// Shows host data as its length.
impl fmt::Debug for HostErr {
    fn fmt<W: fmt::Write>(&self, f: &mut fmt::Formatter<W>) -> fmt::Result {
        match self {
            HostErr::LinkFault => f.write_str("LinkFault"),
            HostErr::Refused(code) => write!(f, "Refused({code:?})"),
            HostErr::RingFull(data) => write!(f, "RingFull({} bytes)", data.as_slice().len()),
            HostErr::Torn(byte) => write!(f, "Torn({byte})"),
        }
    }
}
