use thiserror::Error;

/// Why bytes aren't a descriptor of a zone that is written in sequence.
#[derive(Clone, Copy, Debug, PartialEq, Eq, Error)]
pub enum DescErr {
    /// The zone has another type. Holds byte 0, which has the type in bits 3:0.
    #[error("the zone is not written in sequence: byte 0 is {0:#04x}")]
    TypeNot2(u8),

    /// No state has this number. Holds byte 1, which has it in bits 7:4.
    #[error("the zone's state is unknown: byte 1 is {0:#04x}")]
    StateUnknown(u8),
}
