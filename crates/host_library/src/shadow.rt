use crate::stage::Stage;

/// What a host knows of a zone. If the stage is Unknown, the other fields tell nothing.
#[derive(Clone, Copy, Debug, PartialEq, Eq)]
pub struct Shadow {
    /// The zone's state, as far as a host needs it.
    pub stage: Stage,

    /// Whether the zone has a Zone Random Write Area.
    pub window: bool,

    /// The write pointer of an Empty or Active zone, in blocks from the zone's start, or else 0.
    pub pointer: u64,
}
