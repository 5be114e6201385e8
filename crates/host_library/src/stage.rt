ghost use Rattle.std.specs.Prelude.{◌≡◌};
ghost use Rattle.host_library.specs.Shadows.{stage_of, is_known};

use zns_types::State;

/// What a host knows of the state of a zone. The opened states and Closed are one stage, since the
/// drive may close an opened zone by itself.
#[derive(Clone, Copy, Debug, PartialEq, Eq)]
pub enum Stage {
    /// No report has told the state, or since the last one the link failed at a command of the
    /// zone, or such a command's entry was torn.
    Unknown,

    /// No block is written.
    Empty,

    /// Implicitly Opened, Explicitly Opened or Closed.
    Active,

    /// No block can be written until a reset.
    Full,

    /// Read Only: no block can be written.
    ReadOnly,

    /// No block can be written or read.
    Offline,
}

impl Stage {
    /// The stage of a zone in a state.
    pub fn of(state: State) -> Stage
        ensures { result ≡ stage_of state }
    {
        match state {
            State::Empty => Stage::Empty,
            State::ImplicitlyOpened | State::ExplicitlyOpened | State::Closed => Stage::Active,
            State::Full => Stage::Full,
            State::ReadOnly => Stage::ReadOnly,
            State::Offline => Stage::Offline,
        }
    }

    /// Whether the host knows the zone's state.
    pub fn is_known(self) -> bool
        ensures { result ≡ is_known self }
    {
        self != Stage::Unknown
    }
}
