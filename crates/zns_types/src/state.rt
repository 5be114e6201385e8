ghost use Rattle.std.specs.Prelude.{◌≡◌, ◌≢◌, IfSome, IfNone};
ghost use Rattle.zns_types.specs.States.{number_of, is_empty, is_implicitly_opened, is_opened, is_closed, is_active, is_full, is_read_only, is_offline, is_writable};
ghost use Rattle.zns_types.specs.declared.state.State.{State};

/// The state of a zone.
#[derive(Clone, Copy, Debug, PartialEq, Eq)]
pub enum State {
    Empty,
    ImplicitlyOpened,
    ExplicitlyOpened,
    Closed,
    ReadOnly,
    Full,
    Offline,
}

impl State {
    /// The number by which a zone descriptor shows the state.
    pub fn number(self) -> u8
        ensures { result ≡ number_of self }
    {
        match self {
            State::Empty => 0x1,
            State::ImplicitlyOpened => 0x2,
            State::ExplicitlyOpened => 0x3,
            State::Closed => 0x4,
            State::ReadOnly => 0xd,
            State::Full => 0xe,
            State::Offline => 0xf,
        }
    }

    /// The state with this number, if there is one.
    pub fn of_number(number: u8) -> Option<State>
        ensures found { IfSome result (λ s. number_of s ≡ number) }
        ensures none { IfNone result ((s : State) → number_of s ≢ number) }
        ensures only { (s : State) → number_of s ≡ number → result ≡ Some s }
    {
        match number {
            0x1 => Some(State::Empty),
            0x2 => Some(State::ImplicitlyOpened),
            0x3 => Some(State::ExplicitlyOpened),
            0x4 => Some(State::Closed),
            0xd => Some(State::ReadOnly),
            0xe => Some(State::Full),
            0xf => Some(State::Offline),
            _ => None,
        }
    }

    /// Whether the zone is Empty: nothing was written since the last reset, and it uses no
    /// resource.
    pub fn is_empty(self) -> bool
        ensures { result ≡ is_empty self }
    {
        matches!(self, State::Empty)
    }

    /// Whether the zone was opened by a write, not by an Open.
    pub fn is_implicitly_opened(self) -> bool
        ensures { result ≡ is_implicitly_opened self }
    {
        matches!(self, State::ImplicitlyOpened)
    }

    /// Whether the zone uses an open resource.
    pub fn is_opened(self) -> bool
        ensures { result ≡ is_opened self }
    {
        matches!(self, State::ImplicitlyOpened | State::ExplicitlyOpened)
    }

    /// Whether the zone is Closed.
    pub fn is_closed(self) -> bool
        ensures { result ≡ is_closed self }
    {
        matches!(self, State::Closed)
    }

    /// Whether the zone uses an active resource: it is opened or Closed.
    pub fn is_active(self) -> bool
        ensures { result ≡ is_active self }
    {
        matches!(
            self,
            State::ImplicitlyOpened | State::ExplicitlyOpened | State::Closed
        )
    }

    /// Whether the zone is Full.
    pub fn is_full(self) -> bool
        ensures { result ≡ is_full self }
    {
        matches!(self, State::Full)
    }

    /// Whether the zone is Read Only.
    pub fn is_read_only(self) -> bool
        ensures { result ≡ is_read_only self }
    {
        matches!(self, State::ReadOnly)
    }

    /// Whether the zone is Offline.
    pub fn is_offline(self) -> bool
        ensures { result ≡ is_offline self }
    {
        matches!(self, State::Offline)
    }

    /// Whether the zone is neither Read Only nor Offline.
    pub fn is_writable(self) -> bool
        ensures { result ≡ is_writable self }
    {
        !matches!(self, State::ReadOnly | State::Offline)
    }
}
