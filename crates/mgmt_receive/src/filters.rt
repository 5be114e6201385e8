ghost use Rattle.std.specs.Prelude.{◌≡◌};
ghost use Rattle.mgmt_receive.specs.Receiving.{is_wanted, Wants};

use zns_types::State;

/// The state that a filter matches, or none if it matches all states.
pub fn wanted_state(filter: u8) -> Option<State>
    ensures { Wants filter result }
{
    match filter {
        0 => None,
        1 => Some(State::Empty),
        2 => Some(State::ImplicitlyOpened),
        3 => Some(State::ExplicitlyOpened),
        4 => Some(State::Closed),
        5 => Some(State::Full),
        6 => Some(State::ReadOnly),
        _ => Some(State::Offline),
    }
}

/// Whether a state is the wanted one, or all are wanted.
pub fn is_wanted(wanted: Option<State>, state: State) -> bool
    ensures { result ≡ is_wanted wanted state }
{
    match wanted {
        None => true,
        Some(wanted) => state == wanted,
    }
}
