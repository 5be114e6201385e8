ghost use Rattle.std.specs.Prelude.{◌≡◌, Err};
ghost use Rattle.zns_types.specs.Statuses.{invalid_zone_state_transition};
ghost use Rattle.zone_state.specs.declared.action.Action.TheVariants as action;
ghost use Rattle.zone_state.specs.Transitions.{go as table, controller_finishes, finish_recommended, reset_recommended, turns_read_only, turns_offline};

use crate::action::Action;
use zns_types::{Code, State};

/// The state that an action leads to, or the status with which the state refuses it.
pub fn go(state: State, action: Action) -> Result<State, Code>
    ensures { result ≡ table action state }
{
    match action {
        Action::Write => after_write(state),
        Action::Commit => after_commit(state),
        Action::Open => match state {
            State::Full | State::ReadOnly | State::Offline => refused(),
            _ => Ok(State::ExplicitlyOpened),
        },
        Action::Close => match state {
            State::ImplicitlyOpened | State::ExplicitlyOpened | State::Closed => Ok(State::Closed),
            _ => refused(),
        },
        Action::Finish => match state {
            State::ReadOnly | State::Offline => refused(),
            _ => Ok(State::Full),
        },
        Action::Reset => match state {
            State::ReadOnly | State::Offline => refused(),
            _ => Ok(State::Empty),
        },
        Action::Offline => match state {
            State::ReadOnly | State::Offline => Ok(State::Offline),
            _ => refused(),
        },
        Action::Excursion(kind) => after_excursion(kind, state),
    }
}

// No transition.
fn refused() -> Result<State, Code>
    ensures { result ≡ Err invalid_zone_state_transition }
{
    Err(Code::INVALID_ZONE_STATE_TRANSITION)
}

fn after_write(state: State) -> Result<State, Code>
    ensures { result ≡ table action.Write state }
{
    match state {
        State::Empty | State::ImplicitlyOpened | State::Closed => Ok(State::ImplicitlyOpened),
        State::ExplicitlyOpened => Ok(State::ExplicitlyOpened),
        State::Full => Err(Code::ZONE_FULL),
        State::ReadOnly => Err(Code::ZONE_READ_ONLY),
        State::Offline => Err(Code::ZONE_OFFLINE),
    }
}

fn after_commit(state: State) -> Result<State, Code>
    ensures { result ≡ table action.Commit state }
{
    match state {
        State::ImplicitlyOpened | State::Closed => Ok(State::ImplicitlyOpened),
        State::ExplicitlyOpened => Ok(State::ExplicitlyOpened),
        _ => Err(Code::INVALID_ZONE_OPERATION),
    }
}

fn after_excursion(kind: u8, state: State) -> Result<State, Code>
    ensures { result ≡ table (action.Excursion kind) state }
{
    match kind {
        1 => finish_by_controller(state),
        2 => recommend_finish(state),
        3 => recommend_reset(state),
        4 => turn_read_only(state),
        5 => turn_offline(state),
        _ => refused(),
    }
}

fn finish_by_controller(state: State) -> Result<State, Code>
    ensures { result ≡ controller_finishes state }
{
    match state {
        State::ImplicitlyOpened | State::ExplicitlyOpened | State::Closed => Ok(State::Full),
        _ => refused(),
    }
}

fn recommend_finish(state: State) -> Result<State, Code>
    ensures { result ≡ finish_recommended state }
{
    match state {
        State::ImplicitlyOpened | State::ExplicitlyOpened | State::Closed => Ok(state),
        _ => refused(),
    }
}

fn recommend_reset(state: State) -> Result<State, Code>
    ensures { result ≡ reset_recommended state }
{
    match state {
        State::Empty | State::ReadOnly | State::Offline => refused(),
        _ => Ok(state),
    }
}

fn turn_read_only(state: State) -> Result<State, Code>
    ensures { result ≡ turns_read_only state }
{
    match state {
        State::ReadOnly | State::Offline => refused(),
        _ => Ok(State::ReadOnly),
    }
}

fn turn_offline(state: State) -> Result<State, Code>
    ensures { result ≡ turns_offline state }
{
    match state {
        State::Offline => refused(),
        _ => Ok(State::Offline),
    }
}
