ghost use Rattle.std.specs.Prelude.{◌≡◌, IsTrue};
ghost use Rattle.zone_state.specs.Transitions.{after, state_after, adds_blocks};
ghost use Rattle.drive_rules.specs.Deeds.{action_of};

use drive_rules::Deed;
use zns_types::State;
use zone_state::{Action, go};

// The state that an action leads to, or the same state if it leads nowhere.
pub fn after(action: Action, state: State) -> State
    ensures { result ≡ after action state }
{
    match go(state, action) {
        Ok(next) => next,
        Err(_) => state,
    }
}

// The state that a write or a commit leads to: a zone whose pointer reaches its capacity is Full.
pub fn state_after(capacity: u64, action: Action, pointer: u64, state: State) -> State
    requires { IsTrue (adds_blocks action) }
    ensures { result ≡ state_after capacity action pointer state }
{
    if pointer == capacity {
        return State::Full;
    }
    after(action, state)
}

// The action of a deed.
pub fn action_of(deed: Deed) -> Action
    ensures { result ≡ action_of deed }
{
    match deed {
        Deed::Write { .. } | Deed::Append { .. } => Action::Write,
        Deed::Open { .. } => Action::Open,
        Deed::Commit { .. } => Action::Commit,
        Deed::Close => Action::Close,
        Deed::Finish => Action::Finish,
        Deed::Reset => Action::Reset,
        Deed::Offline => Action::Offline,
        Deed::Excursion { kind } => Action::Excursion(kind),
    }
}
