use super::*;
use std::test::Fail;
use zns_types::{Code, State};

type Cell = Result<State, Code>;

const EMPTY: Cell = Ok(State::Empty);

const IMPLICIT: Cell = Ok(State::ImplicitlyOpened);

const EXPLICIT: Cell = Ok(State::ExplicitlyOpened);

const CLOSED: Cell = Ok(State::Closed);

const FULL: Cell = Ok(State::Full);

const READ_ONLY: Cell = Ok(State::ReadOnly);

const OFFLINE: Cell = Ok(State::Offline);

// No window to flush, and no transition.
const NONE: Cell = Err(Code { sct: 1, sc: 0xb6 });

const REFUSED: Cell = Err(Code { sct: 1, sc: 0xbf });

// The first state, by its place in the order of the profile's columns, from which the action
// doesn't lead where the row says.
fn first_wrong(action: Action, row: &[Cell; 7]) -> Option<usize> {
    let states = [
        State::Empty,
        State::ImplicitlyOpened,
        State::ExplicitlyOpened,
        State::Closed,
        State::Full,
        State::ReadOnly,
        State::Offline,
    ];
    for (i, state) in states.iter().enumerate() {
        if go(*state, action) != row[i] {
            return Some(i);
        }
    }
    None
}

// Every cell of the profile's table, and two excursions that aren't in it.
#[test]
fn transitions(rt: HostRuntime) -> Result<(), Fail> {
    let full = Err(Code { sct: 1, sc: 0xb9 });
    let read_only = Err(Code { sct: 1, sc: 0xba });
    let offline = Err(Code { sct: 1, sc: 0xbb });
    let rows = [
        (
            Action::Write,
            [
                IMPLICIT, IMPLICIT, EXPLICIT, IMPLICIT, full, read_only, offline,
            ],
        ),
        (
            Action::Commit,
            [NONE, IMPLICIT, EXPLICIT, IMPLICIT, NONE, NONE, NONE],
        ),
        (
            Action::Open,
            [
                EXPLICIT, EXPLICIT, EXPLICIT, EXPLICIT, REFUSED, REFUSED, REFUSED,
            ],
        ),
        (
            Action::Close,
            [REFUSED, CLOSED, CLOSED, CLOSED, REFUSED, REFUSED, REFUSED],
        ),
        (
            Action::Finish,
            [FULL, FULL, FULL, FULL, FULL, REFUSED, REFUSED],
        ),
        (
            Action::Reset,
            [EMPTY, EMPTY, EMPTY, EMPTY, EMPTY, REFUSED, REFUSED],
        ),
        (
            Action::Offline,
            [
                REFUSED, REFUSED, REFUSED, REFUSED, REFUSED, OFFLINE, OFFLINE,
            ],
        ),
        (
            Action::Excursion(1),
            [REFUSED, FULL, FULL, FULL, REFUSED, REFUSED, REFUSED],
        ),
        (
            Action::Excursion(2),
            [
                REFUSED, IMPLICIT, EXPLICIT, CLOSED, REFUSED, REFUSED, REFUSED,
            ],
        ),
        (
            Action::Excursion(3),
            [REFUSED, IMPLICIT, EXPLICIT, CLOSED, FULL, REFUSED, REFUSED],
        ),
        (
            Action::Excursion(4),
            [
                READ_ONLY, READ_ONLY, READ_ONLY, READ_ONLY, READ_ONLY, REFUSED, REFUSED,
            ],
        ),
        (
            Action::Excursion(5),
            [
                OFFLINE, OFFLINE, OFFLINE, OFFLINE, OFFLINE, OFFLINE, REFUSED,
            ],
        ),
        (Action::Excursion(0), [REFUSED; 7]),
        (Action::Excursion(6), [REFUSED; 7]),
    ];
    for (action, row) in rows.iter() {
        assert_eq!(rt; first_wrong(*action, row), None, "{action:?}");
    }
    Ok(())
}
