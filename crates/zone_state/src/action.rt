/// What happens to a zone.
#[derive(Clone, Copy, Debug, PartialEq, Eq)]
pub enum Action {
    /// Blocks are written, by a Write or an Append.
    Write,

    /// Blocks of the random write area are committed.
    Commit,

    Open,
    Close,
    Finish,
    Reset,
    Offline,

    /// The controller itself acts on the zone. With 1 it finishes the zone, with 2 it recommends a
    /// finish, with 3 it recommends a reset, with 4 the zone becomes Read Only, and with 5 it goes
    /// Offline.
    Excursion(u8),
}
