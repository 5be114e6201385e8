use drive_book::Posted;
use zns_io::Bytes;

/// The result of a command on lent cells.
#[derive(Drop)]
pub enum Applied {
    /// It was served.
    Done(Posted),

    /// Another zone has to give way, and not all cells were lent: nothing changed. The host data is
    /// returned.
    Widen { payload: Bytes },
}
