//! What threads may share, and what may move between them.
use crate::desk::Desk;
use crate::passes::{MainPass, Note, QueuePass};
use solo_drive::{Book, Parts, Solo};
use zone_cell::ZoneCell;
use zone_model::Act;

fn may_move<T: Send>() {}

fn may_be_shared<T: Sync>() {}

/// A desk may be shared by threads. Its passes and notes, and the parts of a drive, may move from
/// one thread to another. The call does nothing: the bounds of the functions that it calls say so.
pub fn threads_may_share() {
    may_be_shared::<Desk>();
    may_move::<Desk>();
    may_move::<MainPass>();
    may_move::<QueuePass>();
    may_move::<Note>();
    may_move::<Act>();
    may_move::<ZoneCell>();
    may_move::<Book>();
    may_move::<Parts>();
    may_move::<Solo>();
}
