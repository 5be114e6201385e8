//! A drive that serves one command at a time, and the same for lent zones.
#![tactic(auto)]

mod ahead;
mod ahead_places;
mod ahead_writes;
mod applied;
mod applying;
mod notices;
mod pages;
mod placing;
mod reach;
mod reads;
mod readying;
mod reports;
mod serving;
mod settling;
mod solo;
mod sweeping;

pub use ahead::Ready;
pub use applied::Applied;
pub use applying::apply;
pub use drive_book::{Book, Posted};
pub use reach::{Reach, reach_of};
pub use readying::ready;
pub use settling::settle;
pub use solo::{Parts, Solo};
