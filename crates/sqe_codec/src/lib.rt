//! Submission queue entries and the commands they spell.
#![tactic(auto)]

mod cmd;
mod entries;
mod layouts;
mod lengths;
mod reading;
mod sqe;
mod words;
mod writing;

pub use cmd::Cmd;
pub use lengths::{reply_len, transfer_len};
pub use reading::{cid, read};
pub use sqe::Sqe;
pub use writing::write;

#[cfg(test)]
mod tests;
