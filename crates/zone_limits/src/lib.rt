//! How many zones may be active, be opened and have a random write area at the same time.
#![tactic(auto)]

mod asking;
mod limits;
mod taking;
#[cfg(test)]
mod tests;

pub use asking::{need, wants_room};
pub use limits::{Grant, Limits, Need};
pub use taking::{give_back, take};
