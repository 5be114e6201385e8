//! A zone's cell follows from its history.
#![tactic(auto)]

mod laws;

pub use laws::{cell_follows, cell_is_of_drive};
