//! The rules of the drive on plain data: what refuses each command, what a command does to a zone,
//! and what a zone shows.
#![tactic(auto)]

mod aim;
mod deed;
mod front;
mod listed;
mod sent;

pub use aim::{Aim, aim_of, sweep_of};
pub use deed::Deed;
pub use front::check_front;
