//! What can happen to a zone, and the states that it leads to.
#![tactic(auto)]

mod action;
#[cfg(test)]
mod tests;
mod transition;

pub use action::Action;
pub use transition::go;
