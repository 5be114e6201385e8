//! Zone Management Send, to one zone or to all.
#![tactic(auto)]

mod acting;
mod sweeping;
mod taking;

pub use acting::{act, excurse, needs_all};
pub use sweeping::sweep;

#[cfg(test)]
mod tests;
