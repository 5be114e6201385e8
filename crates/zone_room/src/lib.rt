//! The single driver of deeds: it does a deed to one of the lent zones, counts the zones in use,
//! and closes another zone if one has to give way.
#![tactic(auto)]

mod counting;
mod evicting;
mod serving;

pub use counting::{recount, use_of};
pub use serving::{Served, serve_deed};

#[cfg(test)]
mod tests;
