//! How far writes and flushes move the write pointer of a zone that has a random write area.
#![tactic(auto)]

mod explicit_commit;
mod implicit_commit;
#[cfg(test)]
mod tests;

pub use explicit_commit::explicit;
pub use implicit_commit::{admits, implicit};
