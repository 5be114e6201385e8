//! Which blocks of a zone were written, with one bit for each block.
#![tactic(auto)]

mod bits;
#[cfg(test)]
mod tests;
mod written;

pub use written::Written;
