//! Text as lines of words, and numbers in decimal digits.
#![tactic(auto)]

mod cutting;
mod decimals;

pub use cutting::{first_line, unended, words_in};
pub use decimals::number_in;

#[cfg(test)]
mod tests;
