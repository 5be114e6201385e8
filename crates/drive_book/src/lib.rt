//! What a drive keeps besides its zones: counts, the log of changed zones, marks of events, tallies
//! of its queues, and the journal.
#![tactic(auto)]

mod book;
mod outcome;
mod posted;
mod tallies;
mod tally;

pub use book::Book;
pub use outcome::Outcome;
pub use posted::Posted;
pub use tallies::Tallies;
pub use tally::Tally;

#[cfg(test)]
mod tests;
