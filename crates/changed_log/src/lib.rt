//! What a drive keeps about excursions: the log of changed zones, and the marks and requests of
//! asynchronous events.
#![tactic(auto)]

mod events;
mod listing;
mod log;
mod waited;

pub use events::Events;
pub use log::ChangedLog;
pub use waited::Waited;

#[cfg(test)]
mod tests;
