//! Acts and replies, and the definitions of what a drive answers to a history of acts.
#![tactic(auto)]

mod act;
mod acts;
mod journal;
pub mod laws;
mod replies;
mod reply;

pub use act::Act;
pub use acts::Acts;
pub use journal::Journal;
pub use replies::Replies;
pub use reply::Reply;

#[cfg(test)]
mod tests;
