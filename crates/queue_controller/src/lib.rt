//! Serves commands over a desk that several queues share, and whole sessions with a worker for each
//! queue.
#![tactic(auto)]

mod closing;
mod gate;
mod job;
mod keeping;
mod opening;
mod serving;
mod session;
mod trying;
mod words;

pub use closing::Outcome;
pub use gate::{FreeGate, Gate};
pub use serving::serve;
pub use session::run_session;
pub use trying::{Tried, try_serve};
