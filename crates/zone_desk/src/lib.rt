//! A drive for several queues on threads: a lock word for each zone and one for the book, a history
//! that only grows, and a pass for each queue.
#![tactic(auto)]

mod ahead;
mod closing;
mod desk;
mod freeing;
mod kept_book;
mod opened;
mod opening;
mod passes;
mod plan;
mod plays;
mod serving;
mod sight;
mod slot;
mod steps;
mod threads;
mod waking;

pub use desk::Desk;
pub use passes::{MainPass, Note, PassErr, QueuePass};
pub use sight::{Kind, Sight, Standing};
pub use threads::threads_may_share;
