//! Completion queue entries.
#![tactic(auto)]

mod cqe;
mod cqe_err;
mod reading;
mod writing;

pub use cqe::Cqe;
pub use cqe_err::CqeErr;
pub use reading::read;
pub use writing::write;

#[cfg(test)]
mod tests;
