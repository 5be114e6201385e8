//! Zone Management Receive: the report of zones.
#![tactic(auto)]

mod counts;
mod descriptors;
mod filters;
mod head;
mod reporting;

pub use reporting::report;

#[cfg(test)]
mod tests;
