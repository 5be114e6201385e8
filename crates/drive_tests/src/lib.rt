//! Tests of a drive, and of the desk where queues share one.
#![tactic(auto)]

#[cfg(test)]
mod desks;
#[cfg(test)]
mod drives;
