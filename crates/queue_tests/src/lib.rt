//! Tests of session files and of queues on threads. They stand in a crate of their own, since the
//! tests of a crate prove the whole crate again.
#![tactic(auto)]

#[cfg(test)]
mod files;
#[cfg(test)]
mod queues;
