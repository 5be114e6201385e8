//! Tests of the program. They stand in a crate of their own, since the tests of a crate prove the
//! whole crate again.
#![tactic(auto)]

#[cfg(test)]
mod tests;
