//! Tests of the host library and of its scripts.
#![tactic(auto)]

#[cfg(test)]
mod calls;
#[cfg(test)]
mod links;
#[cfg(test)]
mod scripts;
