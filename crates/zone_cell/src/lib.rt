//! One zone: its state, its write pointer, and the bytes of its blocks.
#![tactic(auto)]

mod acting;
mod cell;
mod checks;
mod laying;
mod reads;
mod shown;
mod states;
#[cfg(test)]
mod tests;
mod turns;
mod writes;

pub use cell::ZoneCell;
