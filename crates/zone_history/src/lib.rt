//! The deeds done to one zone, and the laws of what they make of it.
#![tactic(auto)]

mod deed_laws;

pub use deed_laws::{deed_is_allowed, deed_keeps_committed, deed_moves_pointer, pointer_is_least};
