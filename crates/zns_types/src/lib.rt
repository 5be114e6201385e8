//! The numbers of a zoned drive, the states of its zones, and the statuses of its commands.
#![tactic(auto)]

mod code;
mod field;
mod fields;
mod geometry;
mod rules;
mod small_drive;
mod state;

pub use code::Code;
pub use field::{Field, GeomErr};
pub use fields::GeometryFields;
pub use geometry::Geometry;
pub use small_drive::SMALL_DRIVE;
pub use state::State;

#[cfg(test)]
mod tests;
