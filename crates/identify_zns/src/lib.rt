//! The pages that Identify gives for a zoned drive.
#![tactic(auto)]

mod filling;
mod layout;
#[cfg(test)]
mod tests;
mod zoned_page;

pub use filling::{IdErr, fill};
pub use zoned_page::{ZonedPage, read_zoned};
