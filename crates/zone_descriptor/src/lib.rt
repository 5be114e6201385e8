//! Zone descriptors.
#![tactic(auto)]

mod desc_err;
mod descriptor;
mod reading;
mod writing;

pub use desc_err::DescErr;
pub use descriptor::Descriptor;
pub use reading::read;
pub use writing::write;

#[cfg(test)]
mod tests;
