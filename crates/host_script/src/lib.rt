//! Scripts of a host's calls: how they are read, and what a drive answers to them.
#![tactic(auto)]

mod answering;
mod line;
mod numbers;
mod reading;
mod script;
mod serving;
mod spelled;

pub use line::Line;
pub use reading::read;
pub use script::Script;
pub use serving::serve;
