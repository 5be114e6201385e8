//! All that the program does, as a library. It serves a session, in the order of its file or each
//! queue by a thread of its own, and writes the result. It also checks a result against the
//! definitions, shows a session as text, runs the script of a host, or serves a session that a
//! number determines and sums it up.
#![tactic(auto)]

mod checking;
mod compare_err;
mod comparing;
mod edge;
mod environment;
mod generating;
mod merging;
mod plain;
mod program;
mod running;
mod serving;
mod showing;
mod side_by_side;
mod status;
mod streaming;
mod summing;
mod tail;
mod task;
mod word;

pub use edge::{after_flush, answer, exit_code};
pub use environment::words;
pub use plain::top_plain;
pub use program::run_program;
pub use side_by_side::top;
pub use status::Status;
pub use word::Word;
