//! Sources and sinks of bytes.
#![tactic(auto)]

mod bytes;
mod calls;
mod failed;
mod mem_sink;
mod mem_source;
mod no_memory;
mod padding;
mod read_err;
mod reading;
mod sink;
mod source;
mod std_sink;
mod std_source;
mod sure_sink;
mod sure_source;
mod writing;

pub use bytes::Bytes;
pub use calls::CallPlan;
pub use failed::Failed;
pub use mem_sink::MemSink;
pub use mem_source::MemSource;
pub use no_memory::NoMemory;
pub use padding::pad;
pub use read_err::ReadErr;
pub use reading::read_all;
pub use sink::Sink;
pub use source::Source;
pub use std_sink::StdSink;
pub use std_source::StdSource;
pub use sure_sink::SureSink;
pub use sure_source::SureSource;
pub use writing::write_all;

#[cfg(test)]
mod tests;
