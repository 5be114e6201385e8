//! A run of the program, from its words to its exit status.
use crate::edge::{after_flush, answer, exit_code};
use crate::environment::words;
use std::env::Env;
use std::io;
use std::io::{Read, Write};
use std::process::ExitCode;
use std::sync::Wait;
use std::thread::Threads;
use zns_io::{StdSink, StdSource};

/// Does what the words of the environment ask for with what a reader gives, flushes the output,
/// reports on standard error how the run ended unless all is well, and returns the exit status. No
/// clause can say what an environment gives or takes.
pub fn run_program<T: Threads + Wait + Sync, R: Read + Drop>(
    rt: &(impl Env + AllocGlobal + Print + Eprint),
    threads: &T,
    reader: R,
) -> ExitCode {
    let mut source = StdSource::new(reader);
    let mut sink = StdSink::new(io::writer(rt));
    let status = answer(threads, rt.alloc(), words(rt), &mut source, &mut sink);
    let status = after_flush(status, io::writer(rt).flush());
    let _ = eprint!(rt; "{status}");
    exit_code(status)
}
