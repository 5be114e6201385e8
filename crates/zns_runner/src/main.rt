//! The program: what `zns_program` does with the words, standard input and standard output.
#![tactic(auto)]

use std::process::ExitCode;
use zns_program::run_program;

fn main(rt: HostRuntime) -> ExitCode {
    run_program(&rt, &rt, rt.reader())
}
