ghost use Rattle.std.specs.Prelude.{◌≡◌, ◌↔◌, IfOk, OnErr, None, is_ok};
ghost use Rattle.std.specs.Process.{exit_status};
ghost use Rattle.zns_program.specs.Numbers.{number_of};
ghost use Rattle.zns_program.specs.Tasks.{AskToMake, task_named};
ghost use Rattle.zns_program.specs.Outcomes.{moment, Means, IsComplete, GoesByCount};
ghost use Rattle.zns_program.specs.Edges.{status_after_flush};

use crate::side_by_side::top;
use crate::status::Status;
use crate::word::Word;
use queue_controller::FreeGate;
use std::alloc::Global;
use std::io;
use std::process::ExitCode;
use std::sync::Wait;
use std::thread::Threads;
use zns_io::{NoMemory, Sink, Source};

/// Does what the words ask for with what the source gives, and writes the output to the sink. If
/// reading the words ran out of memory, returns that status, and nothing is read or written.
pub fn answer<R: Threads + Wait + Sync, S: Source, K: Sink>(
    rt: &R,
    alloc: Global,
    words: Result<Vec<Word>, NoMemory>,
    source: &mut S,
    sink: &mut K,
) -> Status
    ensures usage { IfOk words
        (λ words. (result ≡ Status.Usage) ↔ (task_named words.items ≡ None)) }
    ensures means { IfOk words (λ words. Means words.items
        (moment (S.left source.old) (K.taken sink.old) (S.faults source.old) (K.faults sink.old))
        (moment (S.left source.new) (K.taken sink.new) (S.faults source.new) (K.faults sink.new))
        result) }
    ensures complete { IfOk words (λ words. IsComplete words.items
        (moment (S.left source.old) (K.taken sink.old) (S.faults source.old) (K.faults sink.old))
        (moment (S.left source.new) (K.taken sink.new) (S.faults source.new) (K.faults sink.new))
        result) }
    ensures by_count { IfOk words (λ words. GoesByCount words.items result) }
    ensures gen_reads_nothing { IfOk words
        (λ words. AskToMake words.items → source.new ≡ source.old) }
    ensures no_memory { OnErr words (result ≡ Status.NoMemory) }
    ensures source { OnErr words (source.new ≡ source.old) }
    ensures sink { OnErr words (sink.new ≡ sink.old) }
{
    match words {
        Ok(words) => top(rt, alloc, &words, source, sink, &FreeGate),
        Err(_) => Status::NoMemory,
    }
}

/// The status of a run once its output was flushed, or flushing failed.
pub fn after_flush(status: Status, flushed: io::Result<()>) -> Status
    ensures { result ≡ status_after_flush status (is_ok flushed) }
{
    match status {
        Status::Ok if flushed.is_err() => Status::WriteFault,
        status => status,
    }
}

/// The exit status of a run.
pub fn exit_code(status: Status) -> ExitCode
    ensures { exit_status result ≡ number_of status }
{
    ExitCode::from(status.number())
}
