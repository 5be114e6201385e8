//! The top of the program, which may start threads and wait.
ghost use Rattle.std.specs.Prelude.{◌≡◌, ◌↔◌, None};
ghost use Rattle.zns_program.specs.Tasks.{AskToMake, task_named};
ghost use Rattle.zns_program.specs.Outcomes.{moment, Means, IsComplete, GoesByCount};
ghost use Rattle.zns_program.specs.Making.{GivesOutput};

use crate::plain::{end_with, top_plain};
use crate::running::run;
use crate::status::Status;
use crate::streaming::session_from;
use crate::task::{Task, task_of};
use crate::word::Word;
use queue_controller::Gate;
use std::alloc::Global;
use std::sync::Wait;
use std::thread::Threads;
use zns_io::{Bytes, Sink, Source};

// The result of the session that a source gives, in the order in which its queues were served side
// by side.
fn run_from<R: Threads + Wait + Sync, S: Source, G: Gate + Sync>(
    rt: &R,
    alloc: Global,
    source: &mut S,
    gate: &G,
) -> Result<Bytes, Status>
    ensures { GivesOutput Task.Run (S.left source.old) (S.left source.new)
        (S.faults source.old) (S.faults source.new) result }
{
    let session = session_from(alloc, source)?;
    Ok(run(rt, alloc, session, gate)?)
}

/// Does what the words ask for with what the source gives, and writes the output to the sink. The
/// whole output is made before its first byte is written.
///
/// With `run`, each queue of the session is served by a worker of its own, however their threads
/// interleave. If the status is Ok, the output names one order of the commands, with each command
/// once and each queue's in its own order, and it is the output of a drive that serves one command
/// at a time in that order (`Means`: `Finishes`, `IsRan`).
pub fn top<R: Threads + Wait + Sync, S: Source, K: Sink, G: Gate + Sync>(
    rt: &R,
    alloc: Global,
    words: &[Word],
    source: &mut S,
    sink: &mut K,
    gate: &G,
) -> Status
    ensures usage { (result ≡ Status.Usage) ↔ (task_named words.now ≡ None) }
    ensures means { Means words.now
        (moment (S.left source.old) (K.taken sink.old) (S.faults source.old) (K.faults sink.old))
        (moment (S.left source.new) (K.taken sink.new) (S.faults source.new) (K.faults sink.new))
        result }
    ensures complete { IsComplete words.now
        (moment (S.left source.old) (K.taken sink.old) (S.faults source.old) (K.faults sink.old))
        (moment (S.left source.new) (K.taken sink.new) (S.faults source.new) (K.faults sink.new))
        result }
    ensures by_count { GoesByCount words.now result }
    ensures gen_reads_nothing { AskToMake words.now → source.new ≡ source.old }
{
    match task_of(words) {
        Some(Task::Run) => end_with(sink, run_from(rt, alloc, source, gate)),
        _ => top_plain(alloc, words, source, sink),
    }
}
