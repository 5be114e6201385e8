ghost use Rattle.std.specs.Prelude.{◌≡◌, ◌↔◌, ◌≤◌, ◌^◌, [], None, length};
ghost use Rattle.zns_program.specs.Tasks.{IsPlain, MakesSession, AskToMake, task_named, if_plain};
ghost use Rattle.zns_program.specs.Outcomes.{moment, Means, IsPlainComplete, GoesByCount};
ghost use Rattle.zns_program.specs.Making.{Makes, MakesByCount, GivesOutput, EndsBy};

use crate::checking::check_from;
use crate::generating::generate;
use crate::status::Status;
use crate::streaming::{input_after, one_from, text_from};
use crate::summing::summarize;
use crate::task::{Task, plain_task_of};
use crate::word::Word;
use session_file::Which;
use std::alloc::Global;
use zns_io::{Bytes, Sink, Source, write_all};

/// The most bytes that an input can have.
pub const GREATEST_INPUT: u64 = 1 << 29;

// The most commands of a session that is made.
const MOST_COMMANDS: u64 = 262_144;

/// The status for an input that is too long.
pub const TOO_LONG: Status = Status::TooLarge {
    which: Which::Input,
    number: GREATEST_INPUT + 1,
};

// What a new drive answers to the script in `input`.
fn scripted(alloc: Global, input: &[u8]) -> Result<Bytes, Status>
    requires { length input.now ≤ 2 ^ 29 }
    ensures { Makes Task.Host input.now result }
{
    let script = host_script::read(alloc, input)?;
    Ok(host_script::serve(alloc, script)?)
}

// The summary of the session of `count` commands that `number` determines.
fn made_summary(alloc: Global, number: u64, count: u64) -> Result<Bytes, Status>
    ensures makes { Makes (Task.Gen number count) [] result }
    ensures by_count { MakesByCount (Task.Gen number count) result }
{
    if count > MOST_COMMANDS {
        return Err(Status::TooLarge {
            which: Which::Commands,
            number: count,
        });
    }
    let session = generate(alloc, number, count as u32)?;
    Ok(summarize(alloc, session)?)
}

// What a new drive answers to the script that a source gives.
fn scripted_from<S: Source>(alloc: Global, source: &mut S) -> Result<Bytes, Status>
    ensures { GivesOutput Task.Host (S.left source.old) (S.left source.new)
        (S.faults source.old) (S.faults source.new) result }
{
    let input = input_after(alloc, Bytes::empty(alloc), source)?;
    scripted(alloc, input.as_slice())
}

// The output of a task for what a source gives.
fn output_of<S: Source>(alloc: Global, task: Task, source: &mut S) -> Result<Bytes, Status>
    requires { IsPlain task }
    ensures output { GivesOutput task (S.left source.old) (S.left source.new)
        (S.faults source.old) (S.faults source.new) result }
    ensures by_count { MakesByCount task result }
    ensures gen_reads_nothing { MakesSession task → source.new ≡ source.old }
{
    match task {
        Task::One => one_from(alloc, source),
        Task::Run => unreachable!(),
        Task::Check => check_from(alloc, source),
        Task::Show => text_from(alloc, source),
        Task::Host => scripted_from(alloc, source),
        Task::Gen { number, count } => made_summary(alloc, number, count),
    }
}

/// Writes the output of a task, if there is one, and returns how the run ends.
pub fn end_with<K: Sink>(sink: &mut K, output: Result<Bytes, Status>) -> Status
    ensures { EndsBy output (K.taken sink.old) (K.taken sink.new)
        (K.faults sink.old) (K.faults sink.new) result }
{
    let output = match output {
        Ok(output) => output,
        Err(status) => return status,
    };
    match write_all(sink, output.as_slice()) {
        Ok(()) => Status::Ok,
        Err(_) => Status::WriteFault,
    }
}

/// Does what the words ask for with what the source gives, and writes the output to the sink. The
/// whole output is made before its first byte is written. The word `run` needs threads and isn't
/// accepted here.
pub fn top_plain<S: Source, K: Sink>(
    alloc: Global,
    words: &[Word],
    source: &mut S,
    sink: &mut K,
) -> Status
    ensures usage { (result ≡ Status.Usage) ↔ (if_plain (task_named words.now) ≡ None) }
    ensures means { Means words.now
        (moment (S.left source.old) (K.taken sink.old) (S.faults source.old) (K.faults sink.old))
        (moment (S.left source.new) (K.taken sink.new) (S.faults source.new) (K.faults sink.new))
        result }
    ensures complete { IsPlainComplete words.now
        (moment (S.left source.old) (K.taken sink.old) (S.faults source.old) (K.faults sink.old))
        (moment (S.left source.new) (K.taken sink.new) (S.faults source.new) (K.faults sink.new))
        result }
    ensures by_count { GoesByCount words.now result }
    ensures gen_reads_nothing { AskToMake words.now → source.new ≡ source.old }
{
    match plain_task_of(words) {
        Some(task) => end_with(sink, output_of(alloc, task, source)),
        None => Status::Usage,
    }
}
