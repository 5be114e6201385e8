ghost use Rattle.std.specs.Prelude.{◌≡◌, IfOk};
ghost use Rattle.zns_program.specs.Runs.{IsRun};

use crate::serving::result_of;
use queue_controller::{Gate, run_session};
use session_file::Session;
use std::alloc::Global;
use std::mem::forget;
use std::sync::Wait;
use std::thread::Threads;
use zns_io::{Bytes, NoMemory};

/// The whole result file of a session, in the order in which its queues were served side by side,
/// each by a worker of its own.
pub fn run<R: Threads + Wait + Sync, G: Gate + Sync>(
    rt: &R,
    alloc: Global,
    session: Session,
    gate: &G,
) -> Result<Bytes, NoMemory>
    ensures { IfOk result (IsRun session) }
{
    let outcome = run_session(rt, alloc, session, gate)?;
    let result = result_of(alloc, &outcome.drive, &outcome.replies);
    // The program ends soon, which frees all memory at once.
    forget(outcome);
    result
}
