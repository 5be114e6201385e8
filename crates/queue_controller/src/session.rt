ghost use Rattle.std.specs.Prelude.{◌≡◌, ℕ, ◌<◌, length, slice_index_or, All, IfOk};
ghost use Rattle.queue_controller.specs.Jobs.{Starts, Finishes};
ghost use Rattle.queue_controller.specs.Sessions.{Runs};
ghost use Rattle.queue_controller.specs.declared.job.Job.{Job};

use crate::closing::{Outcome, finish};
use crate::gate::Gate;
use crate::job::{Job, work};
use crate::opening::open;
use session_file::Session;
use std::alloc::Global;
use std::snapshot::Snapshot;
use std::sync::Wait;
use std::thread;
use std::thread::Threads;
use zns_io::NoMemory;
use zone_desk::Desk;

// Serves each job with a worker of its own.
fn work_all<R: Threads + Wait + Sync, G: Gate + Sync>(
    rt: &R,
    desk: &Desk,
    jobs: &mut [Job],
    gate: &G,
)
    requires { All (Starts desk.now) jobs.old }
    ensures { (i : ℕ) (d : Job) → i < length jobs.old
        → Finishes desk.now (slice_index_or jobs.old i d) (slice_index_or jobs.new i d) }
{
    let workers = jobs.len();
    if workers > 0 {
        thread::for_each_mut(rt, jobs, workers, &|_, job| work(rt, desk, job, gate));
    }
}

/// Serves a session with a worker for each queue, which serves the queue's acts in order. All
/// memory is taken before the first act is served.
///
/// If it returns an outcome, the drive's journal is an order of the session's acts, and each act
/// was answered as by a drive that serves one act at a time in that order.
pub fn run_session<R: Threads + Wait + Sync, G: Gate + Sync>(
    rt: &R,
    alloc: Global,
    session: Session,
    gate: &G,
) -> Result<Outcome, NoMemory>
    ensures { IfOk result (Runs session) }
{
    let asked = Snapshot::of(&session);
    let mut shop = open(alloc, session)?;
    work_all(rt, &shop.desk, shop.jobs.as_mut_slice(), gate);
    Ok(finish(shop, asked))
}
