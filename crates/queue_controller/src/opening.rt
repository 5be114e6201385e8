//! Takes all memory that a session needs.
ghost use Rattle.std.specs.Prelude.{◌≡◌, ◌+◌, ◌<◌, ◌≤◌, ◌^◌, ℕ, [], length, replicate, All, IfOk, OnOk};
ghost use Rattle.zone_model.specs.Sessions.{IsAct};
ghost use Rattle.zone_desk.specs.Sights.{main_sight, made};
ghost use Rattle.zone_desk.specs.Passes.{knowing};
ghost use Rattle.zone_desk.specs.declared.sight.Standing.TheVariants.{Free};
ghost use Rattle.queue_controller.specs.Jobs.{IsPrepared, ArePrepared, Starts};
ghost use Rattle.queue_controller.specs.Sessions.{total, AreEmpty, AreDealt, AllPrepared, Filled, Opens};
ghost use mathlib.Core.Option.{some};
ghost use lib.ListN.{get_elem?};

use crate::job::{Job, Prepared};
use session_file::Session;
use sqe_codec::reply_len;
use std::alloc::Global;
use std::collections::VecDeque;
use zns_io::NoMemory;
use zns_types::Geometry;
use zone_desk::{Desk, MainPass, PassErr, QueuePass};
use zone_model::{Act, Replies, Reply};

/// All that a session needs, including the room for what it leaves.
#[derive(Drop)]
pub(crate) struct Shop {
    pub(crate) desk: Desk,
    pub(crate) main: MainPass,
    pub(crate) jobs: Vec<Job>,
    pub(crate) passes: Vec<QueuePass>,
    pub(crate) said: Vec<VecDeque<Reply>>,
    pub(crate) replies: Replies,
}

// An act with room for what it reads.
fn prepare(alloc: Global, g: &Geometry, act: Act) -> Result<Prepared, NoMemory>
    requires { IsAct g.now.fields act }
    ensures act { IfOk result (λ p. p.act ≡ act) }
    ensures prepared { IfOk result (IsPrepared g.now.fields act.queue) }
{
    let len = reply_len(g, act.queue == 0, &act.sqe);
    let out = Vec::with_capacity(alloc, len as usize)?;
    Ok(Prepared { act, out })
}

// An empty list for each queue.
fn empty_lists(alloc: Global, queues: u16) -> Result<Vec<Vec<Prepared>>, NoMemory>
    ensures { IfOk result (λ v. (length v.items ≡ queues) × AreEmpty v.items) }
{
    let mut lists = Vec::with_capacity(alloc, queues as usize)?;
    for _ in 0..queues {
        lists.push_reserved(Vec::new(alloc));
    }
    Ok(lists)
}

// The acts of each queue, in order.
fn deal(alloc: Global, g: &Geometry, acts: Vec<Act>) -> Result<Vec<Vec<Prepared>>, NoMemory>
    requires { All (IsAct g.now.fields) acts.items }
    ensures { IfOk result (λ v. AreDealt g.now.fields acts.items v.items) }
{
    let mut lists = empty_lists(alloc, g.fields.queues)?;
    for act in acts {
        let queue = act.queue as usize;
        let prepared = prepare(alloc, g, act)?;
        lists[queue].push(prepared)?;
    }
    Ok(lists)
}

// A queue's job, with a pass of its own.
fn new_job(
    alloc: Global,
    desk: &Desk,
    main: &mut MainPass,
    queue: u16,
    list: Vec<Prepared>,
) -> Result<Job, NoMemory>
    requires desk { main.old.desk ≡ desk.now }
    requires queue { queue < desk.now.geometry.queues }
    requires free { get_elem? main.old.sight.standings queue ≡ some Free }
    requires room { length list.items ≤ main.old.sight.spare }
    requires seen { main.old.sight.seen ≡ [] }
    requires few { length list.items < 2 ^ 32 }
    requires prepared { ArePrepared desk.now.geometry queue list.items }
    ensures main { OnOk result (main.new
        ≡ knowing main.old (made main.old.sight queue (length list.items))) }
    ensures starts { IfOk result (Starts desk.now) }
    ensures queue { IfOk result (λ j. j.pass.sight.queue ≡ queue) }
    ensures left { IfOk result (λ j. j.left.items ≡ list.items) }
{
    let len = list.len();
    let replies = Vec::with_capacity(alloc, len)?;
    let pass = match desk.pass(alloc, main, queue, len as u32) {
        Ok(pass) => pass,
        Err(PassErr::NoMemory) => return Err(NoMemory),
        Err(PassErr::QueueTaken(_)) => unreachable!(),
        Err(PassErr::RoomShort(_)) => unreachable!(),
    };
    Ok(Job {
        pass,
        left: VecDeque::from_vec(list),
        replies,
    })
}

// A job for each queue, in the order of the queues.
fn jobs_for(
    alloc: Global,
    desk: &Desk,
    main: &mut MainPass,
    lists: Vec<Vec<Prepared>>,
) -> Result<Vec<Job>, NoMemory>
    requires desk { main.old.desk ≡ desk.now }
    requires queues { desk.now.geometry.queues ≡ length lists.items }
    requires sight { main.old.sight ≡ main_sight desk.now.geometry [] (total lists.items)
        (replicate (length lists.items) Free) }
    requires few { length lists.items < 2 ^ 16 }
    requires small { total lists.items < 2 ^ 32 }
    requires prepared { AllPrepared desk.now.geometry lists.items }
    ensures { IfOk result (λ v. Filled desk.now lists.items main.new v.items) }
{
    let mut jobs = Vec::with_capacity(alloc, lists.len())?;
    let mut queue = 0u16;
    for list in lists {
        jobs.push_reserved(new_job(alloc, desk, main, queue, list)?);
        queue += 1;
    }
    Ok(jobs)
}

/// Takes all memory that a session needs, and serves nothing.
pub(crate) fn open(alloc: Global, session: Session) -> Result<Shop, NoMemory>
    ensures { IfOk result (Opens session) }
{
    let (geometry, acts) = session.into_parts();
    let room = acts.len();
    let queues = geometry.fields.queues as usize;
    let lists = deal(alloc, &geometry, acts.into_vec())?;
    let (desk, mut main) = Desk::new(alloc, geometry, room)?;
    let jobs = jobs_for(alloc, &desk, &mut main, lists)?;
    Ok(Shop {
        desk,
        main,
        jobs,
        passes: Vec::with_capacity(alloc, queues)?,
        said: Vec::with_capacity(alloc, queues)?,
        replies: Replies::new(alloc, room)?,
    })
}
