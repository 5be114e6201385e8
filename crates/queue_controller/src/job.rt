//! One queue's worker.
ghost use Rattle.std.specs.Prelude.{◌<◌};
ghost use Rattle.queue_controller.specs.Keeping.{Holds, kept_zones, rested};
ghost use Rattle.queue_controller.specs.Serving.{Serves};
ghost use Rattle.queue_controller.specs.Jobs.{IsPrepared, IsReplyTo, Starts, Finishes};

use crate::gate::Gate;
use crate::keeping::{Kept, serve_keeping};
use std::collections::VecDeque;
use std::sync::Wait;
use zns_io::{Bytes, pad};
use zone_desk::{Desk, QueuePass};
use zone_model::{Act, Reply};

/// An act to serve, with room for what it reads. The room isn't touched until then.
#[derive(Drop)]
pub struct Prepared {
    pub act: Act,
    pub out: Vec<u8>,
}

/// A worker's pass, the acts that are left to serve, and the replies to those already served.
#[derive(Drop)]
pub struct Job {
    pub pass: QueuePass,
    pub left: VecDeque<Prepared>,
    pub replies: Vec<Reply>,
}

// Serves one prepared act of the pass's queue.
fn reply_to<R: Wait, G: Gate>(
    rt: &R,
    desk: &Desk,
    pass: &mut QueuePass,
    kept: &mut Kept,
    prepared: Prepared,
    gate: &G,
) -> Reply
    requires holds { Holds desk.now (kept_zones desk.now.geometry kept.old.words) pass.old }
    requires spare { 0 < pass.old.sight.spare }
    requires prepared { IsPrepared desk.now.geometry pass.old.sight.queue prepared }
    ensures holds { Holds desk.now (kept_zones desk.now.geometry kept.new.words) pass.new }
    ensures served { Serves (rested pass.old.sight) prepared.act
        (IsReplyTo desk.now.geometry prepared.act result) (rested pass.new.sight) }
{
    let Prepared { act, mut out } = prepared;
    let Act {
        queue: _,
        sqe,
        payload,
    } = act;
    let room = out.capacity();
    pad(&mut out, room);
    let posted = serve_keeping(rt, desk, pass, kept, sqe, payload, &mut out, gate);
    out.truncate(posted.len as usize);
    Reply {
        entries: posted.entries,
        read: Bytes::from_vec(out),
    }
}

/// Serves all acts of a job, in order.
pub(crate) fn work<R: Wait, G: Gate>(rt: &R, desk: &Desk, job: &mut Job, gate: &G)
    requires { Starts desk.now job.old }
    ensures { Finishes desk.now job.old job.new }
{
    let mut kept = Kept::nothing();
    while let Some(prepared) = job.left.pop_front() {
        let reply = reply_to(rt, desk, &mut job.pass, &mut kept, prepared, gate);
        job.replies.push_reserved(reply);
    }
    desk.put_back(&mut job.pass);
}
