//! The end of a session.
ghost use Rattle.std.specs.Prelude.{◌≡◌, ◌≤◌, [], ℕ, length};
ghost use Rattle.zone_model.specs.Sessions.{acts_of};
ghost use Rattle.queue_controller.specs.Replies.{all_responses, Respond};
ghost use Rattle.queue_controller.specs.Sessions.{AllSaid, IsServed, Runs};

use crate::job::Job;
use crate::opening::Shop;
use session_file::Session;
use solo_drive::Solo;
use std::collections::VecDeque;
use std::snapshot::Snapshot;
use zone_model::{Replies, Reply};

/// What a session leaves: the drive, whose journal is the order in which the acts were served, and
/// a reply to each act, in that order.
#[derive(Drop)]
pub struct Outcome {
    pub drive: Solo,
    pub replies: Replies,
}

// Puts the replies of the queues into the order of the drive's journal.
fn gather(drive: &Solo, mut said: Vec<VecDeque<Reply>>, mut replies: Replies) -> Replies
    requires said { AllSaid drive.now.geometry [] drive.now.acts said.items }
    requires others { (queue : ℕ) → length said.items ≤ queue → acts_of queue drive.now.acts ≡ [] }
    requires none { replies.replies ≡ [] }
    requires room { length drive.now.acts ≤ replies.spare }
    ensures { Respond result.replies (all_responses drive.now.geometry [] drive.now.acts) }
{
    let journal = drive.journal();
    for number in 0..journal.len() {
        let queue = journal.queue(number) as usize;
        let Some(reply) = said[queue].pop_front() else {
            unreachable!()
        };
        replies.push(reply);
    }
    replies
}

/// Closes the desk of a session once all its acts are served.
pub(crate) fn finish(shop: Shop, asked: Snapshot<Session>) -> Outcome
    requires { IsServed asked.value shop }
    ensures { Runs asked.value result }
{
    let Shop {
        desk,
        main,
        jobs,
        mut passes,
        mut said,
        replies,
    } = shop;
    for job in jobs {
        let Job {
            pass,
            left,
            replies,
        } = job;
        drop(left);
        passes.push_reserved(pass);
        said.push_reserved(VecDeque::from_vec(replies));
    }
    let drive = desk.close(main, passes);
    let replies = gather(&drive, said, replies);
    Outcome { drive, replies }
}
