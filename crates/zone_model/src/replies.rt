ghost use Rattle.std.specs.Prelude.{◌≡◌, ◌+◌, ◌<◌, List, [], ◌∷◌, ◌++◌, length, IfOk, IsTrue, ◌↔◌, slice_index_or};
ghost use Rattle.zone_model.specs.Kept.{KeptReplies};
ghost use Rattle.zone_model.specs.declared.reply.Reply.{Reply};

use crate::reply::Reply;
use std::alloc::Global;
use std::marker::Model;
use zns_io::NoMemory;

/// Replies in order, with room for more.
#[derive(Drop)]
pub struct Replies {
    replies: Vec<Reply>,
    room: u32,
}

impl Model for Replies {
    ghost use Rattle.std.specs.Prelude.{◌+◌, ◌^◌, ◌<◌, ◌≤◌, vec_len, vec_capacity};
    ghost use Rattle.zone_model.specs.Kept.{KeptReplies};

    ghost Value = { KeptReplies };

    ghost view = { λ l. record { replies = l.replies.items; spare = l.room } };

    ghost invariant = { λ l. (vec_len l.replies + l.room ≤ vec_capacity l.replies) × (vec_len l.replies + l.room < 2 ^ 32) };
}

impl Replies {
    /// An empty list with room for `room` replies.
    pub fn new(alloc: Global, room: u32) -> Result<Replies, NoMemory>
        ensures { IfOk result (λ l. l ≡ record { replies = []; spare = room }) }
    {
        let replies = Vec::with_capacity(alloc, room as usize)?;
        Ok(Replies { replies, room })
    }

    /// Appends a reply.
    pub fn push(&mut self, reply: Reply)
        requires { 0 < self.old.spare }
        ensures replies { self.new.replies ≡ self.old.replies ++ reply ∷ [] }
        ensures spare { self.new.spare + 1 ≡ self.old.spare }
    {
        self.room -= 1;
        if self.replies.push(reply).is_err() {
            unreachable!();
        }
    }

    /// The number of further replies that there is room for.
    pub fn spare(&self) -> u32
        ensures { result ≡ self.now.spare }
    {
        self.room
    }

    /// The number of replies.
    pub fn len(&self) -> u32
        ensures { result ≡ length self.now.replies }
    {
        self.replies.len() as u32
    }

    /// Whether there are no replies.
    pub fn is_empty(&self) -> bool
        ensures { IsTrue result ↔ (self.now.replies ≡ []) }
    {
        self.replies.is_empty()
    }

    /// The reply at index `number`, counted from 0.
    pub fn reply(&self, number: u32) -> &Reply
        requires { number < length self.now.replies }
        ensures { (d : Reply) → result.now ≡ slice_index_or self.now.replies number d }
    {
        &self.replies[number as usize]
    }

    /// The replies, in order.
    pub fn into_vec(self) -> Vec<Reply>
        ensures { result.items ≡ self.replies }
    {
        let Replies { replies, room: _ } = self;
        replies
    }
}
