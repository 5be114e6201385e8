ghost use Rattle.std.specs.Prelude.{◌≡◌, ℕ, ◌<◌, ◌≤◌, ◌-◌, [], true, length, take, Ok, IfOk};
ghost use Rattle.zns_io.specs.MemorySinks.{WritesSurely, bytes_told, write_len, sink_after_write};

use crate::failed::Failed;
use crate::no_memory::NoMemory;
use crate::sink::Sink;
use std::alloc::Global;
use std::marker::Model;

/// A sink that keeps bytes in memory and never fails. A write that doesn't fit its room is dropped,
/// and from then on the sink doesn't tell what it took.
#[derive(Drop)]
pub struct SureSink {
    kept: Vec<u8>,
    is_whole: bool,
    room: u32,
    piece: u32,
}

impl Model for SureSink {
    ghost use Rattle.std.specs.Prelude.{◌≤◌, vec_len, vec_capacity};
    ghost use Rattle.zns_io.specs.MemorySinks.{SinkBytes};

    ghost Value = { SinkBytes };

    ghost view = { λ s. record { kept = s.kept.items; whole = s.is_whole; room = s.room; piece = s.piece } };

    ghost invariant = { λ s. (vec_len s.kept ≤ s.room) × (s.room ≤ vec_capacity s.kept) × (1 ≤ s.piece) };
}

impl SureSink {
    /// A sink with room for `room` bytes. Each write takes at most `piece` of them.
    pub fn new(alloc: Global, room: u32, piece: u32) -> Result<SureSink, NoMemory>
        requires { 1 ≤ piece }
        ensures { IfOk result (λ sink.
            sink ≡ record { kept = []; whole = true; room = room; piece = piece }) }
    {
        let kept = Vec::with_capacity(alloc, room as usize)?;
        Ok(SureSink {
            kept,
            is_whole: true,
            room,
            piece,
        })
    }

    /// The bytes kept.
    pub fn bytes(&self) -> &[u8]
        ensures { result.now ≡ self.now.kept }
    {
        &self.kept
    }

    /// How many more bytes fit.
    pub(crate) fn room_left(&self) -> usize
        ensures left { result ≡ self.now.room - length self.now.kept }
        ensures within { length self.now.kept ≤ self.now.room }
    {
        self.room as usize - self.kept.len()
    }
}

impl Sink for SureSink {
    ghost taken = { bytes_told };

    ghost faults = { λ _. 0 };

    ghost step = { WritesSurely };

    fn write(&mut self, piece: &[u8]) -> Result<usize, Failed>
        requires { 0 < length piece.now }
        ensures count { result ≡ Ok (write_len self.old.piece piece.now) }
        ensures after { self.new ≡ sink_after_write self.old piece.now }
        ensures some { IfOk result (λ n. 1 ≤ n) }
    {
        let count = piece.len().min(self.piece as usize);
        if self.kept.len() + count <= self.room as usize {
            self.kept.extend_from_slice(&piece[..count]).unwrap();
        } else {
            self.is_whole = false;
        }
        Ok(count)
    }
}
