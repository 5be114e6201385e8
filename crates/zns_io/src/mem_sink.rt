ghost use Rattle.std.specs.Prelude.{◌≡◌, ℕ, ◌<◌, ◌≤◌, [], length, take, Some, IfOk, is_err};
ghost use Rattle.zns_io.specs.MemorySinks.{FailingSink, WritesInRoom, is_due_or_full, write_len_in_room, sink_after_call};

use crate::calls::CallPlan;
use crate::failed::Failed;
use crate::no_memory::NoMemory;
use crate::sink::Sink;
use crate::sure_sink::SureSink;
use std::alloc::Global;
use std::marker::Model;

/// A sink that keeps bytes in memory, up to its room. Chosen calls fail.
#[derive(Drop)]
pub struct MemSink {
    sink: SureSink,
    calls: CallPlan,
}

impl Model for MemSink {
    ghost use Rattle.std.specs.Prelude.{◌≡◌, true};
    ghost use Rattle.zns_io.specs.MemorySinks.{FailingSink};

    ghost Value = { FailingSink };

    ghost view = { λ s. record { taken = s.sink.kept; room = s.sink.room; piece = s.sink.piece; calls = s.calls } };

    ghost invariant = { λ s. s.sink.whole ≡ true };
}

impl MemSink {
    /// A sink with room for `room` bytes. Each write takes at most `piece` of them. A call fails if
    /// its number, counted from 0, is in `failing`, or if the room is used up.
    pub fn new(alloc: Global, room: u32, piece: u32, failing: Vec<u32>) -> Result<MemSink, NoMemory>
        requires { 1 ≤ piece }
        ensures taken { IfOk result (λ sink. sink.taken ≡ []) }
        ensures room { IfOk result (λ sink. sink.room ≡ room) }
        ensures piece { IfOk result (λ sink. sink.piece ≡ piece) }
        ensures calls { IfOk result
            (λ sink. sink.calls ≡ record { failing = failing.items; made = 0; faults = 0 }) }
    {
        let sink = SureSink::new(alloc, room, piece)?;
        let calls = CallPlan::new(failing);
        Ok(MemSink { sink, calls })
    }

    /// The bytes taken.
    pub fn bytes(&self) -> &[u8]
        ensures { result.now ≡ self.now.taken }
    {
        self.sink.bytes()
    }
}

impl Sink for MemSink {
    ghost taken = { λ s. Some s.taken };

    ghost faults = { λ s. s.calls.faults };

    ghost step = { WritesInRoom };

    fn write(&mut self, piece: &[u8]) -> Result<usize, Failed>
        requires { 0 < length piece.now }
        ensures fails { is_err result ≡ is_due_or_full self.old }
        ensures count { IfOk result (λ n. n ≡ write_len_in_room self.old piece.now) }
        ensures after { self.new ≡ sink_after_call self.old piece.now }
        ensures some { IfOk result (λ n. 1 ≤ n) }
        ensures never_falls { self.old.calls.faults ≤ self.new.calls.faults }
    {
        let room = self.sink.room_left();
        self.calls.count(room == 0)?;
        let most = piece.len().min(room);
        self.sink.write(&piece[..most])
    }
}
