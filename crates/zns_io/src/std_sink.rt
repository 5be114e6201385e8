ghost use Rattle.std.specs.Prelude.{◌≡◌, ℕ, ◌<◌, ◌≤◌, length, take, IfOk, OnErr, is_err};
ghost use Rattle.zns_io.specs.Faults.{count_after};
ghost use Rattle.zns_io.specs.Told.{Gains};
ghost use Rattle.zns_io.specs.Streams.{WritesCounted};

use crate::failed::Failed;
use crate::sink::Sink;
use std::io::Write;
use std::marker::Model;
use std::snapshot::Snapshot;

/// A sink over a writer of the standard library. It tells what the writer tells.
#[derive(Drop)]
pub struct StdSink<W: Write> {
    writer: W,
    failures: u64,
    // The writer as it was at first, used only in proofs: a writer that told nothing then tells
    // nothing later.
    first: Snapshot<W>,
}

impl<W: Write> Model for StdSink<W> {
    ghost use Rattle.zns_io.specs.Streams.{Stream, bytes_told_since, StaysTold};

    ghost Value = { Stream };

    ghost view = { λ s. record {
      told = bytes_told_since (W.contents s.first.value) (W.contents s.writer);
      faults = s.failures;
    } };

    ghost invariant = { λ s. StaysTold (W.contents s.first.value) (W.contents s.writer) };
}

impl<W: Write> StdSink<W> {
    /// A sink that writes to `writer`. A write that takes nothing counts as a failure.
    pub fn new(writer: W) -> StdSink<W>
        ensures { result ≡ record { told = W.contents writer; faults = 0 } }
    {
        let first = Snapshot::of(&writer);
        StdSink {
            writer,
            failures: 0,
            first,
        }
    }
}

impl<W: Write> Sink for StdSink<W> {
    ghost taken = { λ s. s.told };

    ghost faults = { λ s. s.faults };

    ghost step = { WritesCounted };

    fn write(&mut self, piece: &[u8]) -> Result<usize, Failed>
        requires { 0 < length piece.now }
        ensures some { IfOk result (λ n. 1 ≤ n) }
        ensures bound { IfOk result (λ n. n ≤ length piece.now) }
        ensures bytes { IfOk result (λ n. Gains self.old.told self.new.told (take n piece.now)) }
        ensures kept { OnErr result (self.new.told ≡ self.old.told) }
        ensures counted { self.new.faults ≡ count_after self.old.faults (is_err result) }
        ensures never_falls { self.old.faults ≤ self.new.faults }
    {
        match self.writer.write(piece) {
            Ok(count) if count > 0 => Ok(count),
            _ => {
                self.failures = self.failures.saturating_add(1);
                Err(Failed)
            }
        }
    }
}
