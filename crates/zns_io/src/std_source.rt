ghost use Rattle.std.specs.Prelude.{◌≡◌, ℕ, ◌<◌, ◌≤◌, length, take, IfOk, OnErr, is_err};
ghost use Rattle.std.specs.Io.{ReadsAtMost};
ghost use Rattle.std.specs.Io.KnownBytes.{Consumes, IsAtEnd};
ghost use Rattle.zns_io.specs.Faults.{count_after};
ghost use Rattle.zns_io.specs.Streams.{ReadsCounted};

use crate::failed::Failed;
use crate::source::Source;
use std::io::Read;
use std::marker::Model;
use std::snapshot::Snapshot;

/// A source over a reader of the standard library. It tells what the reader tells.
#[derive(Drop)]
pub struct StdSource<R: Read> {
    reader: R,
    failures: u64,
    // The reader as it was at first, used only in proofs: a reader that told nothing then tells
    // nothing later.
    first: Snapshot<R>,
}

impl<R: Read> Model for StdSource<R> {
    ghost use Rattle.zns_io.specs.Streams.{Stream, bytes_told_since, StaysTold};

    ghost Value = { Stream };

    ghost view = { λ s. record {
      told = bytes_told_since (R.remaining s.first.value) (R.remaining s.reader);
      faults = s.failures;
    } };

    ghost invariant = { λ s. StaysTold (R.remaining s.first.value) (R.remaining s.reader) };
}

impl<R: Read> StdSource<R> {
    /// A source of the bytes that `reader` gives.
    pub fn new(reader: R) -> StdSource<R>
        ensures { result ≡ record { told = R.remaining reader; faults = 0 } }
    {
        let first = Snapshot::of(&reader);
        StdSource {
            reader,
            failures: 0,
            first,
        }
    }
}

impl<R: Read> Source for StdSource<R> {
    ghost left = { λ s. s.told };

    ghost faults = { λ s. s.faults };

    ghost step = { ReadsCounted };

    fn read(&mut self, out: &mut [u8]) -> Result<usize, Failed>
        requires { 0 < length out.old }
        ensures bound { ReadsAtMost result out.new }
        ensures bytes { IfOk result (λ n. Consumes self.old.told self.new.told (take n out.new)) }
        ensures end { IfOk result (λ n. n ≡ 0 → IsAtEnd self.new.told) }
        ensures kept { OnErr result (self.new.told ≡ self.old.told) }
        ensures counted { self.new.faults ≡ count_after self.old.faults (is_err result) }
        ensures never_falls { self.old.faults ≤ self.new.faults }
    {
        match self.reader.read(out) {
            Ok(count) => Ok(count),
            Err(_) => {
                self.failures = self.failures.saturating_add(1);
                Err(Failed)
            }
        }
    }
}
