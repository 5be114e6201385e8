ghost use Rattle.std.specs.Prelude.{◌≡◌, ℕ, ◌<◌, ◌≤◌, length, take, Ok, Some, IfOk, OnOk, OnErr, is_err};
ghost use Rattle.std.specs.Io.KnownBytes.{IsAtEnd};
ghost use Rattle.zns_io.specs.Calls.{is_due};
ghost use Rattle.zns_io.specs.MemorySources.{GivesOrFails, read_len, out_after_read, source_after_call};

use crate::bytes::Bytes;
use crate::calls::CallPlan;
use crate::failed::Failed;
use crate::source::Source;
use crate::sure_source::SureSource;
use std::marker::Model;

/// A source of bytes in memory. Chosen calls fail.
#[derive(Drop)]
pub struct MemSource {
    source: SureSource,
    calls: CallPlan,
}

impl Model for MemSource {
    ghost use Rattle.zns_io.specs.MemorySources.{FailingSource};

    ghost Value = { FailingSource };

    ghost view = { λ s. record { bytes = s.source; calls = s.calls } };
}

impl MemSource {
    /// A source of `bytes`. Each read gives at most `piece` of them. A call fails if its number,
    /// counted from 0, is in `failing`.
    pub fn new(bytes: Bytes, piece: u32, failing: Vec<u32>) -> MemSource
        requires { 1 ≤ piece }
        ensures bytes { result.bytes ≡ record { left = bytes; piece = piece } }
        ensures calls { result.calls ≡ record { failing = failing.items; made = 0; faults = 0 } }
    {
        MemSource {
            source: SureSource::new(bytes, piece),
            calls: CallPlan::new(failing),
        }
    }
}

impl Source for MemSource {
    ghost left = { λ s. Some s.bytes.left };

    ghost faults = { λ s. s.calls.faults };

    ghost step = { GivesOrFails };

    fn read(&mut self, out: &mut [u8]) -> Result<usize, Failed>
        requires { 0 < length out.old }
        ensures fails { is_err result ≡ is_due self.old.calls }
        ensures count { IfOk result (λ n. n ≡ read_len self.old.bytes (length out.old)) }
        ensures out { OnOk result (out.new ≡ out_after_read self.old.bytes out.old) }
        ensures untouched { OnErr result (out.new ≡ out.old) }
        ensures after { self.new ≡ source_after_call self.old (length out.old) }
        ensures end { IfOk result (λ n. n ≡ 0 → IsAtEnd (Some self.new.bytes.left)) }
        ensures never_falls { self.old.calls.faults ≤ self.new.calls.faults }
    {
        self.calls.count(false)?;
        self.source.read(out)
    }
}
