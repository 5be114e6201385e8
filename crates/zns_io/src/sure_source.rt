ghost use Rattle.std.specs.Prelude.{◌≡◌, ℕ, ◌<◌, ◌≤◌, length, take, Ok, Some, IfOk, OnErr};
ghost use Rattle.std.specs.Io.KnownBytes.{IsAtEnd};
ghost use Rattle.zns_io.specs.MemorySources.{GivesSurely, read_len, out_after_read, source_after_read};

use crate::bytes::Bytes;
use crate::failed::Failed;
use crate::source::Source;
use std::marker::Model;

/// A source of bytes in memory that never fails.
#[derive(Drop)]
pub struct SureSource {
    bytes: Bytes,
    at: usize,
    piece: u32,
}

impl Model for SureSource {
    ghost use Rattle.std.specs.Prelude.{◌≤◌, length, drop};
    ghost use Rattle.zns_io.specs.MemorySources.{SourceBytes};

    ghost Value = { SourceBytes };

    ghost view = { λ s. record { left = drop s.at s.bytes; piece = s.piece } };

    ghost invariant = { λ s. (s.at ≤ length s.bytes) × (1 ≤ s.piece) };
}

impl SureSource {
    /// A source of `bytes`. Each read gives at most `piece` of them.
    pub fn new(bytes: Bytes, piece: u32) -> SureSource
        requires { 1 ≤ piece }
        ensures { result ≡ record { left = bytes; piece = piece } }
    {
        SureSource {
            bytes,
            at: 0,
            piece,
        }
    }
}

impl Source for SureSource {
    ghost left = { λ s. Some s.left };

    ghost faults = { λ _. 0 };

    ghost step = { GivesSurely };

    fn read(&mut self, out: &mut [u8]) -> Result<usize, Failed>
        requires { 0 < length out.old }
        ensures count { result ≡ Ok (read_len self.old (length out.old)) }
        ensures out { out.new ≡ out_after_read self.old out.old }
        ensures after { self.new ≡ source_after_read self.old (length out.old) }
        ensures end { IfOk result (λ n. n ≡ 0 → IsAtEnd (Some self.new.left)) }
    {
        let rest = &self.bytes.as_slice()[self.at..];
        let count = rest.len().min(out.len().min(self.piece as usize));
        out[..count].copy_from_slice(&rest[..count]);
        self.at += count;
        Ok(count)
    }
}
