ghost use Rattle.std.specs.Prelude.{◌≡◌, ℕ, ◌+◌, ◌<◌, ◌≤◌, [], true, false, length, drop, slice_index, IfOk, IsErrOf};
ghost use Rattle.std.specs.Io.KnownBytes.{IsAtEnd};
ghost use Rattle.zns_io.specs.Faults.{Rose};
ghost use Rattle.session_file.specs.Streams.{GoesOn};

use crate::feed_err::FeedErr;
use std::alloc::Global;
use std::marker::Model;
use zns_io::{NoMemory, Source};

/// The most bytes that one read asks for.
pub const PIECE: usize = 65536;

// Returns `bytes`; the contract adds that each of them is less than 256.
fn known(bytes: &[u8]) -> &[u8]
    ensures same { result.now ≡ bytes.now }
    ensures bytes { (i : ℕ) → slice_index bytes.now i < 256 }
{
    bytes
}

/// Bytes that were read from a source and not taken yet.
#[derive(Drop)]
pub struct Feed {
    bytes: Vec<u8>,
    at: usize,
}

impl Model for Feed {
    ghost use Rattle.std.specs.Prelude.{ℕ, List, ◌≤◌, drop, vec_len};

    ghost Value = { List ℕ };

    ghost view = { λ f. drop f.at f.bytes.items };

    ghost invariant = { λ f. f.at ≤ vec_len f.bytes };
}

impl Feed {
    /// An empty feed.
    pub fn new(alloc: Global) -> Feed
        ensures { result ≡ [] }
    {
        Feed {
            bytes: Vec::new(alloc),
            at: 0,
        }
    }

    /// A feed that holds `bytes`.
    pub fn from_vec(bytes: Vec<u8>) -> Feed
        ensures { result ≡ bytes.items }
    {
        Feed { bytes, at: 0 }
    }

    /// The bytes that are held.
    pub fn rest(&self) -> &[u8]
        ensures rest { result.now ≡ self.now }
        ensures bytes { (i : ℕ) → slice_index result.now i < 256 }
    {
        known(&self.bytes[self.at..])
    }

    /// Takes the first `count` bytes.
    pub fn skip(&mut self, count: usize)
        requires { count ≤ length self.old }
        ensures { self.new ≡ drop count self.old }
    {
        self.at += count;
    }

    // Drops the bytes that were taken, so that the held ones are at the front.
    fn settle(&mut self, alloc: Global) -> Result<(), NoMemory>
        ensures { self.new ≡ self.old }
    {
        if self.at > 0 {
            let rest = self.bytes.len() - self.at;
            let mut bytes = Vec::with_capacity(alloc, rest + PIECE)?;
            bytes.extend_from_slice(&self.bytes[self.at..])?;
            self.bytes = bytes;
            self.at = 0;
        }
        Ok(())
    }

    /// Reads one more piece, of at most 65,536 bytes and at most `most`. Returns whether any bytes
    /// came.
    pub fn more<S: Source>(
        &mut self,
        alloc: Global,
        source: &mut S,
        most: usize,
    ) -> Result<bool, FeedErr>
        requires { 0 < most }
        ensures goes_on { GoesOn (S.left source.old) (S.left source.new) self.old self.new }
        ensures few { length self.new ≤ length self.old + 65536 }
        ensures most { length self.new ≤ length self.old + most }
        ensures some { IfOk result (λ some. some ≡ true → length self.old < length self.new) }
        ensures none { IfOk result (λ some. some ≡ false → self.new ≡ self.old) }
        ensures end { IfOk result (λ some. some ≡ false → IsAtEnd (S.left source.new)) }
        ensures fault { IsErrOf result FeedErr.Failed
            → Rose (S.faults source.old) (S.faults source.new) }
        ensures never_falls { S.faults source.old ≤ S.faults source.new }
    {
        self.settle(alloc)?;
        let held = self.bytes.len();
        self.bytes.resize(held + most.min(PIECE), 0)?;
        match source.read(&mut self.bytes[held..]) {
            Ok(count) => {
                self.bytes.truncate(held + count);
                Ok(count > 0)
            }
            Err(failed) => {
                self.bytes.truncate(held);
                Err(failed.into())
            }
        }
    }

    /// Reads until `least` bytes are held or the source ends. Returns whether `least` bytes are
    /// held. At most `most` are held then.
    pub fn fill<S: Source>(
        &mut self,
        alloc: Global,
        source: &mut S,
        least: usize,
        most: usize,
    ) -> Result<bool, FeedErr>
        requires least { least ≤ most }
        requires held { length self.old ≤ most }
        ensures goes_on { GoesOn (S.left source.old) (S.left source.new) self.old self.new }
        ensures most { length self.new ≤ most }
        ensures full { IfOk result (λ full. full ≡ true → least ≤ length self.new) }
        ensures short { IfOk result (λ full. full ≡ false → length self.new < least) }
        ensures end { IfOk result (λ full. full ≡ false → IsAtEnd (S.left source.new)) }
        ensures fault { IsErrOf result FeedErr.Failed
            → Rose (S.faults source.old) (S.faults source.new) }
        ensures never_falls { S.faults source.old ≤ S.faults source.new }
    {
        while self.rest().len() < least {
            let room = most - self.rest().len();
            if !self.more(alloc, source, room)? {
                return Ok(false);
            }
        }
        Ok(true)
    }
}
