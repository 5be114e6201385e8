ghost use Rattle.std.specs.Prelude.{◌≡◌, ◌+◌, ◌<◌, ◌≤◌, ◌^◌, [], length, drop, OnOk, IsErrOf};
ghost use Rattle.std.specs.Io.KnownBytes.{IsAtEnd};
ghost use Rattle.zns_io.specs.Faults.{Rose};
ghost use Rattle.zns_program.specs.Tails.{StaysIn, IsOver};

use crate::plain::GREATEST_INPUT;
use session_file::{Feed, FeedErr};
use std::alloc::Global;
use std::marker::Model;
use zns_io::{ReadErr, Source};

// The most bytes that are read of an input: one more than the longest input has.
const MOST_READ: u64 = GREATEST_INPUT + 1;

/// An input whose front was taken: the bytes read after it, and how many bytes were taken.
#[derive(Drop)]
pub struct Tail {
    feed: Feed,
    at: u64,
}

impl Model for Tail {
    ghost use Rattle.std.specs.Prelude.{◌+◌, ◌≤◌, ◌^◌, length};
    ghost use Rattle.zns_program.specs.Tails.{TailBytes};

    ghost Value = { TailBytes };

    ghost view = { λ t. record { held = t.feed; at = t.at } };

    ghost invariant = { λ t. t.at + length t.feed ≤ 2 ^ 29 + 1 };
}

impl Tail {
    /// The bytes in `feed` were read after a front of `at` bytes.
    pub fn new(feed: Feed, at: u64) -> Tail
        requires { at + length feed ≤ 2 ^ 29 + 1 }
        ensures { result ≡ record { held = feed; at = at } }
    {
        Tail { feed, at }
    }

    /// The number of bytes that were taken.
    pub fn at(&self) -> u64
        ensures at { result ≡ self.now.at }
        ensures few { self.now.at + length self.now.held ≤ 2 ^ 29 + 1 }
    {
        self.at
    }

    /// The bytes that were read and not taken yet.
    pub fn held(&self) -> &[u8]
        ensures { result.now ≡ self.now.held }
    {
        self.feed.rest()
    }

    /// Takes the first `count` bytes.
    pub fn skip(&mut self, count: usize)
        requires { count ≤ length self.old.held }
        ensures held { self.new.held ≡ drop count self.old.held }
        ensures at { self.new.at ≡ self.old.at + count }
    {
        self.feed.skip(count);
        self.at += count as u64;
    }

    /// Reads until `least` bytes are held or the input ends.
    pub fn fill<S: Source>(
        &mut self,
        alloc: Global,
        source: &mut S,
        least: usize,
    ) -> Result<(), ReadErr>
        ensures stays { StaysIn (S.left source.old) (S.left source.new) self.old self.new }
        ensures at { self.new.at ≡ self.old.at }
        ensures end { OnOk result (length self.new.held < least → IsAtEnd (S.left source.new)) }
        ensures short { OnOk result
            (length self.new.held < least → self.new.at + length self.new.held ≤ 2 ^ 29) }
        ensures few { self.new.at + length self.new.held ≤ 2 ^ 29 + 1 }
        ensures over { IsErrOf result ReadErr.Over → IsOver self.new }
        ensures fault { IsErrOf result ReadErr.Failed
            → Rose (S.faults source.old) (S.faults source.new) }
        ensures never_falls { S.faults source.old ≤ S.faults source.new }
    {
        let most = (MOST_READ - self.at) as usize;
        match self.feed.fill(alloc, source, least.min(most), most) {
            Ok(full) if full && most < least => Err(ReadErr::Over),
            Ok(_) => Ok(()),
            Err(FeedErr::NoMemory) => Err(ReadErr::NoMemory),
            Err(FeedErr::Failed) => Err(ReadErr::Failed),
        }
    }

    /// Takes everything up to the end of the input.
    pub fn drain<S: Source>(&mut self, alloc: Global, source: &mut S) -> Result<(), ReadErr>
        ensures stays { StaysIn (S.left source.old) (S.left source.new) self.old self.new }
        ensures end { OnOk result (IsAtEnd (S.left source.new)) }
        ensures all { OnOk result (self.new.held ≡ []) }
        ensures short { OnOk result (self.new.at ≤ 2 ^ 29) }
        ensures few { self.new.at + length self.new.held ≤ 2 ^ 29 + 1 }
        ensures over { IsErrOf result ReadErr.Over → IsOver self.new }
        ensures fault { IsErrOf result ReadErr.Failed
            → Rose (S.faults source.old) (S.faults source.new) }
        ensures never_falls { S.faults source.old ≤ S.faults source.new }
    {
        self.fill(alloc, source, 1)?;
        while !self.held().is_empty() {
            self.skip(self.held().len());
            self.fill(alloc, source, 1)?;
        }
        Ok(())
    }
}
