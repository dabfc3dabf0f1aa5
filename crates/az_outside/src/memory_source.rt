//! A source in memory, some of whose reads fail.
ghost use Rattle.std.specs.Prelude.{◌≡◌, Some, IfOk, is_err};
ghost use Rattle.std.specs.Io.{ReadsAtMost};
ghost use Rattle.std.specs.Io.KnownBytes.{ReadConsumes};
ghost use Rattle.az_outside.specs.Causes.{HasCause};
ghost use Rattle.az_outside.specs.CallCounts.{next_fails, after_call};
ghost use Rattle.az_outside.specs.InMemory.{faulty_feed, part_length};

use crate::calls::Calls;
use crate::source::{Failed, Source};
use crate::sure_source::SureSource;
use std::marker::Model;

/// Gives the bytes that it was made with, some at a time; some reads fail, and count as faults. A read takes
/// O(number of the reads that are to fail), beside the copy.
#[derive(Drop)]
pub struct MemorySource {
    source: SureSource,
    calls: Calls,
}

impl Model for MemorySource {
    ghost use Rattle.az_outside.specs.InMemory.{FaultyFeed};

    ghost Value = { FaultyFeed };

    ghost view = { λ s. record { left = s.source.left; piece = s.source.piece; calls = s.calls } };
}

impl MemorySource {
    /// A source that gives these bytes, at most `piece` of them per read, and at least one. The reads whose number
    /// from 1 is in `fails` fail.
    pub fn new(bytes: Vec<u8>, piece: usize, fails: Vec<u64>) -> MemorySource
        ensures { result ≡ faulty_feed bytes.items piece fails.items }
    {
        MemorySource {
            source: SureSource::new(bytes, piece),
            calls: Calls::new(fails),
        }
    }
}

impl Source for MemorySource {
    ghost left = { λ s. Some s.left };

    ghost faults = { λ s. s.calls.faults };

    fn read(&mut self, buf: &mut [u8]) -> Result<usize, Failed>
        ensures bound { ReadsAtMost result buf.new }
        ensures bytes { ReadConsumes (Some self.old.left) (Some self.new.left) result buf.new }
        ensures cause { HasCause self.old.calls.faults self.new.calls.faults result }
        ensures fails { is_err result ≡ next_fails self.old.calls }
        ensures calls { self.new.calls ≡ after_call self.old.calls (is_err result) }
        ensures count { IfOk result (λ n. n ≡ part_length self.old.piece buf.new self.old.left) }
        ensures piece { self.new.piece ≡ self.old.piece }
    {
        if self.calls.next_fails(false) {
            return Err(Failed);
        }
        self.source.read(buf)
    }
}
