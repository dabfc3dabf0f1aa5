//! A sink in memory, some of whose writes fail.
ghost use Rattle.std.specs.Prelude.{◌≡◌, ◌++◌, IfOk, is_err};
ghost use Rattle.std.specs.Io.{WritesAtMost};
ghost use Rattle.std.proofs.Common.{sym, ap, ◌∙◌, append_assoc, append-nil};
ghost use Rattle.az_outside.specs.Bytes.{TakesSome, WriteGrows};
ghost use Rattle.az_outside.specs.Causes.{HasCause};
ghost use Rattle.az_outside.specs.CallCounts.{after_call};
ghost use Rattle.az_outside.specs.InMemory.{empty_faulty_store, taken_length, write_fails};

use crate::calls::Calls;
use crate::sink::Sink;
use crate::source::Failed;
use az_base::NoMemory;
use std::alloc::Global;
use std::marker::Model;

/// Holds the bytes that it was given, some at a time and at most as many as its room; some writes fail, and count as
/// faults. A write takes O(number of the writes that are to fail), beside the copy.
#[derive(Drop)]
pub struct MemorySink {
    bytes: Vec<u8>,
    piece: usize,
    room: usize,
    calls: Calls,
}

impl Model for MemorySink {
    ghost use Rattle.std.specs.Prelude.{◌≤◌, vec_len, vec_capacity};
    ghost use Rattle.az_outside.specs.InMemory.{FaultyStore};

    ghost Value = { FaultyStore };

    ghost view = { λ s. record { bytes = s.bytes.items; piece = s.piece; room = s.room; calls = s.calls } };

    ghost invariant = { λ s. (vec_len s.bytes ≤ s.room) × (s.room ≤ vec_capacity s.bytes) × (1 ≤ s.piece) };
}

impl MemorySink {
    /// A sink that takes at most `piece` bytes per write, and at least one. The writes whose number from 1 is in
    /// `fails` fail, and so does one whose bytes to be taken would go past `room` bytes, which are allocated here.
    pub fn new(
        alloc: Global,
        piece: usize,
        fails: Vec<u64>,
        room: usize,
    ) -> Result<MemorySink, NoMemory>
        ensures { IfOk result (λ s. s ≡ empty_faulty_store piece fails.items room) }
    {
        let Ok(bytes) = Vec::with_capacity(alloc, room) else {
            return Err(NoMemory);
        };
        Ok(MemorySink {
            bytes,
            piece: piece.max(1),
            room,
            calls: Calls::new(fails),
        })
    }

    /// What it holds.
    pub fn bytes(&self) -> &[u8]
        ensures { result.now ≡ self.now.bytes }
    {
        &self.bytes
    }
}

impl Sink for MemorySink {
    ghost grew = { λ a b bytes. b.bytes ≡ a.bytes ++ bytes };

    ghost faults = { λ s. s.calls.faults };

    ghost wrote = { λ old new piece result. is_err result ≡ write_fails old piece };

    fn write(&mut self, piece: &[u8]) -> Result<usize, Failed>
        ensures bound { WritesAtMost result piece.now }
        ensures some { TakesSome piece.now result }
        ensures bytes { WriteGrows (λ bytes. self.new.bytes ≡ self.old.bytes ++ bytes) result piece.now }
        ensures cause { HasCause self.old.calls.faults self.new.calls.faults result }
        ensures wrote { is_err result ≡ write_fails self.old piece.now }
        ensures calls { self.new.calls ≡ after_call self.old.calls (is_err result) }
        ensures count { IfOk result (λ n. n ≡ taken_length self.old piece.now) }
        ensures same { (self.new.piece ≡ self.old.piece) × (self.new.room ≡ self.old.room) }
    {
        let count = self.piece.min(piece.len());
        let full = self.room - self.bytes.len() < count;
        if self.calls.next_fails(full) {
            return Err(Failed);
        }
        let _within_capacity = self.bytes.extend_from_slice(&piece[..count]);
        Ok(count)
    }

    ghost grew_nothing = { λ a. sym (append-nil a.bytes) };

    ghost grew_twice = { λ a b c first second p q.
        q ∙ ap (λ bytes. bytes ++ second) p ∙ append_assoc a.bytes first second };
}
