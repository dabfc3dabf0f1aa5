//! A sink in memory that never fails.
ghost use Rattle.std.specs.Prelude.{◌≡◌, IsOk, IfOk, length};
ghost use Rattle.std.specs.Io.{WritesAtMost};
ghost use Rattle.az_outside.specs.Growing.{GrewWithinRoom, grew_by_nothing, grew_by_both};
ghost use Rattle.az_outside.specs.Bytes.{TakesSome, WriteGrows};
ghost use Rattle.az_outside.specs.Causes.{HasCause};
ghost use Rattle.az_outside.specs.InMemory.{empty_sure_store, store_after};

use crate::sink::Sink;
use crate::source::Failed;
use az_base::NoMemory;
use std::alloc::Global;
use std::marker::Model;

/// Holds the bytes that it was given, and never fails. A write that goes past its room is taken too, and from then on
/// it doesn't tell its bytes.
#[derive(Drop)]
pub struct SureSink {
    bytes: Vec<u8>,
    room: usize,
    over: bool,
}

impl Model for SureSink {
    ghost use Rattle.std.specs.Prelude.{◌≤◌, vec_len, vec_capacity};
    ghost use Rattle.az_outside.specs.InMemory.{SureStore};

    ghost Value = { SureStore };

    ghost view = { λ s. record { bytes = s.bytes.items; room = s.room; over = s.over } };

    ghost invariant = { λ s. (vec_len s.bytes ≤ s.room) × (s.room ≤ vec_capacity s.bytes) };
}

impl SureSink {
    /// An empty sink with room for so many bytes, which are allocated here.
    pub fn new(alloc: Global, room: usize) -> Result<SureSink, NoMemory>
        ensures { IfOk result (λ s. s ≡ empty_sure_store room) }
    {
        let Ok(bytes) = Vec::with_capacity(alloc, room) else {
            return Err(NoMemory);
        };
        Ok(SureSink {
            bytes,
            room,
            over: false,
        })
    }

    /// What it was given before the first write past its room.
    pub fn bytes(&self) -> &[u8]
        ensures { result.now ≡ self.now.bytes }
    {
        &self.bytes
    }
}

impl Sink for SureSink {
    ghost grew = { GrewWithinRoom };

    ghost faults = { λ _. 0 };

    ghost wrote = { λ old new piece result. new ≡ store_after old piece };

    fn write(&mut self, piece: &[u8]) -> Result<usize, Failed>
        ensures bound { WritesAtMost result piece.now }
        ensures some { TakesSome piece.now result }
        ensures bytes { WriteGrows (GrewWithinRoom self.old self.new) result piece.now }
        ensures cause { HasCause 0 0 result }
        ensures wrote { self.new ≡ store_after self.old piece.now }
        ensures sure { IsOk result }
        ensures whole { IfOk result (λ n. n ≡ length piece.now) }
    {
        if self.over || self.room - self.bytes.len() < piece.len() {
            self.over = true;
            return Ok(piece.len());
        }
        let _within_capacity = self.bytes.extend_from_slice(piece);
        Ok(piece.len())
    }

    ghost grew_nothing = { grew_by_nothing };

    ghost grew_twice = { grew_by_both };
}
