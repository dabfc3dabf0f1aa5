//! A source in memory that never fails.
ghost use Rattle.std.specs.Prelude.{◌≡◌, ◌≤◌, ◌+◌, ◌-◌, ◌++◌, Some, IsOk, IfOk, length, take, drop, min};
ghost use Rattle.std.specs.Io.{ReadsAtMost};
ghost use Rattle.std.specs.Io.KnownBytes.{ReadConsumes};
ghost use Rattle.az_outside.specs.Causes.{HasCause};
ghost use Rattle.az_outside.specs.InMemory.{sure_feed, part_length};

use crate::source::{Failed, Source};
use std::marker::Model;

/// Gives the bytes that it was made with, some at a time, and never fails.
#[derive(Drop)]
pub struct SureSource {
    bytes: Vec<u8>,
    at: usize,
    piece: usize,
}

impl Model for SureSource {
    ghost use Rattle.std.specs.Prelude.{◌≤◌, drop, vec_len};
    ghost use Rattle.az_outside.specs.InMemory.{SureFeed};

    ghost Value = { SureFeed };

    ghost view = { λ s. record { left = drop s.at s.bytes.items; piece = s.piece } };

    ghost invariant = { λ s. (s.at ≤ vec_len s.bytes) × (1 ≤ s.piece) };
}

impl SureSource {
    /// A source that gives these bytes, at most `piece` of them per read, and at least one.
    pub fn new(bytes: Vec<u8>, piece: usize) -> SureSource
        ensures { result ≡ sure_feed bytes.items piece }
    {
        SureSource {
            bytes,
            at: 0,
            piece: piece.max(1),
        }
    }
}

/// Copies the part of `bytes` from `at` on to the front of the buffer, at most `piece` bytes of it, and says how many.
fn copy_part(bytes: &[u8], at: usize, piece: usize, buf: &mut [u8]) -> usize
    requires { at ≤ length bytes.now }
    ensures count { result ≡ min (min piece (length buf.new)) (length bytes.now - at) }
    ensures front { result ≡ length (take result buf.new) }
    ensures copied { drop at bytes.now ≡ take result buf.new ++ drop (at + result) bytes.now }
{
    let count = piece.min(buf.len()).min(bytes.len() - at);
    let end = at + count;
    buf[..count].copy_from_slice(&bytes[at..end]);
    count
}

impl Source for SureSource {
    ghost left = { λ s. Some s.left };

    ghost faults = { λ _. 0 };

    fn read(&mut self, buf: &mut [u8]) -> Result<usize, Failed>
        ensures bound { ReadsAtMost result buf.new }
        ensures bytes { ReadConsumes (Some self.old.left) (Some self.new.left) result buf.new }
        ensures cause { HasCause 0 0 result }
        ensures sure { IsOk result }
        ensures count { IfOk result (λ n. n ≡ part_length self.old.piece buf.new self.old.left) }
        ensures piece { self.new.piece ≡ self.old.piece }
    {
        let count = copy_part(&self.bytes, self.at, self.piece, buf);
        self.at += count;
        Ok(count)
    }
}
