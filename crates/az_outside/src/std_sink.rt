//! A writer of std as a sink.
ghost use Rattle.std.specs.Prelude.{◌≡◌, is_err};
ghost use Rattle.std.specs.Io.{WritesAtMost};
ghost use Rattle.std.specs.Io.KnownBytes.{Appends};
ghost use Rattle.std.proofs.KnownBytes.{Appends-nil, Appends-trans};
ghost use Rattle.az_outside.specs.Causes.{HasCause, count_after};
ghost use Rattle.az_outside.specs.Bytes.{TakesSome, WriteGrows};

use crate::sink::Sink;
use crate::source::Failed;
use crate::tries::{Stopped, WriteOnce, why_stopped, write_patiently};
use std::io::Write;
use std::marker::Model;

/// A writer of std, one write at a time. A write that takes nothing of a piece that isn't empty has failed.
#[derive(Drop)]
struct OneWrite<W: Write> {
    writer: W,
}

impl<W: Write> WriteOnce for OneWrite<W> {
    ghost contents = { λ w. W.contents w.writer };

    ghost tried = { λ old new result. Unit {0} };

    fn write_once(&mut self, piece: &[u8]) -> Result<usize, Stopped> {
        match self.writer.write(piece) {
            Ok(0) => {
                if piece.is_empty() {
                    Ok(0)
                } else {
                    Err(Stopped::Failed)
                }
            }
            Ok(count) => Ok(count),
            Err(error) => Err(why_stopped(error.kind())),
        }
    }
}

/// Writes to a writer of std, and counts the writes that fail, and those that take nothing of a piece that isn't
/// empty. An interrupted write is tried again at most 1,000 times in a row, and is then a fault. It tells the bytes
/// that the writer tells.
#[derive(Drop)]
pub struct StdSink<W: Write> {
    writes: OneWrite<W>,
    faults: u64,
}

impl<W: Write> Model for StdSink<W> {
    ghost use Rattle.az_outside.specs.Adapters.{Writing};

    ghost Value = { Writing };

    ghost view = { λ s. record { contents = W.contents s.writes.writer; faults = s.faults } };
}

impl<W: Write> StdSink<W> {
    /// A sink that gives its bytes to this writer.
    pub fn new(writer: W) -> StdSink<W>
        ensures contents { result.contents ≡ W.contents writer }
        ensures faults { result.faults ≡ 0 }
    {
        StdSink {
            writes: OneWrite { writer },
            faults: 0,
        }
    }
}

impl<W: Write> Sink for StdSink<W> {
    ghost grew = { λ a b bytes. Appends a.contents b.contents bytes };

    ghost faults = { λ s. s.faults };

    ghost wrote = { λ old new piece result. WriteGrows (Appends old.contents new.contents) result piece };

    fn write(&mut self, piece: &[u8]) -> Result<usize, Failed>
        ensures bound { WritesAtMost result piece.now }
        ensures some { TakesSome piece.now result }
        ensures bytes { WriteGrows (Appends self.old.contents self.new.contents) result piece.now }
        ensures cause { HasCause self.old.faults self.new.faults result }
        ensures wrote { WriteGrows (Appends self.old.contents self.new.contents) result piece.now }
        ensures counted { self.new.faults ≡ count_after self.old.faults (is_err result) }
    {
        let answer = write_patiently(&mut self.writes, piece);
        if answer.is_err() {
            self.faults = self.faults.saturating_add(1);
        }
        answer
    }

    ghost grew_nothing = { λ a. Appends-nil a.contents };

    ghost grew_twice = { λ a b c first second.
        Appends-trans a.contents b.contents c.contents first second };
}
