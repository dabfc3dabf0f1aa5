//! A reader of std as a source.
ghost use Rattle.std.specs.Prelude.{◌≡◌, is_err};
ghost use Rattle.std.specs.Io.{ReadsAtMost};
ghost use Rattle.std.specs.Io.KnownBytes.{ReadConsumes};
ghost use Rattle.az_outside.specs.Causes.{HasCause, count_after};

use crate::source::{Failed, Source};
use crate::tries::{ReadOnce, Stopped, read_patiently, why_stopped};
use std::io::Read;
use std::marker::Model;

/// A reader of std, one read at a time.
#[derive(Drop)]
struct OneRead<R: Read> {
    reader: R,
}

impl<R: Read> ReadOnce for OneRead<R> {
    ghost left = { λ r. R.remaining r.reader };

    ghost tried = { λ old new result. Unit {0} };

    fn read_once(&mut self, buf: &mut [u8]) -> Result<usize, Stopped> {
        match self.reader.read(buf) {
            Ok(count) => Ok(count),
            Err(error) => Err(why_stopped(error.kind())),
        }
    }
}

/// Reads from a reader of std, and counts the reads that fail. An interrupted read is tried again at most 1,000 times
/// in a row, and is then a fault. It tells the bytes that the reader tells.
#[derive(Drop)]
pub struct StdSource<R: Read> {
    reads: OneRead<R>,
    faults: u64,
}

impl<R: Read> Model for StdSource<R> {
    ghost use Rattle.az_outside.specs.Adapters.{Reading};

    ghost Value = { Reading };

    ghost view = { λ s. record { left = R.remaining s.reads.reader; faults = s.faults } };
}

impl<R: Read> StdSource<R> {
    /// A source of what this reader gives from here on.
    pub fn new(reader: R) -> StdSource<R>
        ensures left { result.left ≡ R.remaining reader }
        ensures faults { result.faults ≡ 0 }
    {
        StdSource {
            reads: OneRead { reader },
            faults: 0,
        }
    }
}

impl<R: Read> Source for StdSource<R> {
    ghost left = { λ s. s.left };

    ghost faults = { λ s. s.faults };

    fn read(&mut self, buf: &mut [u8]) -> Result<usize, Failed>
        ensures bound { ReadsAtMost result buf.new }
        ensures bytes { ReadConsumes self.old.left self.new.left result buf.new }
        ensures cause { HasCause self.old.faults self.new.faults result }
        ensures counted { self.new.faults ≡ count_after self.old.faults (is_err result) }
    {
        let answer = read_patiently(&mut self.reads, buf);
        if answer.is_err() {
            self.faults = self.faults.saturating_add(1);
        }
        answer
    }
}
