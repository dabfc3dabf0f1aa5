//! Calls of a reader or a writer, tried again while they are interrupted.
ghost use Rattle.std.specs.Prelude.{◌≡◌, ◌↔◌, ℕ, List, Result};
ghost use Rattle.std.specs.Io.{ReadsAtMost, WritesAtMost};
ghost use Rattle.std.specs.Io.KnownBytes.{ReadConsumes, Appends};
ghost use Rattle.std.specs.declared.option.Option.{Option};
ghost use Rattle.az_outside.specs.declared.tries.Stopped.{Stopped};
ghost use Rattle.az_outside.specs.Bytes.{TakesSome, WriteGrows};
ghost use Rattle.az_outside.specs.Patience.{IsPatient};

use crate::source::Failed;
use std::io::ErrorKind;

/// The tries of one call: the first, and at most 1,000 more in a row while it is interrupted.
const TRIES: u32 = 1001;

/// Why one try gave nothing.
#[derive(Clone, Copy)]
pub enum Stopped {
    Interrupted,
    Failed,
}

/// What an error of this kind says of a try.
pub fn why_stopped(kind: ErrorKind) -> Stopped
    ensures { (result ≡ Stopped.Interrupted) ↔ (kind ≡ ErrorKind.Interrupted) }
{
    if kind == ErrorKind::Interrupted {
        Stopped::Interrupted
    } else {
        Stopped::Failed
    }
}

/// Where bytes come from, in reads that may be interrupted.
pub trait ReadOnce {
    // The bytes that are left, where they are told.
    ghost left: { Self → Option (List ℕ) };

    // One try led from the first state to the second, and gave this.
    ghost tried: { Self → Self → Result ℕ Stopped → Type 0 };

    fn read_once(&mut self, buf: &mut [u8]) -> Result<usize, Stopped>
        ensures bound { ReadsAtMost result buf.new }
        ensures bytes { ReadConsumes (left self.old) (left self.new) result buf.new }
        ensures tried { tried self.old self.new result };
}

/// Where bytes go, in writes that may be interrupted.
pub trait WriteOnce {
    // The bytes that are held, where they are told.
    ghost contents: { Self → Option (List ℕ) };

    // One try led from the first state to the second, and gave this.
    ghost tried: { Self → Self → Result ℕ Stopped → Type 0 };

    fn write_once(&mut self, piece: &[u8]) -> Result<usize, Stopped>
        ensures bound { WritesAtMost result piece.now }
        ensures some { TakesSome piece.now result }
        ensures bytes { WriteGrows (Appends (contents self.old) (contents self.new)) result piece.now }
        ensures tried { tried self.old self.new result };
}

/// A read, tried again while it is interrupted.
pub fn read_patiently<R: ReadOnce>(reader: &mut R, buf: &mut [u8]) -> Result<usize, Failed>
    ensures bound { ReadsAtMost result buf.new }
    ensures bytes { ReadConsumes (R.left reader.old) (R.left reader.new) result buf.new }
    ensures patient { IsPatient R.tried reader.old reader.new result }
{
    'tries: for times in 0..TRIES {
        match reader.read_once(buf) {
            Ok(count) => return Ok(count),
            Err(Stopped::Interrupted) => {}
            Err(Stopped::Failed) => return Err(Failed),
        }
    }
    Err(Failed)
}

/// A write, tried again while it is interrupted.
pub fn write_patiently<W: WriteOnce>(writer: &mut W, piece: &[u8]) -> Result<usize, Failed>
    ensures bound { WritesAtMost result piece.now }
    ensures some { TakesSome piece.now result }
    ensures bytes { WriteGrows (Appends (W.contents writer.old) (W.contents writer.new)) result piece.now }
    ensures patient { IsPatient W.tried writer.old writer.new result }
{
    'tries: for times in 0..TRIES {
        match writer.write_once(piece) {
            Ok(count) => return Ok(count),
            Err(Stopped::Interrupted) => {}
            Err(Stopped::Failed) => return Err(Failed),
        }
    }
    Err(Failed)
}
