//! Where bytes come from.
ghost use Rattle.std.specs.Prelude.{ℕ, List};
ghost use Rattle.std.specs.Io.{ReadsAtMost};
ghost use Rattle.std.specs.Io.KnownBytes.{ReadConsumes};
ghost use Rattle.std.specs.declared.option.Option.{Option};
ghost use Rattle.az_outside.specs.Causes.{HasCause};

use thiserror::Error;

/// A read or a write failed, and took or gave nothing.
#[derive(Clone, Copy, Debug, PartialEq, Eq, Error)]
#[error("the call failed")]
pub struct Failed;

/// Where bytes come from, in reads that may fail.
pub trait Source {
    // The bytes that are left, where the source tells them.
    ghost left: { Self → Option (List ℕ) };

    // How many reads failed, at most 2^64 - 1.
    ghost faults: { Self → ℕ };

    /// Takes the next bytes from the source into the front of the buffer, and says how many. At a buffer that isn't
    /// empty, 0 means the end. Failed only where the count of faults rose, and then nothing was taken.
    fn read(&mut self, buf: &mut [u8]) -> Result<usize, Failed>
        ensures bound { ReadsAtMost result buf.new }
        ensures bytes { ReadConsumes (left self.old) (left self.new) result buf.new }
        ensures cause { HasCause (faults self.old) (faults self.new) result };
}
