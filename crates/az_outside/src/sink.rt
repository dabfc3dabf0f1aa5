//! Where bytes go.
ghost use Rattle.std.specs.Prelude.{ℕ, List, [], ◌++◌, Result};
ghost use Rattle.std.specs.Io.{WritesAtMost};
ghost use Rattle.az_outside.specs.declared.source.Failed.{Failed};
ghost use Rattle.az_outside.specs.Causes.{HasCause};
ghost use Rattle.az_outside.specs.Bytes.{TakesSome, WriteGrows};

use crate::source::Failed;

/// Where bytes go, in writes that may fail.
pub trait Sink {
    // From the first state to the second these bytes were appended, as far as the sink tells.
    ghost grew: { Self → Self → List ℕ → Type 0 };

    // How many writes failed, at most 2^64 - 1.
    ghost faults: { Self → ℕ };

    // One write of this piece led from the first state to the second, and gave this.
    ghost wrote: { Self → Self → List ℕ → Result ℕ Failed → Type 0 };

    /// Appends a front of the piece, and says how long it is: at least one byte of a piece that isn't empty. Failed
    /// only where the count of faults rose, and then nothing was appended.
    fn write(&mut self, piece: &[u8]) -> Result<usize, Failed>
        ensures bound { WritesAtMost result piece.now }
        ensures some { TakesSome piece.now result }
        ensures bytes { WriteGrows (grew self.old self.new) result piece.now }
        ensures cause { HasCause (faults self.old) (faults self.new) result }
        ensures wrote { wrote self.old self.new piece.now result };

    ghost grew_nothing: { (a : Self) → grew a a [] };

    ghost grew_twice: { (a b c : Self) (first second : List ℕ) →
        grew a b first → grew b c second → grew a c (first ++ second) };
}
