//! Why arguments were not read.
ghost use Rattle.std.specs.Prelude.{◌≡◌};

use std::alloc::{AllocError, AllocFailed};

/// Why the arguments of a call were not read.
#[derive(Clone, Copy, Drop)]
pub enum ArgumentErr {
    /// An argument is missing, or hasn't its form or range.
    Wrong,
    /// Memory ran out.
    NoMemory,
}

impl From<AllocError> for ArgumentErr {
    ghost use Rattle.call_words.specs.declared.argument_err.ArgumentErr.{ArgumentErr};

    ghost from_gives = { λ _ e. e ≡ ArgumentErr.NoMemory };

    fn from(_e: AllocError) -> ArgumentErr {
        ArgumentErr::NoMemory
    }
}

impl<T: Drop> From<AllocFailed<T>> for ArgumentErr {
    ghost use Rattle.call_words.specs.declared.argument_err.ArgumentErr.{ArgumentErr};

    ghost from_gives = { λ _ e. e ≡ ArgumentErr.NoMemory };

    fn from(_e: AllocFailed<T>) -> ArgumentErr {
        ArgumentErr::NoMemory
    }
}
