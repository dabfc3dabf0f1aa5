//! Why a call was not made.
ghost use Rattle.std.specs.Prelude.{◌≡◌};
ghost use Rattle.local_set.specs.declared.errors.LocalErr.TheVariants as err;

use az_base::NoMemory;
use thiserror::Error;

/// Why a call was not made, and nothing has changed. The first that stands is answered.
#[derive(Clone, Copy, Debug, PartialEq, Eq, Error)]
pub enum LocalErr {
    /// The call needs more than what the thread has for itself.
    #[error("NotLocal")]
    NotLocal,
    /// As many entries wait as the option pending says.
    #[error("PendingFull")]
    PendingFull,
    #[error("NoMemory")]
    NoMemory,
}

impl From<NoMemory> for LocalErr {
    ghost from_gives = { λ _ e. e ≡ err.NoMemory };

    fn from(_error: NoMemory) -> LocalErr {
        LocalErr::NoMemory
    }
}
