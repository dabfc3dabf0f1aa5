//! Why a count stays as it is.
use az_base::NoMemory;
use thiserror::Error;

/// Why a count was not raised.
#[derive(Clone, Copy, Debug, PartialEq, Eq, Error)]
pub enum Raise {
    /// The count is at the limit, or above it.
    #[error("CountFull")]
    CountFull,
    /// The block has no count yet, and there is no room for it.
    #[error("NoMemory")]
    NoMemory,
}

impl From<NoMemory> for Raise {
    ghost use Rattle.std.specs.Prelude.{◌≡◌};
    ghost use Rattle.retain_table.specs.declared.refused.Raise.TheVariants as raise;

    ghost from_gives = { λ _ error. error ≡ raise.NoMemory };

    fn from(_error: NoMemory) -> Raise {
        Raise::NoMemory
    }
}

/// A count of 0 was to be lowered.
#[derive(Clone, Copy, Debug, PartialEq, Eq, Error)]
#[error("OverRelease")]
pub struct OverRelease;
