//! How the program ends, and why a command stopped.
ghost use Rattle.std.specs.Prelude.{◌≡◌};
ghost use Rattle.zone_commands.specs.Statuses.{status_number, stop_of_read, stop_of_parse};
ghost use Rattle.zone_commands.specs.declared.status.Stop.TheVariants.{NoMemory};

use az_outside::ReadAll;
use heap_script::{Cause, ScriptErr};
use std::alloc::AllocError;

/// How a call of the program ends.
#[derive(Clone, Copy, PartialEq, Eq)]
pub enum Status {
    /// The whole text was written.
    Done,
    /// The bytes are no script.
    ScriptRefused,
    /// The words are no command.
    Usage,
    ReadFault,
    WriteFault,
    NoMemory,
    /// The source gave more than 4,194,304 bytes.
    TooLong,
}

impl Status {
    /// The exit status of the program, 0 to 6.
    pub fn number(self) -> u8
        ensures { result ≡ status_number self }
    {
        match self {
            Status::Done => 0,
            Status::ScriptRefused => 1,
            Status::Usage => 2,
            Status::ReadFault => 3,
            Status::WriteFault => 4,
            Status::NoMemory => 5,
            Status::TooLong => 6,
        }
    }
}

/// Why a command stopped before all was written.
#[derive(Clone, Copy)]
pub enum Stop {
    Refused { cause: Cause, line: u32 },
    ReadFault,
    WriteFault,
    NoMemory,
    TooLong,
}

impl From<AllocError> for Stop {
    ghost from_gives = { λ _ e. e ≡ NoMemory };

    fn from(_error: AllocError) -> Stop {
        Stop::NoMemory
    }
}

impl From<az_base::NoMemory> for Stop {
    ghost from_gives = { λ _ e. e ≡ NoMemory };

    fn from(_error: az_base::NoMemory) -> Stop {
        Stop::NoMemory
    }
}

impl From<ReadAll> for Stop {
    ghost from_gives = { λ r e. e ≡ stop_of_read r };

    fn from(error: ReadAll) -> Stop {
        match error {
            ReadAll::Fault => Stop::ReadFault,
            ReadAll::TooLong => Stop::TooLong,
            ReadAll::NoMemory => Stop::NoMemory,
        }
    }
}

impl From<ScriptErr> for Stop {
    ghost from_gives = { λ r e. e ≡ stop_of_parse r };

    fn from(error: ScriptErr) -> Stop {
        match error {
            ScriptErr::Refused { cause, line } => Stop::Refused { cause, line },
            ScriptErr::NoMemory => Stop::NoMemory,
        }
    }
}
