//! Why bytes are no script.
ghost use Rattle.std.specs.Prelude.{◌≡◌};
ghost use Rattle.heap_script.specs.Causes.{err_at};
ghost use Rattle.heap_script.specs.declared.cause.ScriptErr.TheVariants.{NoMemory};

use call_words::ArgumentErr;
use std::alloc::{AllocError, AllocFailed};
use std::fmt;
use thiserror::Error;

/// What is wrong with a line: the first of these that stands.
#[derive(Clone, Copy, Debug, PartialEq, Eq)]
pub enum Cause {
    /// The line isn't UTF-8.
    NotText,
    /// The line has more than 8,192 bytes, its line feed not counted.
    LineTooLong,
    /// The line's number is 65,537.
    TooManyLines,
    /// The first word is no numeral 1 to 16, and doesn't begin an option line.
    NoThread,
    /// The second word is missing, or names no call; in an option line, no option.
    NoCall,
    /// An argument is missing, or hasn't its form or range.
    WrongArgument,
    /// All arguments are right, and a further word follows.
    TooManyArguments,
}

/// The cause's name, as messages have it.
impl fmt::Display for Cause {
    ghost use Rattle.std.specs.Prelude.{Some};
    ghost use Rattle.heap_script.specs.Causes.{cause_text};

    ghost output = { λ cause. Some (cause_text cause) };

    fn fmt<W: fmt::Write>(&self, f: &mut fmt::Formatter<W>) -> fmt::Result {
        match self {
            Cause::NotText => write!(f, "NotText"),
            Cause::LineTooLong => write!(f, "LineTooLong"),
            Cause::TooManyLines => write!(f, "TooManyLines"),
            Cause::NoThread => write!(f, "NoThread"),
            Cause::NoCall => write!(f, "NoCall"),
            Cause::WrongArgument => write!(f, "WrongArgument"),
            Cause::TooManyArguments => write!(f, "TooManyArguments"),
        }
    }
}

/// Why a line was not read.
#[derive(Clone, Copy)]
pub enum LineErr {
    Cause(Cause),
    NoMemory,
}

impl LineErr {
    /// Why the script was not read whose line has this number.
    pub fn at_line(self, line: u32) -> ScriptErr
        ensures { result ≡ err_at line self }
    {
        match self {
            LineErr::Cause(cause) => ScriptErr::Refused { cause, line },
            LineErr::NoMemory => ScriptErr::NoMemory,
        }
    }
}

impl From<Cause> for LineErr {
    ghost use Rattle.heap_script.specs.declared.cause.LineErr.{LineErr};

    ghost from_gives = { λ cause e. e ≡ LineErr.Cause cause };

    fn from(cause: Cause) -> LineErr {
        LineErr::Cause(cause)
    }
}

impl From<ArgumentErr> for LineErr {
    ghost use Rattle.heap_script.specs.Causes.{line_err};

    ghost from_gives = { λ err e. e ≡ line_err err };

    fn from(err: ArgumentErr) -> LineErr {
        match err {
            ArgumentErr::Wrong => LineErr::Cause(Cause::WrongArgument),
            ArgumentErr::NoMemory => LineErr::NoMemory,
        }
    }
}

/// Why a script was not read.
#[derive(Clone, Copy, Debug, PartialEq, Eq, Error)]
pub enum ScriptErr {
    /// The first line that has a cause, counted from 1, and its first cause.
    #[error("line {line}: {cause}")]
    Refused { cause: Cause, line: u32 },
    #[error("NoMemory")]
    NoMemory,
}

impl From<AllocError> for ScriptErr {
    ghost from_gives = { λ _ e. e ≡ NoMemory };

    fn from(_e: AllocError) -> ScriptErr {
        ScriptErr::NoMemory
    }
}

impl<T: Drop> From<AllocFailed<T>> for ScriptErr {
    ghost from_gives = { λ _ e. e ≡ NoMemory };

    fn from(_e: AllocFailed<T>) -> ScriptErr {
        ScriptErr::NoMemory
    }
}
