//! What the program says on its error output.
ghost use Rattle.std.specs.Prelude.{◌≡◌, IfOk, string_bytes};
ghost use Rattle.zone_commands.specs.Answers.{Says, cause_text, refusal_text};

use az_outside::{Sink, write_all};
use heap_script::Cause;
use std::alloc::{AllocError, Global};

/// Writes a text. That the sink fails changes nothing else.
pub fn say<E: Sink>(err: &mut E, text: &str)
    ensures { Says (E.faults err.old) (E.faults err.new) (E.grew err.old err.new) text.now }
{
    let _ = write_all(err, text.as_bytes());
}

fn cause_name(cause: Cause) -> &'static str
    ensures { result.now ≡ cause_text cause }
{
    match cause {
        Cause::NotText => "NotText",
        Cause::LineTooLong => "LineTooLong",
        Cause::TooManyLines => "TooManyLines",
        Cause::NoThread => "NoThread",
        Cause::NoCall => "NoCall",
        Cause::WrongArgument => "WrongArgument",
        Cause::TooManyArguments => "TooManyArguments",
    }
}

/// What is said of a script that is refused.
#[tactic(auto, unfolding(crate::specs::Answers::refusal_text))]
pub fn refusal(alloc: Global, cause: Cause, line: u32) -> Result<String, AllocError>
    ensures { IfOk result (λ text. string_bytes text ≡ refusal_text cause line) }
{
    let name = cause_name(cause);
    let mut text = String::new(alloc);
    write!(text, "autozone: line {line}: {name}\n")?;
    Ok(text)
}
