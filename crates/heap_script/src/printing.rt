//! Printing a script.
ghost use Rattle.std.specs.Prelude.{◌≡◌, IfOk, string_bytes};
ghost use Rattle.call_words.specs.Spacing.{Adds, fed_line};
ghost use Rattle.heap_script.specs.Scripts.{IsScript};
ghost use Rattle.heap_script.specs.Printed.{line_words, script_text, KeepsLimits};

use crate::laws::printed_scripts_are_read;
use crate::line::Line;
use crate::script::Script;
use call_words::{push_act, push_feed, push_options, push_thread};
use std::alloc::{AllocError, Global};

/// Adds a call line.
fn push_line(out: &mut String, line: &Line) -> Result<(), AllocError>
    ensures { Adds (string_bytes out.old) (string_bytes out.new) result (fed_line (line_words line.now)) }
{
    push_thread(out, line.thread)?;
    push_act(out, &line.act)?;
    push_feed(out)
}

/// The text of a script: a line for each option that isn't at its default, in the order of `Options`, and then its call
/// lines. What is printed is read as the same script by `parse`, where the script keeps the limits of scripts: options
/// in range, calls that scripts have words for, at most 65,536 lines, and at most 8,192 bytes in each. O(bytes).
#[tactic(auto, unfolding(crate::specs::Printed::script_text))]
pub fn print(alloc: Global, script: &Script) -> Result<String, AllocError>
    ensures text { IfOk result (λ text. string_bytes text ≡ script_text script.now) }
    ensures reads { IfOk result (λ text. KeepsLimits script.now → IsScript (string_bytes text) script.now) }
{
    printed_scripts_are_read();
    let mut out = String::new(alloc);
    push_options(&mut out, &script.options)?;
    let lines = script.lines.as_slice();
    for line in lines {
        push_line(&mut out, line)?;
    }
    Ok(out)
}
