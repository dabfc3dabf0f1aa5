//! Reading a script, line by line.
ghost use Rattle.std.specs.Prelude.{◌≡◌, IfOk};
ghost use Rattle.az_base.specs.OptionRanges.{IsValid};
ghost use Rattle.heap_script.specs.Scripts.{is_called, Parses, AllThreads, AllNamed, AllSpelled};
ghost use Rattle.heap_script.specs.Reading.Scripts.{IsRead};

use crate::cause::ScriptErr;
use crate::entries::{Entry, read_entry};
use crate::laws::{scripts_are_read, scripts_are_refused, scripts_can_be_played};
use crate::line::{Line, LineList};
use crate::script::Script;
use az_base::Options;
use az_words::{is_text, next_line};
use std::alloc::Global;

/// A call line came.
fn is_called(lines: &[Line]) -> bool
    ensures { result ≡ is_called lines.now }
{
    !lines.is_empty()
}

/// The script that the bytes are. Refused exactly where they are none, with the first line that has a cause and the
/// first cause of that line. A last line needs no line feed. O(bytes): that the whole is text is tried once, and line by
/// line only where it isn't.
pub fn parse(alloc: Global, bytes: &[u8]) -> Result<Script, ScriptErr>
    ensures gives { Parses bytes.now result }
    ensures reads { IsRead bytes.now result }
    ensures options { IfOk result (λ script. IsValid script.options) }
    ensures threads { IfOk result (λ script. AllThreads script.lines) }
    ensures named { IfOk result (λ script. AllNamed script.lines) }
    ensures spelled { IfOk result (λ script. AllSpelled script.lines) }
{
    scripts_are_read();
    scripts_are_refused();
    scripts_can_be_played();
    let all_text = is_text(bytes);
    let mut options = Options::usual();
    let mut lines = Vec::new(alloc);
    let mut number = 0u32;
    let mut rest = bytes;
    'lines: while let Some((line, after)) = next_line(rest) {
        number += 1;
        match read_entry(alloc, number, is_called(&lines), all_text, line) {
            Ok(Entry::Nothing) => {}
            Ok(Entry::Set(setting)) => options = setting.onto(options),
            Ok(Entry::Call(line)) => lines.push(line)?,
            Err(err) => return Err(err.at_line(number)),
        }
        rest = after;
    }
    Ok(Script {
        options,
        lines: LineList::from_vec(lines),
    })
}
