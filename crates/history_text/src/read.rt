//! Reading a line.
ghost use Rattle.std.specs.Prelude.{◌≡◌};
ghost use Rattle.history_text.specs.Lines.{Says};

use crate::lines::{HistoryLine, push_line};
use crate::reading::line;
use az_words::{Words, is_word, numbers_are_read};
use call_words::{ArgumentErr, arguments_are_read};
use std::alloc::Global;

/// The line that the bytes are, which come without their line feed; Wrong exactly where they are none. What was read is
/// written to `scratch`, whose content is lost, and compared. O(bytes).
pub fn read_line(
    alloc: Global,
    scratch: &mut String,
    bytes: &[u8],
) -> Result<HistoryLine, ArgumentErr>
    ensures { Says bytes.now result }
{
    numbers_are_read();
    arguments_are_read();
    let mut words = Words::new(bytes);
    let line = line(alloc, &mut words)?;
    scratch.clear();
    push_line(scratch, &line)?;
    if is_word(bytes, scratch.as_bytes()) {
        Ok(line)
    } else {
        Err(ArgumentErr::Wrong)
    }
}
