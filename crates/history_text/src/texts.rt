//! Reading the text of a history.
ghost use Rattle.std.specs.Prelude.{◌≡◌, []};
ghost use Rattle.history_text.specs.Drafts.{IsDraft, lines_so_far};
ghost use Rattle.history_text.specs.Answers.{ReadsText, ReadsLines};

use crate::draft::Draft;
use crate::laws::lines_have_one_reading;
use az_base::Options;
use az_words::cut_at;
use call_words::ArgumentErr;
use std::alloc::Global;
use thiserror::Error;
use zone_history::Journal;
use zone_model::Stats;

/// What a text says.
#[derive(Drop)]
pub struct HistoryText {
    pub options: Options,
    /// The entries. Nothing of the room is owed.
    pub journal: Journal,
    /// What the last line says of the end.
    pub stats: Stats,
}

/// Why bytes were not read as the text of a history.
#[derive(Clone, Copy, Debug, Drop, Error)]
pub enum TextErr {
    /// They are none; this is the number, from 1, of the first line that can't stand.
    #[error("line {0} can't stand in a history")]
    Line(u64),
    #[error("no memory")]
    NoMemory,
}

fn read_lines(
    alloc: Global,
    scratch: &mut String,
    draft: &mut Draft,
    bytes: &[u8],
) -> Result<Stats, TextErr>
    requires draft { IsDraft draft.old }
    requires nothing { lines_so_far draft.old ≡ [] }
    ensures { ReadsLines bytes.now draft.new result }
{
    lines_have_one_reading();
    let mut number = 1u64;
    let mut rest = bytes;
    'lines: while let Some((line, after)) = cut_at(rest, b'\n') {
        match draft.take_line(alloc, scratch, line) {
            Ok(None) => {}
            Ok(Some(stats)) => {
                return if after.is_empty() {
                    Ok(stats)
                } else {
                    Err(TextErr::Line(number + 1))
                };
            }
            Err(ArgumentErr::Wrong) => return Err(TextErr::Line(number)),
            Err(ArgumentErr::NoMemory) => return Err(TextErr::NoMemory),
        }
        number += 1;
        rest = after;
    }
    Err(TextErr::Line(number))
}

/// The history that the bytes say: its options, its entries in a journal, and its statistics. `Line(n)` exactly where
/// they are no text of a history: n is the number, from 1, of the first line such that no text begins with the lines up
/// to it, each with its line feed. What stands after the last line feed can never stand, and where only the last line is
/// missing, n is the number of lines and one more. O(bytes).
pub fn read_text(alloc: Global, bytes: &[u8]) -> Result<HistoryText, TextErr>
    ensures { ReadsText bytes.now result }
{
    let mut scratch = String::new(alloc);
    let mut draft = Draft::new(alloc);
    let stats = read_lines(alloc, &mut scratch, &mut draft, bytes)?;
    Ok(HistoryText {
        options: draft.options,
        journal: draft.journal,
        stats,
    })
}
