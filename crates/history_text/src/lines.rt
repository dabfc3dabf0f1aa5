//! The lines of a history.
ghost use Rattle.std.specs.Prelude.{◌≡◌, OnOk, string_bytes};
ghost use Rattle.call_words.specs.Spacing.{Adds, spaced};
ghost use Rattle.call_words.specs.Ranges.{IsNumber};
ghost use Rattle.history_text.specs.Words.{entry_words, end_words};
ghost use Rattle.history_text.specs.Ranges.{IsEntry, AreStats};
ghost use Rattle.history_text.specs.Lines.{HasNumbers, setting_words, line_text};

use crate::replies::{push_answer, push_stats};
use call_words::{OptionName, push_call, push_named, push_option, push_thread, push_word};
use std::alloc::AllocError;
use zone_model::{Entry, Stats};

/// An option with a number.
#[derive(Clone, Copy)]
pub struct Setting {
    pub name: OptionName,
    pub number: u64,
}

/// What a line of a history says.
#[derive(Drop)]
pub enum HistoryLine {
    /// An option that isn't at its default.
    Setting(Setting),
    Entry(Entry),
    /// The last line: how many entries there are, and the statistics of their end.
    End(u64, Stats),
}

/// Adds the line of an option, without its line feed.
#[tactic(auto, unfolding(crate::specs::Lines::setting_words))]
pub fn push_setting(out: &mut String, setting: Setting) -> Result<(), AllocError>
    ensures { Adds (string_bytes out.old) (string_bytes out.new) result (spaced (setting_words setting)) }
{
    push_option(out, setting.name, setting.number)
}

/// Adds the line of an entry, without its line feed. O(bytes added).
#[tactic(auto, unfolding(crate::specs::Words::entry_words))]
pub fn push_entry(out: &mut String, entry: &Entry) -> Result<(), AllocError>
    ensures adds { Adds (string_bytes out.old) (string_bytes out.new) result (spaced (entry_words entry.now)) }
    ensures range { OnOk result (IsEntry entry.now) }
{
    push_thread(out, entry.thread)?;
    push_call(out, &entry.call)?;
    push_answer(out, &entry.reply)
}

/// Adds the last line, without its line feed.
#[tactic(auto, unfolding(crate::specs::Words::end_words))]
pub fn push_end(out: &mut String, count: u64, stats: &Stats) -> Result<(), AllocError>
    ensures adds { Adds (string_bytes out.old) (string_bytes out.new) result (spaced (end_words count stats.now)) }
    ensures range { OnOk result (IsNumber count × AreStats stats.now) }
{
    out.push_str("end")?;
    push_named(out, "entries", count)?;
    push_stats(out, stats)
}

/// Adds a line, without its line feed. O(bytes added).
#[tactic(auto, unfolding(crate::specs::Lines::line_words))]
pub fn push_line(out: &mut String, line: &HistoryLine) -> Result<(), AllocError>
    ensures adds { Adds (string_bytes out.old) (string_bytes out.new) result (line_text line.now) }
    ensures range { OnOk result (HasNumbers line.now) }
{
    match line {
        HistoryLine::Setting(setting) => push_setting(out, *setting),
        HistoryLine::Entry(entry) => push_entry(out, entry),
        HistoryLine::End(count, stats) => push_end(out, *count, stats),
    }
}
