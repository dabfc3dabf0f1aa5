//! Writing the text of a history.
ghost use Rattle.std.specs.Prelude.{◌≡◌, All, IfOk, OnOk, string_bytes};
ghost use Rattle.call_words.specs.Spacing.{Adds};
ghost use Rattle.history_text.specs.Ranges.{IsEntry};
ghost use Rattle.history_text.specs.Texts.{settings_of, setting_lines, entry_lines, lines_text, text_of, IsTextIfSpelled};

use crate::lines::{push_end, push_entry};
use az_base::Options;
use call_words::{push_feed, push_options};
use std::alloc::{AllocError, Global};
use zone_model::{Entry, Stats};

/// The lines of the options that aren't at their default.
fn push_settings(out: &mut String, options: &Options) -> Result<(), AllocError>
    ensures { Adds (string_bytes out.old) (string_bytes out.new) result (lines_text (setting_lines (settings_of options.now))) }
{
    push_options(out, options)
}

/// The lines of the entries.
fn push_entries(out: &mut String, entries: &[Entry]) -> Result<(), AllocError>
    ensures adds { Adds (string_bytes out.old) (string_bytes out.new) result (lines_text (entry_lines entries.now)) }
    ensures range { OnOk result (All IsEntry entries.now) }
{
    for entry in entries {
        push_entry(out, entry)?;
        push_feed(out)?;
    }
    Ok(())
}

/// The text of a history under these options, whose end has these statistics. Where the options are valid and the
/// grammar has the calls, it is a text that `read_text` reads. O(bytes).
pub fn write_text(
    alloc: Global,
    options: &Options,
    entries: &[Entry],
    stats: &Stats,
) -> Result<String, AllocError>
    ensures text { IfOk result (λ text. string_bytes text ≡ text_of options.now entries.now stats.now) }
    ensures is { IfOk result (λ text. IsTextIfSpelled (string_bytes text) options.now entries.now stats.now) }
{
    let mut out = String::new(alloc);
    push_settings(&mut out, options)?;
    push_entries(&mut out, entries)?;
    push_end(&mut out, entries.len() as u64, stats)?;
    push_feed(&mut out)?;
    Ok(out)
}
