//! Options, as scripts and histories name them.
ghost use Rattle.std.specs.Prelude.{◌≡◌, string_bytes};
ghost use Rattle.std.specs.List.{flat_map};
ghost use Rattle.call_words.specs.Options.{option_text, option_of, option_words, option_lines, options_lines};
ghost use Rattle.call_words.specs.Reading.Calls.{Reads, next_as};
ghost use Rattle.call_words.specs.Spacing.{Adds, spaced, fed_line};

use crate::push_pieces::{push_feed, push_number, push_word};
use az_base::Options;
use az_words::{Words, is_word};
use std::alloc::AllocError;

/// An option that a script or a history can name.
#[derive(Clone, Copy)]
pub enum OptionName {
    Heap,
    Local,
    Serials,
    Counts,
    Pending,
}

fn option_word(name: OptionName) -> &'static str
    ensures { result.now ≡ option_text name }
{
    match name {
        OptionName::Heap => "heap",
        OptionName::Local => "local",
        OptionName::Serials => "serials",
        OptionName::Counts => "counts",
        OptionName::Pending => "pending",
    }
}

/// The option that a word names; None exactly where it names none.
#[tactic(auto, unfolding(crate::specs::Options::option_of))]
fn option_name(word: &[u8]) -> Option<OptionName>
    ensures { result ≡ option_of word.now }
{
    if is_word(word, b"heap") {
        Some(OptionName::Heap)
    } else if is_word(word, b"local") {
        Some(OptionName::Local)
    } else if is_word(word, b"serials") {
        Some(OptionName::Serials)
    } else if is_word(word, b"counts") {
        Some(OptionName::Counts)
    } else if is_word(word, b"pending") {
        Some(OptionName::Pending)
    } else {
        None
    }
}

/// The option that the next word names.
#[tactic(auto, unfolding(crate::specs::Reading::Calls::next_as))]
pub fn next_option(words: &mut Words) -> Option<OptionName>
    ensures { Reads result words.new (next_as option_of words.old) }
{
    let word = words.next()?;
    option_name(word)
}

/// Adds the line of an option, without its line feed.
#[tactic(auto, unfolding(crate::specs::Options::option_words))]
pub fn push_option(out: &mut String, name: OptionName, number: u64) -> Result<(), AllocError>
    ensures { Adds (string_bytes out.old) (string_bytes out.new) result (spaced (option_words name number)) }
{
    out.push_str("option")?;
    push_word(out, option_word(name))?;
    push_number(out, number)
}

/// Adds the line of an option, where its number isn't the usual one.
#[tactic(auto, unfolding(crate::specs::Options::option_lines))]
fn push_unusual(
    out: &mut String,
    name: OptionName,
    usual: u64,
    number: u64,
) -> Result<(), AllocError>
    ensures { Adds (string_bytes out.old) (string_bytes out.new) result (flat_map fed_line (option_lines name usual number)) }
{
    if number == usual {
        return Ok(());
    }
    push_option(out, name, number)?;
    push_feed(out)
}

/// Adds the lines of the options that aren't at their default, in the order of `Options`, each with its line feed.
#[tactic(auto, unfolding(crate::specs::Options::options_lines))]
pub fn push_options(out: &mut String, options: &Options) -> Result<(), AllocError>
    ensures { Adds (string_bytes out.old) (string_bytes out.new) result (flat_map fed_line (options_lines options.now)) }
{
    let usual = Options::usual();
    push_unusual(
        out,
        OptionName::Heap,
        u64::from(usual.heap_quanta),
        u64::from(options.heap_quanta),
    )?;
    push_unusual(
        out,
        OptionName::Local,
        u64::from(usual.local_quanta),
        u64::from(options.local_quanta),
    )?;
    push_unusual(out, OptionName::Serials, usual.serials, options.serials)?;
    push_unusual(
        out,
        OptionName::Counts,
        u64::from(usual.counts),
        u64::from(options.counts),
    )?;
    push_unusual(
        out,
        OptionName::Pending,
        u64::from(usual.pending),
        u64::from(options.pending),
    )
}
