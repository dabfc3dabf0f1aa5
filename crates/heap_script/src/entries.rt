//! What a line says.
ghost use Rattle.std.specs.Prelude.{◌≡◌, ◌≤◌, true, IfOk, IfSome, IfNone, Some, None};
ghost use Rattle.std.specs.Str.{IsUtf8, is_utf8};
ghost use Rattle.az_words.specs.Words.{words_of};
ghost use Rattle.call_words.specs.Names.{name_of};
ghost use Rattle.call_words.specs.Reading.Calls.{Reads, next_as};
ghost use Rattle.heap_script.specs.Lines.{is_skipped};
ghost use Rattle.heap_script.specs.Refusals.{after_option};
ghost use Rattle.heap_script.specs.Reading.Scripts.{Gives, no_more, line_of, setting_of, entry_by, entry_of};

use crate::cause::{Cause, LineErr};
use crate::line::Line;
use crate::setting::Setting;
use az_words::{Words, first_byte, is_text, is_word, next_word};
use call_words::{
    CallName, OptionName, arguments, call_name, next_number, next_option, next_thread,
    next_wide_number,
};
use std::alloc::Global;

/// The most bytes of a line, its line feed not counted.
const MOST_BYTES: usize = 8192;

/// The most lines of a script.
const MOST_LINES: u32 = 65_536;

/// The most finaliser actions of an object.
const MOST_ACTIONS: usize = 8;

/// What a line says: nothing where it is skipped, an option, or a call.
#[derive(Drop)]
pub enum Entry {
    Nothing,
    Set(Setting),
    Call(Line),
}

/// No word is left.
#[tactic(auto, unfolding(crate::specs::Reading::Scripts::no_more))]
fn no_more(words: &mut Words) -> Result<(), Cause>
    ensures { result ≡ no_more words.old }
{
    match words.next() {
        None => Ok(()),
        Some(_) => Err(Cause::TooManyArguments),
    }
}

/// The call that the first word names.
#[tactic(auto, unfolding(call_words::specs::Reading::Calls::next_as))]
fn next_name(words: &mut Words) -> Option<CallName>
    ensures { Reads result words.new (next_as name_of words.old) }
{
    let word = words.next()?;
    call_name(word)
}

/// A call line.
#[tactic(auto, unfolding(crate::specs::Reading::Scripts::line_of, crate::specs::Reading::Scripts::line_at))]
fn call_line(alloc: Global, line: &[u8]) -> Result<Line, LineErr>
    ensures { Gives result (line_of (words_of line.now)) }
{
    let mut words = Words::new(line);
    let thread = next_thread(&mut words).ok_or(Cause::NoThread)?;
    let name = next_name(&mut words).ok_or(Cause::NoCall)?;
    let act = arguments(alloc, name, MOST_ACTIONS, &mut words)?;
    no_more(&mut words)?;
    Ok(Line { thread, act })
}

/// An option and a number in its range.
#[tactic(auto, unfolding(crate::specs::Reading::Scripts::setting_of))]
fn setting(line: &[u8]) -> Result<Setting, Cause>
    ensures { result ≡ setting_of (words_of line.now) }
{
    let mut words = Words::new(line);
    let setting = match next_option(&mut words).ok_or(Cause::NoCall)? {
        OptionName::Heap => Setting::Heap(next_number(1, 1_048_576, &mut words).ok_or(
            Cause::WrongArgument,
        )?),
        OptionName::Local => Setting::Local(next_number(0, 65_536, &mut words).ok_or(
            Cause::WrongArgument,
        )?),
        OptionName::Serials => Setting::Serials(next_wide_number(
            1,
            4_294_967_296,
            &mut words,
        ).ok_or(Cause::WrongArgument)?),
        OptionName::Counts => Setting::Counts(next_number(1, u32::MAX, &mut words).ok_or(
            Cause::WrongArgument,
        )?),
        OptionName::Pending => Setting::Pending(next_number(1, 4_096, &mut words).ok_or(
            Cause::WrongArgument,
        )?),
    };
    no_more(&mut words)?;
    Ok(setting)
}

/// What comes after `option`, where it begins the line and no call line came before.
#[tactic(auto, unfolding(crate::specs::Refusals::after_option))]
fn after_option(called: bool, line: &[u8]) -> Option<&[u8]>
    ensures some { IfSome result (λ rest. after_option called (words_of line.now) ≡ Some (words_of rest.now)) }
    ensures none { IfNone result (after_option called (words_of line.now) ≡ None) }
{
    if called {
        return None;
    }
    let (first, rest) = next_word(line)?;
    if is_word(first, b"option") {
        Some(rest)
    } else {
        None
    }
}

/// The line has no word, or its first word begins with `#`.
#[tactic(auto, unfolding(crate::specs::Lines::is_skipped))]
fn is_skipped(line: &[u8]) -> bool
    ensures { result ≡ is_skipped (words_of line.now) }
{
    match first_byte(line) {
        None => true,
        Some(byte) => byte == b'#',
    }
}

/// An option line where option lines may still stand, and else a call line.
#[tactic(auto, unfolding(crate::specs::Reading::Scripts::entry_by))]
fn option_or_call(alloc: Global, called: bool, line: &[u8]) -> Result<Entry, LineErr>
    ensures { Gives result (entry_by (words_of line.now) (after_option called (words_of line.now))) }
{
    match after_option(called, line) {
        Some(rest) => {
            let setting = setting(rest)?;
            Ok(Entry::Set(setting))
        }
        None => {
            let line = call_line(alloc, line)?;
            Ok(Entry::Call(line))
        }
    }
}

/// The line is text, where that isn't known of the whole script already.
fn is_text_line(all_text: bool, line: &[u8]) -> bool
    requires { all_text ≡ true → IsUtf8 line.now }
    ensures { result ≡ is_utf8 line.now }
{
    all_text || is_text(line)
}

/// What the line of this number says, where a call line came before it or none did. O(bytes).
#[tactic(auto, unfolding(crate::specs::Reading::Scripts::entry_of))]
pub fn read_entry(
    alloc: Global,
    number: u32,
    called: bool,
    all_text: bool,
    line: &[u8],
) -> Result<Entry, LineErr>
    requires { all_text ≡ true → IsUtf8 line.now }
    ensures says { Gives result (entry_of number called line.now) }
    ensures few { IfOk result (λ _. number ≤ 65536) }
{
    if !is_text_line(all_text, line) {
        return Err(LineErr::Cause(Cause::NotText));
    }
    if line.len() > MOST_BYTES {
        return Err(LineErr::Cause(Cause::LineTooLong));
    }
    if number > MOST_LINES {
        return Err(LineErr::Cause(Cause::TooManyLines));
    }
    if is_skipped(line) {
        return Ok(Entry::Nothing);
    }
    option_or_call(alloc, called, line)
}
