//! The words of the command line.
//!
//! They are parsed as one command of three arguments by their places, the last two of which may be missing. Which
//! arguments are a command is decided here. What the parse found has to be what the words themselves say, so that the
//! answer stands for the words, whatever the parser does; and where memory runs out in the parse, words that are no
//! command are still found to be none.
ghost use Rattle.std.specs.Prelude.{◌≡◌, ◌≢◌, ℕ, List, Option, IfOk, IfErr, OnErr, Some, None, true, map, codes, option_map, string_bytes};
ghost use Rattle.std.specs.List.{list_any};
ghost use Rattle.clap.specs.Words.{HasMatchesOf, takes, kind_of};
ghost use Rattle.clap.specs.declared.error.kind.ErrorKind.TheVariants as kinds;
ghost use Rattle.zone_commands.specs.declared.words.Command.{Command};
ghost use Rattle.zone_commands.specs.CommandLine.{number_of, script_by, soak_by, arguments_of, asked, is_dashed, command_line, Finds};

use az_base::NoMemory;
use clap::error::ErrorKind;
use clap::{Arg, ArgMatches, Error};
use std::alloc::Global;

/// The most calls of a generated script.
const MOST_CALLS: u64 = 65_536;

/// What words ask for.
#[derive(Clone, Copy, PartialEq, Eq)]
pub enum Command {
    /// Plays the script that is read.
    Play,
    /// Runs the script that is read, by a worker for each of its threads.
    Run,
    /// Plays the generated script of this start, with from 1 to 65,536 calls.
    Soak { start: u64, calls: u32 },
}

/// The number that a word is: decimal digits, after a plus or none, of a value below 2^64.
#[tactic(auto, unfolding(crate::specs::CommandLine::number_of))]
fn number(word: &str) -> Option<u64>
    ensures { result ≡ number_of word.now }
{
    match word.parse::<u64>() {
        Ok(number) => Some(number),
        Err(_) => None,
    }
}

/// The generated script that two words ask for.
fn soak(start: &str, calls: &str) -> Option<Command>
    ensures { result ≡ soak_by (number_of start.now) (number_of calls.now) }
{
    let start = number(start)?;
    let calls = number(calls)?;
    if 1 <= calls && calls <= MOST_CALLS {
        Some(Command::Soak {
            start,
            calls: calls as u32,
        })
    } else {
        None
    }
}

/// What a command word asks for alone; None where that is no command.
fn script_command(word: &str) -> Option<Command>
    ensures { result ≡ script_by word.now }
{
    if word == "play" {
        Some(Command::Play)
    } else if word == "run" {
        Some(Command::Run)
    } else {
        None
    }
}

/// What a command word asks for with its arguments; None where that is no command.
fn command_of(word: &str, first: Option<&str>, second: Option<&str>) -> Option<Command>
    ensures { result ≡ asked (arguments_of word.now (option_map (λ s. s.now) first.entry) (option_map (λ s. s.now) second.entry)) }
{
    match (first, second) {
        (None, None) => script_command(word),
        (Some(start), Some(calls)) if word == "soak" => soak(start, calls),
        _ => None,
    }
}

/// What the words themselves say.
fn command_said(words: &[String]) -> Option<Command>
    ensures { result ≡ asked (map string_bytes words.now) }
{
    match words {
        [word] => command_of(word.as_str(), None, None),
        [word, first] => command_of(word.as_str(), Some(first.as_str()), None),
        [word, first, second] => command_of(
            word.as_str(),
            Some(first.as_str()),
            Some(second.as_str()),
        ),
        _ => None,
    }
}

fn is_dashed(word: &str) -> bool
    ensures { result ≡ is_dashed word.now }
{
    matches!(word.as_bytes(), [b'-', ..])
}

/// Whether a word begins with a dash.
fn any_dashed(words: &[String]) -> bool
    ensures { result ≡ list_any (λ word. is_dashed (string_bytes word)) words.now }
{
    for word in words {
        if is_dashed(word.as_str()) {
            return true;
        }
    }
    false
}

/// The words as the arguments of a command line.
fn parse<'a>(alloc: Global, words: &'a [String]) -> Result<ArgMatches<'a>, Error>
    ensures matches { IfOk result (HasMatchesOf command_line (map string_bytes words.now)) }
    ensures passes { IfErr result (λ e. takes command_line (map string_bytes words.now) ≡ true → kind_of e ≡ kinds.OutOfMemory) }
{
    let line = clap::Command::new(alloc, "autozone")
        .no_binary_name(true)
        .arg(Arg::new(alloc, "command"))?
        .arg(Arg::new(alloc, "first"))?
        .arg(Arg::new(alloc, "second"))?;
    line.try_get_matches_from(words)
}

/// What the arguments that the parse found ask for.
fn command_matched(matches: &ArgMatches) -> Option<Command>
    ensures { (word : List ℕ) (first second : Option (List ℕ)) → Finds matches.now word first second → result ≡ asked (arguments_of word first second) }
{
    let word = matches.get_str("command")?;
    command_of(word, matches.get_str("first"), matches.get_str("second"))
}

fn is_want_of_memory(error: &Error) -> bool
    ensures { kind_of error.now ≡ kinds.OutOfMemory → result ≡ true }
{
    match error.kind() {
        ErrorKind::OutOfMemory => true,
        _ => false,
    }
}

/// What the parse finds; a word that begins with a dash is refused before it.
fn command_found(alloc: Global, words: &[String]) -> Result<Option<Command>, NoMemory>
    ensures { IfOk result (λ found. (command : Command) → asked (map string_bytes words.now) ≡ Some command → found ≡ Some command) }
{
    if any_dashed(words) {
        return Ok(None);
    }
    match parse(alloc, words) {
        Ok(matches) => Ok(command_matched(&matches)),
        Err(error) => if is_want_of_memory(&error) {
            Err(NoMemory)
        } else {
            Ok(None)
        },
    }
}

/// What the words ask for; None exactly where they are no command. NoMemory may come only where they are one.
pub fn read_command(alloc: Global, words: &[String]) -> Result<Option<Command>, NoMemory>
    ensures ok { IfOk result (λ command. command ≡ asked (map string_bytes words.now)) }
    ensures err { OnErr result (asked (map string_bytes words.now) ≢ None) }
{
    let said = command_said(words);
    match command_found(alloc, words) {
        Ok(found) => Ok(if found == said { found } else { None }),
        Err(NoMemory) if said.is_none() => Ok(None),
        Err(NoMemory) => Err(NoMemory),
    }
}
