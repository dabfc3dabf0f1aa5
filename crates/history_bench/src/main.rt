//! Reads and writes the text of a history, to be timed from outside: `history_bench both` takes a text from standard
//! input, reads it, writes what it says, and prints how many entries there are and how many bytes were written. `read`
//! reads alone, and `bytes` only takes the text, so that the cost of each part can be told.
#![tactic(auto)]

use az_outside::{StdSource, read_all};
use history_text::{read_text, write_text};
use std::alloc::Global;
use std::env;
use std::process::ExitCode;

/// The most bytes of a text.
const LIMIT: usize = 67_108_864;

/// What the word after the program's name asks for.
#[derive(Clone, Copy)]
enum Part {
    Bytes,
    Read,
    Both,
}

impl Part {
    fn of(word: &str) -> Option<Part> {
        match word {
            "bytes" => Some(Part::Bytes),
            "read" => Some(Part::Read),
            "both" => Some(Part::Both),
            _ => None,
        }
    }
}

fn wanted(rt: &HostRuntime) -> Option<Part> {
    let word = env::args(rt).ok()?.nth(1)?;
    Part::of(word.as_str())
}

/// How many entries were read, and how many bytes were written; None where the bytes are no text, or memory ran out.
fn work(alloc: Global, part: Part, bytes: &[u8]) -> Option<(usize, usize)> {
    if let Part::Bytes = part {
        return Some((0, 0));
    }
    let text = read_text(alloc, bytes).ok()?;
    let entries = text.journal.entries();
    if let Part::Read = part {
        return Some((entries.len(), 0));
    }
    let written = write_text(alloc, &text.options, entries, &text.stats).ok()?;
    Some((entries.len(), written.len()))
}

fn main(rt: HostRuntime) -> ExitCode {
    let Some(wanted) = wanted(&rt) else {
        return ExitCode::from(2);
    };
    let mut source = StdSource::new(rt.stdin());
    let Ok(bytes) = read_all(rt.alloc(), &mut source, LIMIT) else {
        return ExitCode::from(1);
    };
    let Some((entries, written)) = work(rt.alloc(), wanted, &bytes) else {
        return ExitCode::from(1);
    };
    match println!(rt; "{entries} entries, {written} bytes written") {
        Ok(()) => ExitCode::SUCCESS,
        Err(_) => ExitCode::from(1),
    }
}
