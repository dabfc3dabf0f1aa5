//! The command `soak`: the generated script is played, and what came of it is summed up in two lines.
ghost use Rattle.std.specs.Prelude.{◌≡◌, IfOk, string_bytes};
ghost use Rattle.zone_commands.specs.Soak.{reclaimed_in, is_misuse, reclaimed_count, misuse_count, counts_of, summary_text, soak_text, IsSoaked, SoakEnded};

use crate::saying::say;
use crate::status::Status;
use az_base::NoMemory;
use az_outside::{Sink, write_all};
use history_text::push_end;
use play_core::{Recording, play};
use soak_script::{soak_script, soak_scripts_can_be_played};
use std::alloc::{AllocError, Global};
use std::fmt;
use zone_model::{Entry, Reply};

/// How many ids the reclaimed list of a reply has. Those that are kept don't count.
fn reclaimed_in(reply: &Reply) -> usize
    ensures { result ≡ reclaimed_in reply.now }
{
    match reply {
        Reply::Reclaimed(reclaimed) => reclaimed.len(),
        Reply::Settled { reclaimed, .. } => reclaimed.len(),
        Reply::Done
        | Reply::Block(_)
        | Reply::Number(_)
        | Reply::Busy
        | Reply::Begun
        | Reply::Condemned(_)
        | Reply::Finalised(_)
        | Reply::Stats(_)
        | Reply::Misuse(_) => 0,
    }
}

/// How many ids stand in the reclaimed lists. The types of the lists alone don't bound it by 64 bits.
fn reclaimed_count(entries: &[Entry]) -> u128
    ensures { result ≡ reclaimed_count entries.now }
{
    let mut count = 0u128;
    for entry in entries {
        count += reclaimed_in(&entry.reply) as u128;
    }
    count
}

fn is_misuse(reply: &Reply) -> bool
    ensures { result ≡ is_misuse reply.now }
{
    matches!(reply, Reply::Misuse(_))
}

/// How many replies are misuses.
fn misuse_count(entries: &[Entry]) -> usize
    ensures { result ≡ misuse_count entries.now }
{
    let mut count = 0;
    for entry in entries {
        if is_misuse(&entry.reply) {
            count += 1;
        }
    }
    count
}

/// What a history comes to.
#[derive(Clone, Copy)]
struct Counts {
    entries: usize,
    reclaimed: u128,
    misuses: usize,
}

#[tactic(auto, unfolding(crate::specs::Soak::counts_text))]
impl fmt::Display for Counts {
    ghost use Rattle.std.specs.Prelude.{Some};
    ghost use Rattle.zone_commands.specs.Soak.{counts_text};

    ghost output = { λ counts. Some (counts_text counts) };

    fn fmt<W: fmt::Write>(&self, f: &mut fmt::Formatter<W>) -> fmt::Result {
        let Counts {
            entries,
            reclaimed,
            misuses,
        } = *self;
        write!(
            f,
            "entries {entries} reclaimed {reclaimed} misuses {misuses}"
        )
    }
}

fn counts_of(entries: &[Entry]) -> Counts
    ensures { result ≡ counts_of entries.now }
{
    Counts {
        entries: entries.len(),
        reclaimed: reclaimed_count(entries),
        misuses: misuse_count(entries),
    }
}

/// The summary of a history.
fn summary(alloc: Global, start: u64, calls: u32, entries: &[Entry]) -> Result<String, AllocError>
    ensures { IfOk result (λ text. string_bytes text ≡ summary_text start calls (counts_of entries.now)) }
{
    let counts = counts_of(entries);
    let mut text = String::new(alloc);
    write!(text, "soak {start} {calls} {counts}\n")?;
    Ok(text)
}

/// The two lines of a history.
#[tactic(auto, unfolding(history_text::specs::Lines::line_words))]
fn text_of(alloc: Global, start: u64, calls: u32, played: &Recording) -> Result<String, AllocError>
    ensures { IfOk result (λ text. string_bytes text ≡ soak_text start calls played.now.entries.items played.now.stats) }
{
    let mut text = summary(alloc, start, calls, &played.entries)?;
    push_end(&mut text, played.entries.len() as u64, &played.stats)?;
    text.push_str("\n")?;
    Ok(text)
}

/// Plays the generated script; the two lines of its history.
fn play_soak(alloc: Global, start: u64, calls: u32) -> Result<String, NoMemory>
    ensures { IfOk result (λ text. IsSoaked start calls (string_bytes text)) }
{
    soak_scripts_can_be_played();
    let script = soak_script(alloc, start, calls)?;
    let played = play(alloc, &script)?;
    let text = text_of(alloc, start, calls, &played)?;
    Ok(text)
}

/// The command `soak`: plays the generated script of so many calls, and writes `soak START CALLS entries E reclaimed N
/// misuses M` and the last line of its history, by one `write_all`. E is how many entries the history has, N how many ids
/// stand in its reclaimed lists, and M how many of its replies are misuses.
///
/// NoMemory may come before the first write and not after; it and WriteFault are said on `err` in one line. No other
/// status but Done comes. The cost of the calls: a collection costs O(blocks).
pub fn soak_command<O: Sink, E: Sink>(
    alloc: Global,
    start: u64,
    calls: u32,
    out: &mut O,
    err: &mut E,
) -> Status
    ensures { SoakEnded start calls result (O.grew out.old out.new) (O.faults out.old) (O.faults out.new)
        (E.grew err.old err.new) (E.faults err.old) (E.faults err.new) }
{
    let Ok(text) = play_soak(alloc, start, calls) else {
        say(err, "autozone: no memory\n");
        return Status::NoMemory;
    };
    match write_all(out, text.as_bytes()) {
        Ok(()) => Status::Done,
        Err(_) => {
            say(err, "autozone: write fault\n");
            Status::WriteFault
        }
    }
}
