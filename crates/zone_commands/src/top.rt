//! The top call, which does all that the program does.
ghost use Rattle.std.specs.Prelude.{◌≡◌, ◌↔◌, ℕ, [], Some, false, codes, map, string_bytes};
ghost use Rattle.zone_commands.specs.declared.words.Command.TheVariants as commands;
ghost use Rattle.zone_commands.specs.Answers.{IsPlayed, IsRun, Ended, Says, told};
ghost use Rattle.zone_commands.specs.CommandLine.{asked, is_command};
ghost use Rattle.zone_commands.specs.Soak.{SoakEnded};

use crate::command::{LIMIT, play_command, run_command};
use crate::saying::say;
use crate::soak::soak_command;
use crate::status::Status;
use crate::words::{Command, read_command};
use az_base::NoMemory;
use az_outside::{Sink, Source};
use run_zone::NoPace;
use std::alloc::Global;
use std::sync::Wait;
use std::thread::Threads;

/// Does what the words say, which don't have the program's name: `play` reads a script from the source, plays it, and
/// writes the text of its history to `out`; `run` does so by a worker for each thread that has a line; `soak START CALLS`
/// plays a generated script, and writes two lines about its history. Any other words are Usage. Nothing is read but by
/// `play` and `run`. The call waits for workers under `run` alone. Each status but Done is said on `err` in one line;
/// that `err` fails changes nothing. What each status says of the source and of both sinks are the records `Ended` and
/// `SoakEnded`.
///
/// Where `play` or `run` answers Done, the bytes by which `out` grew are the text of a legal history, whose entries are those of
/// each script thread's calls, once and in their order, and then of its leave; `read_text` of `history_text` reads them as
/// this history (`texts_are_read_as_played`, `texts_are_read_as_run`). Under `play` the entries of all threads stand in the order of a
/// play (`IsPlayOf`), so that the bytes of the script alone determine this text (`bytes_have_one_text`); under `run` the
/// schedule has a part in their order. In the same way START and CALLS determine
/// what `soak` writes (`soaks_have_one_text`).
pub fn autozone<R: Threads + Wait + Sync, S: Source, O: Sink, E: Sink>(
    rt: &R,
    alloc: Global,
    words: &[String],
    source: &mut S,
    out: &mut O,
    err: &mut E,
) -> Status
    ensures usage { (result ≡ Status.Usage) ↔ (is_command (map string_bytes words.now) ≡ false) }
    ensures usage_told { result ≡ Status.Usage → (source.new ≡ source.old) × O.grew out.old out.new []
        × Says (E.faults err.old) (E.faults err.new) (E.grew err.old err.new) (told (codes "wrong usage")) }

    ensures played { asked (map string_bytes words.now) ≡ Some commands.Play
        → Ended IsPlayed LIMIT result (S.left source.old) (S.left source.new) (S.faults source.old) (S.faults source.new)
        (O.grew out.old out.new) (O.faults out.old) (O.faults out.new) (E.grew err.old err.new) (E.faults err.old) (E.faults err.new) }

    ensures ran { asked (map string_bytes words.now) ≡ Some commands.Run
        → Ended IsRun LIMIT result (S.left source.old) (S.left source.new) (S.faults source.old) (S.faults source.new)
        (O.grew out.old out.new) (O.faults out.old) (O.faults out.new) (E.grew err.old err.new) (E.faults err.old) (E.faults err.new) }

    ensures soaked { (start calls : ℕ) → asked (map string_bytes words.now) ≡ Some (commands.Soak start calls)
        → (source.new ≡ source.old) × SoakEnded start calls result (O.grew out.old out.new) (O.faults out.old) (O.faults out.new)
        (E.grew err.old err.new) (E.faults err.old) (E.faults err.new) }
{
    match read_command(alloc, words) {
        Ok(Some(Command::Play)) => play_command(alloc, source, out, err),
        Ok(Some(Command::Run)) => run_command(rt, alloc, source, out, err, &NoPace),
        Ok(Some(Command::Soak { start, calls })) => soak_command(alloc, start, calls, out, err),
        Ok(None) => {
            say(err, "autozone: wrong usage\n");
            Status::Usage
        }
        Err(NoMemory) => {
            say(err, "autozone: no memory\n");
            Status::NoMemory
        }
    }
}
