//! The commands.
ghost use Rattle.std.specs.Prelude.{◌≡◌, ◌≢◌, ◌+◌, [], OnOk, IfOk, Err, string_bytes};
ghost use Rattle.az_outside.specs.Causes.{Rose};
ghost use Rattle.az_outside.specs.Bytes.{Takes};
ghost use Rattle.heap_script.specs.Scripts.{IsRefused};
ghost use Rattle.zone_commands.specs.Answers.{IsPlayed, IsRun, Written, WrittenPart, Refuses, IfRefused, Told, ToldStop, Ended};

use crate::laws::histories_are_spelled;
use crate::saying::{refusal, say};
use crate::status::{Status, Stop};
use az_outside::{Sink, Source, read_all, write_all};
use heap_script::{parse, scripts_are_read, scripts_are_refused};
use history_text::write_text;
use play_core::play;
use run_zone::{Pace, run};
use std::alloc::Global;
use std::sync::Wait;
use std::thread::Threads;

/// The most bytes of a script.
pub const LIMIT: usize = 4_194_304;

/// The text of the history of the script that the bytes are.
fn played_text(alloc: Global, bytes: &[u8]) -> Result<String, Stop>
    ensures ok { IfOk result (λ text. IsPlayed bytes.now (string_bytes text)) }
    ensures refused { IfRefused result (λ cause line. IsRefused bytes.now (record { cause = cause; line = line })) }
    ensures read { result ≢ Err Stop.ReadFault }
    ensures too_long { result ≢ Err Stop.TooLong }
    ensures write { result ≢ Err Stop.WriteFault }
{
    histories_are_spelled();
    let script = parse(alloc, bytes)?;
    let played = play(alloc, &script)?;
    let text = write_text(alloc, &script.options, &played.entries, &played.stats)?;
    Ok(text)
}

/// The text of a history of the script that the bytes are, whose threads work beside each other.
fn run_text<R: Threads + Wait + Sync, P: Pace + Sync>(
    rt: &R,
    alloc: Global,
    bytes: &[u8],
    pace: &P,
) -> Result<String, Stop>
    ensures ok { IfOk result (λ text. IsRun bytes.now (string_bytes text)) }
    ensures refused { IfRefused result (λ cause line. IsRefused bytes.now (record { cause = cause; line = line })) }
    ensures read { result ≢ Err Stop.ReadFault }
    ensures too_long { result ≢ Err Stop.TooLong }
    ensures write { result ≢ Err Stop.WriteFault }
{
    histories_are_spelled();
    let script = parse(alloc, bytes)?;
    let ran = run(rt, alloc, &script, pace)?;
    let text = write_text(alloc, &script.options, &ran.entries, &ran.stats)?;
    Ok(text)
}

/// Plays the script that the source gives, and writes the text of its history by one `write_all`.
fn play_script<S: Source, O: Sink>(alloc: Global, source: &mut S, out: &mut O) -> Result<(), Stop>
    ensures done { OnOk result (Written IsPlayed LIMIT (S.left source.old) (S.left source.new) (O.grew out.old out.new)) }

    ensures refused { IfRefused result (λ cause line. Refuses LIMIT (S.left source.old) (S.left source.new) cause line × O.grew out.old out.new []) }
    ensures read { result ≡ Err Stop.ReadFault → Rose (S.faults source.old) (S.faults source.new) × O.grew out.old out.new [] }
    ensures too_long { result ≡ Err Stop.TooLong → Takes (LIMIT + 1) (S.left source.old) (S.left source.new) × O.grew out.old out.new [] }
    ensures write { result ≡ Err Stop.WriteFault →
        Rose (O.faults out.old) (O.faults out.new) × WrittenPart IsPlayed (S.left source.old) (S.left source.new) (O.grew out.old out.new) }
    ensures memory { result ≡ Err Stop.NoMemory → O.grew out.old out.new [] }
{
    let bytes = read_all(alloc, source, LIMIT)?;
    let text = played_text(alloc, &bytes)?;
    match write_all(out, text.as_bytes()) {
        Ok(()) => Ok(()),
        Err(_) => Err(Stop::WriteFault),
    }
}

/// Runs the script that the source gives, and writes the text of its history by one `write_all`.
fn run_script<R: Threads + Wait + Sync, S: Source, O: Sink, P: Pace + Sync>(
    rt: &R,
    alloc: Global,
    source: &mut S,
    out: &mut O,
    pace: &P,
) -> Result<(), Stop>
    ensures done { OnOk result (Written IsRun LIMIT (S.left source.old) (S.left source.new) (O.grew out.old out.new)) }

    ensures refused { IfRefused result (λ cause line. Refuses LIMIT (S.left source.old) (S.left source.new) cause line × O.grew out.old out.new []) }
    ensures read { result ≡ Err Stop.ReadFault → Rose (S.faults source.old) (S.faults source.new) × O.grew out.old out.new [] }
    ensures too_long { result ≡ Err Stop.TooLong → Takes (LIMIT + 1) (S.left source.old) (S.left source.new) × O.grew out.old out.new [] }
    ensures write { result ≡ Err Stop.WriteFault →
        Rose (O.faults out.old) (O.faults out.new) × WrittenPart IsRun (S.left source.old) (S.left source.new) (O.grew out.old out.new) }
    ensures memory { result ≡ Err Stop.NoMemory → O.grew out.old out.new [] }
{
    let bytes = read_all(alloc, source, LIMIT)?;
    let text = run_text(rt, alloc, &bytes, pace)?;
    match write_all(out, text.as_bytes()) {
        Ok(()) => Ok(()),
        Err(_) => Err(Stop::WriteFault),
    }
}

/// The command `play`: plays the script that the source gives, and writes the text of its history.
///
/// The refusals are tried in this order: ReadFault and TooLong while reading, ScriptRefused, WriteFault. NoMemory may
/// come before the first write and not after. Whatever stopped it is said on `err` in one line. O(n log n) for a
/// script of n bytes.
pub fn play_command<S: Source, O: Sink, E: Sink>(
    alloc: Global,
    source: &mut S,
    out: &mut O,
    err: &mut E,
) -> Status
    ensures usage { result ≢ Status.Usage }
    ensures ended { Ended IsPlayed LIMIT result (S.left source.old) (S.left source.new) (S.faults source.old) (S.faults source.new)
        (O.grew out.old out.new) (O.faults out.old) (O.faults out.new) (E.grew err.old err.new) (E.faults err.old) (E.faults err.new) }
{
    scripts_are_read();
    scripts_are_refused();
    let done = play_script(alloc, source, out);
    tell(alloc, done, err)
}

/// The command `run`: runs the script that the source gives, by a worker for each of its threads, and writes the text of
/// its history. `pace` is called round each line.
///
/// The refusals are those of `play`, tried in the same order. The call waits for the workers. Its cost is that of the
/// calls, shared among the processors where the calls are local.
pub fn run_command<R: Threads + Wait + Sync, S: Source, O: Sink, E: Sink, P: Pace + Sync>(
    rt: &R,
    alloc: Global,
    source: &mut S,
    out: &mut O,
    err: &mut E,
    pace: &P,
) -> Status
    ensures usage { result ≢ Status.Usage }
    ensures ended { Ended IsRun LIMIT result (S.left source.old) (S.left source.new) (S.faults source.old) (S.faults source.new)
        (O.grew out.old out.new) (O.faults out.old) (O.faults out.new) (E.grew err.old err.new) (E.faults err.old) (E.faults err.new) }
{
    scripts_are_read();
    scripts_are_refused();
    let done = run_script(rt, alloc, source, out, pace);
    tell(alloc, done, err)
}

/// Says what stopped a command, if anything did; the status that this is.
fn tell<E: Sink>(alloc: Global, done: Result<(), Stop>, err: &mut E) -> Status
    ensures { Told done result (E.grew err.old err.new) (E.faults err.old) (E.faults err.new) }
{
    match done {
        Ok(()) => Status::Done,
        Err(stop) => tell_stop(alloc, stop, err),
    }
}

/// Says what stopped a command; the status that this is.
fn tell_stop<E: Sink>(alloc: Global, stop: Stop, err: &mut E) -> Status
    ensures { ToldStop stop result (E.grew err.old err.new) (E.faults err.old) (E.faults err.new) }
{
    match stop {
        Stop::Refused { cause, line } => match refusal(alloc, cause, line) {
            Ok(text) => {
                say(err, text.as_str());
                Status::ScriptRefused
            }
            Err(_) => {
                say(err, "autozone: no memory\n");
                Status::NoMemory
            }
        },
        Stop::ReadFault => {
            say(err, "autozone: read fault\n");
            Status::ReadFault
        }
        Stop::WriteFault => {
            say(err, "autozone: write fault\n");
            Status::WriteFault
        }
        Stop::NoMemory => {
            say(err, "autozone: no memory\n");
            Status::NoMemory
        }
        Stop::TooLong => {
            say(err, "autozone: too long\n");
            Status::TooLong
        }
    }
}
