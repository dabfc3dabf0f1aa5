use az_outside::{MemorySink, MemorySource};
use run_zone::Pace;
use std::alloc::Global;
use std::sync::Wait;
use std::test::*;
use std::thread::Threads;
use zone_commands::{Status, autozone, run_command};

const FIRST: &str = "1 new r0 scanned 2\n";

const FIRST_TEXT: &str =
    "1 new r0 scanned 2 = 1.0\n1 leave = reclaimed 1.0\nend entries 2 blocks 0 quanta 0 retained 0 weak 0 assocs 0\n";

/// A runtime, and where its memory comes from.
#[derive(Drop)]
pub struct Host<'a, R> {
    rt: &'a R,
    alloc: Global,
}

impl<'a, R> Host<'a, R> {
    pub fn of(rt: &'a R, alloc: Global) -> Host<'a, R> {
        Host { rt, alloc }
    }

    pub fn alloc(&self) -> Global {
        self.alloc
    }
}

/// The words after the program's name.
fn given(alloc: Global, words: &[&str]) -> Result<Vec<String>, Fail> {
    let mut given = Vec::new(alloc);
    for word in words {
        given.push(String::from_str(alloc, word)?)?;
    }
    Ok(given)
}

/// A source of these bytes, which fails at this turn, where it isn't 0.
fn source(alloc: Global, script: &[u8], failing: u64) -> Result<MemorySource, Fail> {
    let bytes = Vec::from_slice(alloc, script)?;
    let turns = vec![in alloc; failing]?;
    Ok(MemorySource::new(bytes, 5000, turns))
}

/// A sink that takes ten bytes at each turn, and fails at this one, where it isn't 0.
pub fn sink(alloc: Global, failing: u64) -> Result<MemorySink, Fail> {
    let turns = vec![in alloc; failing]?;
    match MemorySink::new(alloc, 10, turns, 200_000) {
        Ok(sink) => Ok(sink),
        Err(_) => Err(Fail::from("no memory")),
    }
}

/// A sink that takes 64 KiB at each turn, and holds the text of the longest script.
pub fn big_sink(alloc: Global) -> Result<MemorySink, Fail> {
    match MemorySink::new(alloc, 65_536, Vec::new(alloc), 8_000_000) {
        Ok(sink) => Ok(sink),
        Err(_) => Err(Fail::from("no memory")),
    }
}

/// What a run of the program is given: its words, its script, and at which turn a read and a write fail.
#[derive(Clone, Copy)]
struct Invocation<'a> {
    words: &'a [&'a str],
    script: &'a [u8],
    failing_read: u64,
    failing_write: u64,
}

/// How a run ends: its status, and what stands on its outputs.
#[derive(Clone, Copy)]
struct End<'a> {
    status: Status,
    out: &'a str,
    err: &'a str,
}

/// Runs the program, and says how it ends.
fn run<R: Threads + Wait + Sync>(
    rt: &Host<'_, R>,
    run: Invocation,
    out: &mut MemorySink,
    err: &mut MemorySink,
) -> Result<Status, Fail> {
    let alloc = rt.alloc();
    let words = given(alloc, run.words)?;
    let mut source = source(alloc, run.script, run.failing_read)?;
    Ok(autozone(rt.rt, alloc, &words, &mut source, out, err))
}

/// Whether the run ends so.
fn ends<R: Threads + Wait + Sync>(
    rt: &Host<'_, R>,
    given: Invocation,
    end: End,
) -> Result<bool, Fail> {
    let mut out = sink(rt.alloc(), given.failing_write)?;
    let mut err = sink(rt.alloc(), 0)?;
    let status = run(rt, given, &mut out, &mut err)?;
    Ok(
        status == end.status
            && out.bytes() == end.out.as_bytes()
            && err.bytes() == end.err.as_bytes(),
    )
}

/// The run of a script in which nothing fails.
fn script_run(script: &[u8]) -> Invocation<'_> {
    Invocation {
        words: &["play"],
        script,
        failing_read: 0,
        failing_write: 0,
    }
}

/// Whether the script is played, and its text is this one.
pub fn is_played<R: Threads + Wait + Sync>(
    rt: &Host<'_, R>,
    script: &str,
    text: &str,
) -> Result<bool, Fail> {
    let end = End {
        status: Status::Done,
        out: text,
        err: "",
    };
    ends(rt, script_run(script.as_bytes()), end)
}

/// Whether a run of the script by threads ends so.
pub fn ends_so<R: Threads + Wait + Sync>(
    rt: &Host<'_, R>,
    script: &str,
    status: Status,
    out: &str,
    err: &str,
) -> Result<bool, Fail> {
    let given = Invocation {
        words: &["run"],
        ..script_run(script.as_bytes())
    };
    ends(rt, given, End { status, out, err })
}

/// Whether a run of the script by threads ends with Done, and nothing is said.
pub fn ran<R: Threads + Wait + Sync>(
    rt: &Host<'_, R>,
    script: &str,
    out: &mut MemorySink,
) -> Result<bool, Fail> {
    let given = Invocation {
        words: &["run"],
        ..script_run(script.as_bytes())
    };
    let mut err = sink(rt.alloc(), 0)?;
    let status = run(rt, given, out, &mut err)?;
    Ok(status == Status::Done && err.bytes().is_empty())
}

/// Whether a run of the script by threads, with this pace, ends with Done, and nothing is said.
pub fn ran_at<R: Threads + Wait + Sync, P: Pace + Sync>(
    rt: &Host<'_, R>,
    script: &str,
    out: &mut MemorySink,
    pace: &P,
) -> Result<bool, Fail> {
    let alloc = rt.alloc();
    let mut source = source(alloc, script.as_bytes(), 0)?;
    let mut err = sink(alloc, 0)?;
    let status = run_command(rt.rt, alloc, &mut source, out, &mut err, pace);
    Ok(status == Status::Done && err.bytes().is_empty())
}

/// Whether the script is refused, and this is said.
fn is_refused<R: Threads + Wait + Sync>(
    rt: &Host<'_, R>,
    script: &[u8],
    text: &str,
) -> Result<bool, Fail> {
    let end = End {
        status: Status::ScriptRefused,
        out: "",
        err: text,
    };
    ends(rt, script_run(script), end)
}

/// Whether other words than the command are wrong usage.
fn is_usage<R: Threads + Wait + Sync>(rt: &Host<'_, R>, words: &[&str]) -> Result<bool, Fail> {
    let given = Invocation {
        words,
        ..script_run(FIRST.as_bytes())
    };
    let end = End {
        status: Status::Usage,
        out: "",
        err: "autozone: wrong usage\n",
    };
    ends(rt, given, end)
}

/// The run of these words, in which nothing is to be read.
fn words_run<'a>(words: &'a [&'a str]) -> Invocation<'a> {
    Invocation {
        words,
        failing_read: 1,
        ..script_run(FIRST.as_bytes())
    }
}

/// Whether these words end with Done, and nothing is said.
pub fn written<R: Threads + Wait + Sync>(
    rt: &Host<'_, R>,
    words: &[&str],
    out: &mut MemorySink,
) -> Result<bool, Fail> {
    let mut err = sink(rt.alloc(), 0)?;
    let status = run(rt, words_run(words), out, &mut err)?;
    Ok(status == Status::Done && err.bytes().is_empty())
}

/// Whether these words write this text.
pub fn is_written<R: Threads + Wait + Sync>(
    rt: &Host<'_, R>,
    words: &[&str],
    text: &str,
) -> Result<bool, Fail> {
    let mut out = sink(rt.alloc(), 0)?;
    let done = written(rt, words, &mut out)?;
    Ok(done && out.bytes() == text.as_bytes())
}

/// Whether the read of this turn is said to have failed.
fn read_fails<R: Threads + Wait + Sync>(rt: &Host<'_, R>, turn: u64) -> Result<bool, Fail> {
    let given = Invocation {
        failing_read: turn,
        ..script_run(FIRST.as_bytes())
    };
    let end = End {
        status: Status::ReadFault,
        out: "",
        err: "autozone: read fault\n",
    };
    ends(rt, given, end)
}

/// Whether the write of this turn is said to have failed, where those before it stand.
fn write_fails<R: Threads + Wait + Sync>(rt: &Host<'_, R>, turn: u64) -> Result<bool, Fail> {
    let given = Invocation {
        failing_write: turn,
        ..script_run(FIRST.as_bytes())
    };
    let mut out = sink(rt.alloc(), turn)?;
    let mut err = sink(rt.alloc(), 0)?;
    let status = run(rt, given, &mut out, &mut err)?;
    Ok(
        status == Status::WriteFault
            && out.bytes().len() % 10 == 0
            && out.bytes().len() as u64 / 10 + 1 == turn
            && FIRST_TEXT.as_bytes().starts_with(out.bytes())
            && err.bytes() == "autozone: write fault\n".as_bytes(),
    )
}

/// Whether the first script is played where only later reads and writes would fail.
fn later_turns_fail<R: Threads + Wait + Sync>(rt: &Host<'_, R>) -> Result<bool, Fail> {
    let given = Invocation {
        failing_read: 3,
        failing_write: 12,
        ..script_run(FIRST.as_bytes())
    };
    let end = End {
        status: Status::Done,
        out: FIRST_TEXT,
        err: "",
    };
    ends(rt, given, end)
}

#[test]
fn first_scripts(rt: HostRuntime) -> Result<(), Fail> {
    let empty = "end entries 0 blocks 0 quanta 0 retained 0 weak 0 assocs 0\n";
    let rows = [
        (FIRST, FIRST_TEXT),
        ("", empty),
        ("\n# nothing\n\t \n", empty),
    ];
    for (script, text) in &rows {
        assert!(rt; is_played(&Host::of(&rt, rt.alloc()), script, text)?);
    }
    Ok(())
}

#[test]
fn other_words_are_wrong_usage(rt: HostRuntime) -> Result<(), Fail> {
    let rows: [&[&str]; 30] = [
        &[],
        &[""],
        &["Play"],
        &["PLAY"],
        &[" play"],
        &["help"],
        &["help", "play"],
        &["--help"],
        &["-h"],
        &["--"],
        &["-"],
        &["play", "now"],
        &["play", ""],
        &["play", "-h"],
        &["play", "--"],
        &["--", "play"],
        &["play", "1", "2", "3"],
        &["run", "now"],
        &["RUN"],
        &["soak"],
        &["soak", "7"],
        &["soak", "0", "0"],
        &["soak", "7", "0"],
        &["soak", "0", "65537"],
        &["soak", "7", "65537"],
        &["soak", "18446744073709551616", "1"],
        &["soak", "7", "1", "1"],
        &["soak", "7", "-1"],
        &["soak", "", "1"],
        &["soak", "+", "1"],
    ];
    for words in &rows {
        assert!(rt; is_usage(&Host::of(&rt, rt.alloc()), words)?);
    }
    Ok(())
}

// What the first numbers after each start say is told apart from the program.
#[test]
fn generated_scripts_are_summed_up(rt: HostRuntime) -> Result<(), Fail> {
    let rows: [(&[&str], &str); 6] = [
        (
            &["soak", "0", "1"],
            "soak 0 1 entries 2 reclaimed 1 misuses 0\nend entries 2 blocks 0 quanta 0 retained 0 weak 0 assocs 0\n",
        ),
        (
            &["soak", "0", "3"],
            "soak 0 3 entries 4 reclaimed 2 misuses 0\nend entries 4 blocks 0 quanta 0 retained 0 weak 0 assocs 0\n",
        ),
        (
            &["soak", "7", "1"],
            "soak 7 1 entries 2 reclaimed 0 misuses 1\nend entries 2 blocks 0 quanta 0 retained 0 weak 0 assocs 0\n",
        ),
        (
            &["soak", "+7", "1"],
            "soak 7 1 entries 2 reclaimed 0 misuses 1\nend entries 2 blocks 0 quanta 0 retained 0 weak 0 assocs 0\n",
        ),
        (
            &["soak", "007", "+01"],
            "soak 7 1 entries 2 reclaimed 0 misuses 1\nend entries 2 blocks 0 quanta 0 retained 0 weak 0 assocs 0\n",
        ),
        (
            &["soak", "18446744073709551615", "1"],
            "soak 18446744073709551615 1 entries 2 reclaimed 0 misuses 0\nend entries 2 blocks 0 quanta 0 retained 0 weak 0 assocs 0\n",
        ),
    ];
    for (words, text) in &rows {
        assert!(rt; is_written(&Host::of(&rt, rt.alloc()), words, text)?);
    }
    Ok(())
}

#[test]
fn reads_may_fail_at_any_turn(rt: HostRuntime) -> Result<(), Fail> {
    for turn in 1..=2 {
        assert!(rt; read_fails(&Host::of(&rt, rt.alloc()), turn)?);
    }
    Ok(())
}

// The text has 108 bytes, and the sink takes ten at each turn.
#[test]
fn writes_may_fail_at_any_turn(rt: HostRuntime) -> Result<(), Fail> {
    for turn in 1..=11 {
        assert!(rt; write_fails(&Host::of(&rt, rt.alloc()), turn)?);
    }
    Ok(())
}

#[test]
fn later_faults_are_not_met(rt: HostRuntime) -> Result<(), Fail> {
    assert!(rt; later_turns_fail(&Host::of(&rt, rt.alloc()))?);
    Ok(())
}

/// Whether a script of one line of so many bytes ends so.
fn line_ends<R: Threads + Wait + Sync>(
    rt: &Host<'_, R>,
    size: usize,
    status: Status,
    err: &str,
) -> Result<bool, Fail> {
    let script = vec![in rt.alloc(); b'1'; size]?;
    let end = End {
        status,
        out: "",
        err,
    };
    ends(rt, script_run(&script), end)
}

#[test]
fn a_script_may_have_so_many_bytes(rt: HostRuntime) -> Result<(), Fail> {
    let rows = [
        (
            4_194_304,
            Status::ScriptRefused,
            "autozone: line 1: LineTooLong\n",
        ),
        (4_194_305, Status::TooLong, "autozone: too long\n"),
    ];
    for (size, status, err) in &rows {
        assert!(rt; line_ends(&Host::of(&rt, rt.alloc()), *size, *status, err)?);
    }
    Ok(())
}

#[test]
fn options_bound_the_zone(rt: HostRuntime) -> Result<(), Fail> {
    let rows = [
        (
            "option serials 1\n1 new r0 scanned 0\n1 new r1 scanned 0\n",
            "option serials 1\n1 new r0 scanned 0 = 1.0\n1 new r1 scanned 0 = misuse 6 SerialsUsed\n1 leave = reclaimed 1.0\nend entries 3 blocks 0 quanta 0 retained 0 weak 0 assocs 0\n",
        ),
        (
            "option heap 32\noption local 2\n2 new r0 scanned 4\n2 new r0 scanned 3\n2 new r0 scanned 60\n2 new r0 scanned 1\n2 new r0 scanned 0\n",
            "option heap 32\noption local 2\n2 new r0 scanned 4 = 2.0\n2 new r0 scanned 3 = 2.1\n2 new r0 scanned 60 = 2.2\n2 new r0 scanned 1 = misuse 7 ZoneFull\n2 new r0 scanned 0 = misuse 7 ZoneFull\n2 leave = reclaimed 2.0\nend entries 6 blocks 2 quanta 32 retained 0 weak 0 assocs 0\n",
        ),
    ];
    for (script, text) in &rows {
        assert!(rt; is_played(&Host::of(&rt, rt.alloc()), script, text)?);
    }
    Ok(())
}

#[test]
fn worked_scripts(rt: HostRuntime) -> Result<(), Fail> {
    let rows = [
        (
            "1 new r0 scanned 0\n1 new r1 scanned 4096\n1 setroot g0 r0\n1 stats\n",
            "1 new r0 scanned 0 = 1.0\n1 new r1 scanned 4096 = 1.1\n1 setroot g0 r0 = ok\n1 stats = blocks 1 quanta 1 retained 0 weak 0 assocs 0\n1 leave = reclaimed 1.1\nend entries 5 blocks 1 quanta 1 retained 0 weak 0 assocs 0\n",
        ),
        (
            "1 new r0 scanned 2\n1 store r0 2 r1\n1 store r1 9 r0\n",
            "1 new r0 scanned 2 = 1.0\n1 store r0 2 r1 = misuse 2 NoWord\n1 store r1 9 r0 = misuse 1 NullBlock\n1 leave = reclaimed 1.0\nend entries 4 blocks 0 quanta 0 retained 0 weak 0 assocs 0\n",
        ),
        (
            "1 new r0 object SP\n1 store r0 1 r0\n1 put r0 0 7\n1 put r0 1 7\n1 get r0 1\n1 load r2 r0 1\n",
            "1 new r0 object SP = 1.0\n1 store r0 1 r0 = misuse 3 WrongClass\n1 put r0 0 7 = misuse 3 WrongClass\n1 put r0 1 7 = ok\n1 get r0 1 = 7\n1 load r2 r0 1 = misuse 3 WrongClass\n1 leave = reclaimed 1.0\nend entries 7 blocks 0 quanta 0 retained 0 weak 0 assocs 0\n",
        ),
        (
            "1 new r0 scanned 2\n1 setroot g0 r0\n",
            "1 new r0 scanned 2 = 1.0\n1 setroot g0 r0 = ok\n1 leave = reclaimed none\nend entries 3 blocks 1 quanta 1 retained 0 weak 0 assocs 0\n",
        ),
        // A cycle of two blocks escapes whole.
        (
            "1 new r0 scanned 1\n1 new r1 scanned 1\n1 store r0 0 r1\n1 store r1 0 r0\n1 setroot g7 r0\n1 stats\n1 getroot r2 g7\n1 load r3 r2 0\n1 setroot g7 r9\n1 getroot r2 g7\n",
            "1 new r0 scanned 1 = 1.0\n1 new r1 scanned 1 = 1.1\n1 store r0 0 r1 = ok\n1 store r1 0 r0 = ok\n1 setroot g7 r0 = ok\n1 stats = blocks 2 quanta 2 retained 0 weak 0 assocs 0\n1 getroot r2 g7 = 1.0\n1 load r3 r2 0 = 1.1\n1 setroot g7 r9 = ok\n1 getroot r2 g7 = null\n1 leave = reclaimed none\nend entries 11 blocks 2 quanta 2 retained 0 weak 0 assocs 0\n",
        ),
        // An escape that doesn't fit changes nothing.
        (
            "option heap 3\n1 new r0 scanned 4\n1 new r1 scanned 3\n1 store r0 0 r1\n1 setroot g0 r0\n1 getroot r2 g0\n1 stats\n1 load r3 r0 0\n1 setroot g0 r1\n1 store r1 0 r0\n1 load r3 r1 0\n1 new r4 scanned 0\n1 stats\n",
            "option heap 3\n1 new r0 scanned 4 = 1.0\n1 new r1 scanned 3 = 1.1\n1 store r0 0 r1 = ok\n1 setroot g0 r0 = misuse 7 ZoneFull\n1 getroot r2 g0 = null\n1 stats = blocks 0 quanta 0 retained 0 weak 0 assocs 0\n1 load r3 r0 0 = 1.1\n1 setroot g0 r1 = ok\n1 store r1 0 r0 = misuse 7 ZoneFull\n1 load r3 r1 0 = null\n1 new r4 scanned 0 = 1.2\n1 stats = blocks 1 quanta 2 retained 0 weak 0 assocs 0\n1 leave = reclaimed 1.0 1.2\nend entries 13 blocks 1 quanta 2 retained 0 weak 0 assocs 0\n",
        ),
        // A block that is born escaped holds null and 0.
        (
            "option local 0\n1 new r0 object SWP\n1 load r1 r0 0\n1 get r0 2\n1 get r0 1\n1 load r1 r0 1\n1 stats\n",
            "option local 0\n1 new r0 object SWP = 1.0\n1 load r1 r0 0 = null\n1 get r0 2 = 0\n1 get r0 1 = misuse 3 WrongClass\n1 load r1 r0 1 = misuse 3 WrongClass\n1 stats = blocks 1 quanta 2 retained 0 weak 0 assocs 0\n1 leave = reclaimed none\nend entries 7 blocks 1 quanta 2 retained 0 weak 0 assocs 0\n",
        ),
        // A block that refers to an escaped one escapes itself.
        (
            "1 new r0 scanned 1\n1 new r1 scanned 1\n1 setroot g0 r0\n1 store r1 0 r0\n1 setroot g1 r1\n1 drop r0\n1 load r5 r1 0\n1 store r5 0 r5\n1 stats\n",
            "1 new r0 scanned 1 = 1.0\n1 new r1 scanned 1 = 1.1\n1 setroot g0 r0 = ok\n1 store r1 0 r0 = ok\n1 setroot g1 r1 = ok\n1 drop r0 = ok\n1 load r5 r1 0 = 1.0\n1 store r5 0 r5 = ok\n1 stats = blocks 2 quanta 2 retained 0 weak 0 assocs 0\n1 leave = reclaimed none\nend entries 10 blocks 2 quanta 2 retained 0 weak 0 assocs 0\n",
        ),
        // What is stored into an escaped block escapes.
        (
            "1 new r0 scanned 1\n1 setroot g255 r0\n1 new r1 unscanned 1\n1 new r2 scanned 1\n1 store r2 0 r1\n1 store r0 0 r2\n1 put r1 0 18446744073709551615\n1 get r1 0\n1 put r0 0 1\n1 stats\n1 store r0 0 r15\n1 load r1 r0 0\n",
            "1 new r0 scanned 1 = 1.0\n1 setroot g255 r0 = ok\n1 new r1 unscanned 1 = 1.1\n1 new r2 scanned 1 = 1.2\n1 store r2 0 r1 = ok\n1 store r0 0 r2 = ok\n1 put r1 0 18446744073709551615 = ok\n1 get r1 0 = 18446744073709551615\n1 put r0 0 1 = misuse 3 WrongClass\n1 stats = blocks 3 quanta 3 retained 0 weak 0 assocs 0\n1 store r0 0 r15 = ok\n1 load r1 r0 0 = null\n1 leave = reclaimed none\nend entries 13 blocks 3 quanta 3 retained 0 weak 0 assocs 0\n",
        ),
    ];
    for (script, text) in &rows {
        assert!(rt; is_played(&Host::of(&rt, rt.alloc()), script, text)?);
    }
    Ok(())
}

#[test]
fn counts_and_associations(rt: HostRuntime) -> Result<(), Fail> {
    let rows = [
        (
            "1 new r0 unscanned 1\n1 retain r0\n1 release r0\n1 release r0\n1 count r0\n",
            "1 new r0 unscanned 1 = 1.0\n1 retain r0 = 1\n1 release r0 = 0\n1 release r0 = misuse 4 OverRelease\n1 count r0 = 0\n1 leave = reclaimed none\nend entries 6 blocks 1 quanta 1 retained 0 weak 0 assocs 0\n",
        ),
        (
            "option counts 2\n1 new r0 unscanned 1\n1 retain r0\n1 retain r0\n1 retain r0\n",
            "option counts 2\n1 new r0 unscanned 1 = 1.0\n1 retain r0 = 1\n1 retain r0 = 2\n1 retain r0 = misuse 5 CountFull\n1 leave = reclaimed none\nend entries 5 blocks 1 quanta 1 retained 1 weak 0 assocs 0\n",
        ),
        (
            "option serials 1\n1 new r0 scanned 0\n1 new r1 scanned 0\n1 take r2 1.0\n1 retain r0\n1 take r2 1.0\n",
            "option serials 1\n1 new r0 scanned 0 = 1.0\n1 new r1 scanned 0 = misuse 6 SerialsUsed\n1 take r2 1.0 = misuse 8 NotHeld\n1 retain r0 = 1\n1 take r2 1.0 = 1.0\n1 leave = reclaimed none\nend entries 6 blocks 1 quanta 1 retained 1 weak 0 assocs 0\n",
        ),
        // A retained block is there when no register holds it any more.
        (
            "1 new r0 scanned 1\n1 retain r0\n1 drop r0\n1 take r5 1.0\n1 count r5\n1 count r0\n1 take r6 1.1\n",
            "1 new r0 scanned 1 = 1.0\n1 retain r0 = 1\n1 drop r0 = ok\n1 take r5 1.0 = 1.0\n1 count r5 = 1\n1 count r0 = misuse 1 NullBlock\n1 take r6 1.1 = misuse 8 NotHeld\n1 leave = reclaimed none\nend entries 8 blocks 1 quanta 1 retained 1 weak 0 assocs 0\n",
        ),
        // An unescaped block has no count and no value, and stays unescaped.
        (
            "1 new r0 scanned 0\n1 count r0\n1 release r0\n1 getassoc r1 r0 k3\n",
            "1 new r0 scanned 0 = 1.0\n1 count r0 = 0\n1 release r0 = misuse 4 OverRelease\n1 getassoc r1 r0 k3 = null\n1 leave = reclaimed 1.0\nend entries 5 blocks 0 quanta 0 retained 0 weak 0 assocs 0\n",
        ),
        (
            "option heap 1\noption counts 1\n1 new r0 scanned 1\n1 new r1 scanned 1\n1 retain r0\n1 retain r0\n1 retain r1\n1 setassoc r0 k0 r1\n1 setassoc r1 k0 r0\n1 count r1\n",
            "option heap 1\noption counts 1\n1 new r0 scanned 1 = 1.0\n1 new r1 scanned 1 = 1.1\n1 retain r0 = 1\n1 retain r0 = misuse 5 CountFull\n1 retain r1 = misuse 7 ZoneFull\n1 setassoc r0 k0 r1 = misuse 7 ZoneFull\n1 setassoc r1 k0 r0 = misuse 7 ZoneFull\n1 count r1 = 0\n1 leave = reclaimed 1.1\nend entries 9 blocks 1 quanta 1 retained 1 weak 0 assocs 0\n",
        ),
        (
            "1 new r0 scanned 0\n1 new r1 scanned 0\n1 setassoc r0 k0 r1\n1 setassoc r0 k0 r0\n1 getassoc r2 r0 k0\n1 setassoc r0 k0 r3\n1 setassoc r3 k0 r0\n",
            "1 new r0 scanned 0 = 1.0\n1 new r1 scanned 0 = 1.1\n1 setassoc r0 k0 r1 = null\n1 setassoc r0 k0 r0 = 1.1\n1 getassoc r2 r0 k0 = 1.0\n1 setassoc r0 k0 r3 = 1.0\n1 setassoc r3 k0 r0 = misuse 1 NullBlock\n1 leave = reclaimed none\nend entries 8 blocks 2 quanta 2 retained 0 weak 0 assocs 0\n",
        ),
        (
            "1 new r0 scanned 0\n1 setassoc r0 k9 r1\n1 getassoc r2 r0 k9\n1 setassoc r0 k255 r0\n1 stats\n",
            "1 new r0 scanned 0 = 1.0\n1 setassoc r0 k9 r1 = null\n1 getassoc r2 r0 k9 = null\n1 setassoc r0 k255 r0 = null\n1 stats = blocks 1 quanta 1 retained 0 weak 0 assocs 1\n1 leave = reclaimed none\nend entries 6 blocks 1 quanta 1 retained 0 weak 0 assocs 1\n",
        ),
    ];
    for (script, text) in &rows {
        assert!(rt; is_played(&Host::of(&rt, rt.alloc()), script, text)?);
    }
    Ok(())
}

#[test]
fn weak_locations(rt: HostRuntime) -> Result<(), Fail> {
    let rows = [
        (
            "1 new r0 object W\n1 setweak r0 0 r0\n1 readweak r1 r0 0\n1 setweak w3 r0\n1 setweak w3 r2\n1 readweak r1 w3\n1 setweak r2 0 r0\n",
            "1 new r0 object W = 1.0\n1 setweak r0 0 r0 = 1.0\n1 readweak r1 r0 0 = 1.0\n1 setweak w3 r0 = 1.0\n1 setweak w3 r2 = null\n1 readweak r1 w3 = null\n1 setweak r2 0 r0 = misuse 1 NullBlock\n1 leave = reclaimed none\nend entries 8 blocks 1 quanta 1 retained 0 weak 1 assocs 0\n",
        ),
        // Two locations of one block, of which one is assigned again.
        (
            "1 new r0 scanned 0\n1 new r1 scanned 0\n1 setweak w0 r0\n1 setweak w1 r0\n1 setweak w0 r1\n1 readweak r2 w0\n1 readweak r3 w1\n1 setweak w1 r9\n1 readweak r3 w1\n1 stats\n",
            "1 new r0 scanned 0 = 1.0\n1 new r1 scanned 0 = 1.1\n1 setweak w0 r0 = 1.0\n1 setweak w1 r0 = 1.0\n1 setweak w0 r1 = 1.1\n1 readweak r2 w0 = 1.1\n1 readweak r3 w1 = 1.0\n1 setweak w1 r9 = null\n1 readweak r3 w1 = null\n1 stats = blocks 2 quanta 2 retained 0 weak 1 assocs 0\n1 leave = reclaimed none\nend entries 11 blocks 2 quanta 2 retained 0 weak 1 assocs 0\n",
        ),
        // The block whose word is named escapes, where it is no misuse; a read makes nothing escape.
        (
            "1 new r0 object SW\n1 setweak r0 0 r0\n1 setweak r0 2 r0\n1 readweak r1 r0 1\n1 readweak r1 r0 0\n1 stats\n1 setweak r0 1 r5\n1 stats\n",
            "1 new r0 object SW = 1.0\n1 setweak r0 0 r0 = misuse 3 WrongClass\n1 setweak r0 2 r0 = misuse 2 NoWord\n1 readweak r1 r0 1 = null\n1 readweak r1 r0 0 = misuse 3 WrongClass\n1 stats = blocks 0 quanta 0 retained 0 weak 0 assocs 0\n1 setweak r0 1 r5 = null\n1 stats = blocks 1 quanta 1 retained 0 weak 0 assocs 0\n1 leave = reclaimed none\nend entries 9 blocks 1 quanta 1 retained 0 weak 0 assocs 0\n",
        ),
        (
            "option heap 1\n1 new r0 scanned 4\n1 setweak w0 r0\n1 readweak r1 w0\n1 readweak r2 r1 0\n",
            "option heap 1\n1 new r0 scanned 4 = 1.0\n1 setweak w0 r0 = misuse 7 ZoneFull\n1 readweak r1 w0 = null\n1 readweak r2 r1 0 = misuse 1 NullBlock\n1 leave = reclaimed 1.0\nend entries 5 blocks 0 quanta 0 retained 0 weak 0 assocs 0\n",
        ),
    ];
    for (script, text) in &rows {
        assert!(rt; is_played(&Host::of(&rt, rt.alloc()), script, text)?);
    }
    Ok(())
}

/// A sink of so many bytes, which takes 4,096 at each turn.
fn large_sink(alloc: Global, room: usize) -> Result<MemorySink, Fail> {
    match MemorySink::new(alloc, 4096, Vec::new(alloc), room) {
        Ok(sink) => Ok(sink),
        Err(_) => Err(Fail::from("no memory")),
    }
}

/// Whether the script is played, and its text, which has so many bytes at most, ends so.
pub fn text_ends<R: Threads + Wait + Sync>(
    rt: &Host<'_, R>,
    script: &str,
    room: usize,
    text: &str,
) -> Result<bool, Fail> {
    let mut out = large_sink(rt.alloc(), room)?;
    let mut err = sink(rt.alloc(), 0)?;
    let status = run(rt, script_run(script.as_bytes()), &mut out, &mut err)?;
    Ok(status == Status::Done && out.bytes().ends_with(text.as_bytes()) && err.bytes().is_empty())
}

/// Whether a tree of 1,000 blocks escapes whole.
fn tree_escapes<R: Threads + Wait + Sync>(rt: &Host<'_, R>) -> Result<bool, Fail> {
    let mut script = String::new(rt.alloc());
    for _ in 0..500 {
        script.push_str(
            "1 new r1 scanned 2\n1 new r2 scanned 0\n1 store r1 0 r0\n1 store r1 1 r2\n1 copy r0 r1\n",
        )?;
    }
    script.push_str("1 stats\n1 setroot g0 r0\n1 stats\n")?;
    text_ends(rt, script.as_str(), 200_000, TREE_TEXT)
}

const TREE_TEXT: &str =
    "1 stats = blocks 0 quanta 0 retained 0 weak 0 assocs 0\n1 setroot g0 r0 = ok\n1 stats = blocks 1000 quanta 1000 retained 0 weak 0 assocs 0\n1 leave = reclaimed none\nend entries 2504 blocks 1000 quanta 1000 retained 0 weak 0 assocs 0\n";

#[test]
fn a_tree_of_1000_blocks_escapes_in_one_call(rt: HostRuntime) -> Result<(), Fail> {
    assert!(rt; tree_escapes(&Host::of(&rt, rt.alloc()))?);
    Ok(())
}

#[test]
fn scripts_are_refused(rt: HostRuntime) -> Result<(), Fail> {
    let rows: [(&[u8], &str); 9] = [
        (b"\n1 mark", "autozone: line 2: NoCall\n"),
        (
            b"1 new r0 scanned 4097\n",
            "autozone: line 1: WrongArgument\n",
        ),
        (
            b"1 new r0 scanned 2\n1 setroot g",
            "autozone: line 2: WrongArgument\n",
        ),
        (
            b"1 new r0 scanned 2\n1 \xff\n",
            "autozone: line 2: NotText\n",
        ),
        (b"17 stats\n", "autozone: line 1: NoThread\n"),
        (b"1 mark\n", "autozone: line 1: NoCall\n"),
        (b"1 stats now\n", "autozone: line 1: TooManyArguments\n"),
        (
            b"1 new r0 object SP more\n",
            "autozone: line 1: TooManyArguments\n",
        ),
        (b"1 stats\noption heap 1\n", "autozone: line 2: NoThread\n"),
    ];
    for (script, text) in &rows {
        assert!(rt; is_refused(&Host::of(&rt, rt.alloc()), script, text)?);
    }
    Ok(())
}

/// Whether a script of so many of the byte is refused, and this is said; it is played where nothing is said.
fn repeated<R: Threads + Wait + Sync>(
    rt: &Host<'_, R>,
    byte: u8,
    size: usize,
    err: &str,
) -> Result<bool, Fail> {
    let script = vec![in rt.alloc(); byte; size]?;
    if err.is_empty() {
        let empty = "end entries 0 blocks 0 quanta 0 retained 0 weak 0 assocs 0\n";
        let end = End {
            status: Status::Done,
            out: empty,
            err,
        };
        return ends(rt, script_run(&script), end);
    }
    is_refused(rt, &script, err)
}

#[test]
fn lines_have_bounds(rt: HostRuntime) -> Result<(), Fail> {
    let rows = [
        (b' ', 8193, "autozone: line 1: LineTooLong\n"),
        (b' ', 8192, ""),
        (b'\n', 65_537, "autozone: line 65537: TooManyLines\n"),
        (b'\n', 65_536, ""),
    ];
    for (byte, size, err) in &rows {
        assert!(rt; repeated(&Host::of(&rt, rt.alloc()), *byte, *size, err)?);
    }
    Ok(())
}
