//! Many lines of many threads. The text is read back, and each thread's lines are looked for in it, in their order.
use crate::tests::{Host, big_sink, ran};
use history_text::read_text;
use std::alloc::Global;
use std::fmt::Write;
use std::str;
use std::str::Lines;
use std::sync::Wait;
use std::test::*;
use std::thread::Threads;

/// More lines than a text here has.
const MOST_LINES: u32 = 1_000_000;

/// Each thread puts blocks of its own into one root, and looks at what is there.
const SHARED: &str = "new r0 scanned 0
setroot g0 r0
getroot r1 g0
";

/// Blocks that escape and that don't, with finalisers, associations and weak locations, and every kind of collection.
const COLLECTED: &str = "new r0 scanned 2
new r1 object SW keep g3
store r0 0 r1
getroot r2 g0
setassoc r2 k1 r0
setroot g0 r0
getroot r3 g3
store r0 1 r3
setweak w0 r0
readweak r4 w0
copy r5 r4
drop r1
drop r0
collect local
collect full
stats
new r0 scanned 1
new r1 unscanned 1
store r0 0 r1
put r1 0 7
copy r2 r0
drop r0
collect local
load r0 r2 0
get r0 0
setroot g1 r2
getroot r6 g0
load r7 r6 0
retain r7
release r7
collect young
count r7
";

/// Threads 1 and on, each of which does these calls so often.
#[derive(Clone, Copy)]
struct Crowd<'a> {
    threads: u32,
    calls: &'a str,
    times: u32,
}

/// The script of a crowd, one thread after the other.
fn script_of(alloc: Global, crowd: Crowd) -> Result<String, Fail> {
    let mut script = String::new(alloc);
    for thread in 1..=crowd.threads {
        for _ in 0..crowd.times {
            for call in crowd.calls.lines() {
                writeln!(script, "{thread} {call}")?;
            }
        }
    }
    Ok(script)
}

/// The call and the reply of the next line that begins so.
fn next_entry<'a>(lines: &mut Lines<'a>, beginning: &str) -> Option<(&'a str, &'a str)> {
    for line in lines {
        if let Some(rest) = line.strip_prefix(beginning) {
            return rest.split_once(" = ");
        }
    }
    None
}

/// Whether the rest of a collection that has begun is next.
fn is_collected(lines: &mut Lines, beginning: &str) -> bool {
    let Some(("condemn", _)) = next_entry(lines, beginning) else {
        return false;
    };
    for _ in 0..MOST_LINES {
        match next_entry(lines, beginning) {
            Some(("finalise", _)) => {}
            Some((call, _)) => return call == "reclaim",
            None => return false,
        }
    }
    false
}

/// Whether what was asked for is next.
fn is_next(lines: &mut Lines, beginning: &str, asked: &str) -> bool {
    let Some((call, reply)) = next_entry(lines, beginning) else {
        return false;
    };
    let mode = match asked {
        "collect full" => "begin full",
        "collect young" => "begin young",
        _ => return call == asked,
    };
    call == mode && (reply == "busy" || is_collected(lines, beginning))
}

/// Whether the calls so often, and then the leave, are all that the thread has in the text.
fn has_all_of(text: &str, beginning: &str, crowd: Crowd) -> bool {
    let mut lines = text.lines();
    for _ in 0..crowd.times {
        for call in crowd.calls.lines() {
            if !is_next(&mut lines, beginning, call) {
                return false;
            }
        }
    }
    is_next(&mut lines, beginning, "leave") && next_entry(&mut lines, beginning).is_none()
}

/// Whether the text is read as a history that has an entry for each line but the last.
fn is_read(alloc: Global, text: &str) -> bool {
    match read_text(alloc, text.as_bytes()) {
        Ok(history) => history.journal.entries().len().checked_add(1) == Some(text.lines().count()),
        Err(_) => false,
    }
}

/// Whether the text is one of a run of the crowd.
fn is_of(alloc: Global, text: &str, crowd: Crowd) -> Result<bool, Fail> {
    if !is_read(alloc, text) {
        return Ok(false);
    }
    for thread in 1..=crowd.threads {
        let beginning = format!(in alloc; "{thread} ")?;
        if !has_all_of(text, &beginning, crowd) {
            return Ok(false);
        }
    }
    Ok(true)
}

/// Whether a run of the crowd has all lines, and its last line begins so.
fn runs<R: Threads + Wait + Sync>(
    rt: &Host<'_, R>,
    crowd: Crowd,
    last: &str,
) -> Result<bool, Fail> {
    let alloc = rt.alloc();
    let script = script_of(alloc, crowd)?;
    let mut out = big_sink(alloc)?;
    let done = ran(rt, &script, &mut out)?;
    let Ok(text) = str::from_utf8(out.bytes()) else {
        return Ok(false);
    };
    let ends = text
        .lines()
        .last()
        .is_some_and(|line| line.starts_with(last));
    Ok(done && ends && is_of(alloc, text, crowd)?)
}

#[test]
fn sixteen_threads_share_a_root(rt: HostRuntime) -> Result<(), Fail> {
    let crowd = Crowd {
        threads: 16,
        calls: SHARED,
        times: 1_000,
    };
    let last = "end entries 48016 blocks 16000 quanta 16000 retained 0 weak 0 assocs 0";
    let all = runs(&Host::of(&rt, rt.alloc()), crowd, last)?;
    assert!(rt; all);
    Ok(())
}

#[test]
fn four_threads_collect_beside_each_other(rt: HostRuntime) -> Result<(), Fail> {
    let crowd = Crowd {
        threads: 4,
        calls: COLLECTED,
        times: 500,
    };
    let all = runs(&Host::of(&rt, rt.alloc()), crowd, "end entries ")?;
    assert!(rt; all);
    Ok(())
}
