//! Scripts that are run by threads. The order of threads depends on the schedule, so each thread's lines are looked at apart.
use crate::tests::{Host, ends_so, ran};
use az_outside::MemorySink;
use std::str;
use std::sync::Wait;
use std::test::*;
use std::thread::Threads;
use zone_commands::Status;

/// Whether the lines that begin so are these, in their order.
fn has_lines(text: &str, beginning: &str, wanted: &[&str]) -> bool {
    let mut left = wanted.iter();
    for line in text.lines() {
        if line.starts_with(beginning) {
            match left.next() {
                Some(next) if *next == line => {}
                _ => return false,
            }
        }
    }
    left.next().is_none()
}

/// Whether the text of this run has these lines of threads 1 and 2, and this last line.
fn has_all(out: &MemorySink, first: &[&str], second: &[&str], last: &str) -> bool {
    let Ok(text) = str::from_utf8(out.bytes()) else {
        return false;
    };
    has_lines(text, "1 ", first)
        && has_lines(text, "2 ", second)
        && has_lines(text, "end ", &[last])
}

/// Whether a run of this script by two threads gives these lines.
fn two_threads<R: Threads + Wait + Sync>(
    rt: &Host<'_, R>,
    script: &str,
    first: &[&str],
    second: &[&str],
    last: &str,
) -> Result<bool, Fail> {
    let mut out = crate::tests::sink(rt.alloc(), 0)?;
    let done = ran(rt, script, &mut out)?;
    Ok(done && has_all(&out, first, second, last))
}

#[test]
fn one_thread_runs_as_it_plays(rt: HostRuntime) -> Result<(), Fail> {
    let rows = [
        (
            "",
            "end entries 0 blocks 0 quanta 0 retained 0 weak 0 assocs 0\n",
        ),
        (
            "1 new r0 scanned 2\n",
            "1 new r0 scanned 2 = 1.0\n1 leave = reclaimed 1.0\nend entries 2 blocks 0 quanta 0 retained 0 weak 0 assocs 0\n",
        ),
        (
            "1 new r0 scanned 0\n1 setroot g0 r0\n1 drop r0\n1 setroot g0 r0\n1 collect full\n",
            "1 new r0 scanned 0 = 1.0\n1 setroot g0 r0 = ok\n1 drop r0 = ok\n1 setroot g0 r0 = ok\n1 begin full = begun\n1 condemn = condemned 1.0\n1 reclaim = reclaimed 1.0 kept none\n1 leave = reclaimed none\nend entries 8 blocks 0 quanta 0 retained 0 weak 0 assocs 0\n",
        ),
    ];
    let mut all = true;
    for (script, text) in &rows {
        all = all && ends_so(&Host::of(&rt, rt.alloc()), script, Status::Done, text, "")?;
    }
    assert!(rt; all);
    Ok(())
}

#[test]
fn a_script_that_is_none_is_refused_before_it_runs(rt: HostRuntime) -> Result<(), Fail> {
    let refused = ends_so(
        &Host::of(&rt, rt.alloc()),
        "1 stats\n1 nothing\n",
        Status::ScriptRefused,
        "",
        "autozone: line 2: NoCall\n",
    )?;
    assert!(rt; refused);
    Ok(())
}

#[test]
fn each_of_two_threads_does_its_lines_in_order(rt: HostRuntime) -> Result<(), Fail> {
    let script =
        "2 new r0 scanned 0\n1 new r0 scanned 1\n1 store r0 0 r0\n2 setroot g1 r0\n1 setroot g0 r0\n";
    let first = [
        "1 new r0 scanned 1 = 1.0",
        "1 store r0 0 r0 = ok",
        "1 setroot g0 r0 = ok",
        "1 leave = reclaimed none",
    ];
    let second = [
        "2 new r0 scanned 0 = 2.0",
        "2 setroot g1 r0 = ok",
        "2 leave = reclaimed none",
    ];
    let last = "end entries 7 blocks 2 quanta 2 retained 0 weak 0 assocs 0";
    let found = two_threads(&Host::of(&rt, rt.alloc()), script, &first, &second, last)?;
    assert!(rt; found);
    Ok(())
}
