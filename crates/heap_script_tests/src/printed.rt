//! What is printed of scripts: the lines of a realistic script of four threads, and options.
use heap_script::{parse, print};
use std::alloc::Global;

/// A tree with weak parents, a cache, and temporaries.
static LINES: &str = "1 new r0 object SWP
1 new r1 object SWP
1 store r0 0 r1
1 put r1 2 42
1 setweak r1 1 r0
1 setroot g0 r0
2 getroot r0 g0
2 new r1 unscanned 16
2 put r1 3 9
2 setassoc r0 k1 r1
3 new r0 scanned 4
3 new r1 scanned 4
3 store r0 0 r1
3 store r1 0 r0
3 drop r0
3 drop r1
3 collect local
3 getroot r2 g0
4 new r0 object P keep g9
4 new r1 scanned 1
4 store r1 0 r0
4 setroot g1 r1
4 retain r0
4 drop r0
4 drop r1
4 collect young
1 drop r0
1 load r2 r1 0
1 readweak r3 r1 1
1 setroot g0 r4
1 drop r1
1 drop r3
2 drop r0
2 get r1 3
2 drop r1
3 drop r2
3 stats
4 setroot g1 r5
1 collect full
4 take r0 4.0
4 release r0
4 drop r0
4 collect full
2 collect full
";

/// The other calls, and the ends of ranges.
static CALLS: &str = "16 new r15 object SWPPWS keep g255 pass g0 4294967295
16 new r15 unscanned 4096
16 put r15 4294967295 18446744073709551615
16 copy r14 r15
16 count r15
16 getassoc r1 r2 k255
16 setweak w255 r0
16 readweak r0 w0
16 take r0 16.4294967295
";

/// Sixteen threads by turns, and local collections.
static THREADS: &str = "option pending 1
16 new r0 scanned 1
3 new r15 scanned 1
1 collect local
2 stats
4 stats
5 stats
15 stats
14 stats
13 stats
12 stats
11 stats
10 stats
9 stats
8 stats
7 stats
6 stats
3 drop r15
3 collect local
16 setroot g0 r0
";

/// A script is printed as this text, and what is printed is printed so again.
fn is_printed_as(alloc: Global, script: &[u8], text: &str) -> Option<bool> {
    let script = parse(alloc, script).ok()?;
    let printed = print(alloc, &script).ok()?;
    let again = parse(alloc, printed.as_bytes()).ok()?;
    let second = print(alloc, &again).ok()?;
    Some(printed.as_str() == text && second.as_str() == text)
}

#[test]
fn four_threads_are_printed(rt: HostRuntime) {
    assert!(rt; is_printed_as(rt.alloc(), LINES.as_bytes(), LINES) == Some(true));
}

#[test]
fn all_calls_are_printed(rt: HostRuntime) {
    assert!(rt; is_printed_as(rt.alloc(), CALLS.as_bytes(), CALLS) == Some(true));
}

#[test]
fn options_stand_once_and_in_order(rt: HostRuntime) {
    let script =
        b"option pending 1\noption heap 9\noption counts 4294967295\n# c\noption serials 1\noption local 0\noption heap 0004\n\n01 new\tr00 scanned  2\n".as_slice();
    let text =
        "option heap 4\noption local 0\noption serials 1\noption pending 1\n1 new r0 scanned 2\n";
    assert!(rt; is_printed_as(rt.alloc(), script, text) == Some(true));
}

#[test]
fn sixteen_threads_are_read_and_printed(rt: HostRuntime) {
    assert!(rt; is_printed_as(rt.alloc(), THREADS.as_bytes(), THREADS) == Some(true));
}

#[test]
fn usual_options_are_not_printed(rt: HostRuntime) {
    let script =
        b"option heap 1048576\noption local 65536\noption serials 4294967296\noption pending 4096\n".as_slice();
    assert!(rt; is_printed_as(rt.alloc(), script, "") == Some(true));
}
