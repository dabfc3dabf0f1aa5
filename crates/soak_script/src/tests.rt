//! The generated script, line by line, as another reading of its rule gives it.
use crate::soak_script;
use heap_script::print;
use std::alloc::Global;

/// The printed script is this text.
fn is_printed(alloc: Global, start: u64, calls: u32, text: &str) -> bool {
    let Ok(script) = soak_script(alloc, start, calls) else {
        return false;
    };
    let Ok(printed) = print(alloc, &script) else {
        return false;
    };
    printed.as_str() == text
}

/// Thirty lines, in which each call and each collection comes.
static LINES: &str = "\
3 new r0 object SSWP\n\
1 setroot g2 r2\n\
1 new r3 object SSWP\n\
4 copy r3 r3\n\
4 setassoc r0 k3 r2\n\
1 copy r3 r3\n\
4 copy r2 r3\n\
2 new r3 object SSWP\n\
3 new r0 object SSWP\n\
2 new r3 object SSWP\n\
4 new r2 object SSWP\n\
2 setassoc r3 k3 r0\n\
4 store r0 1 r1\n\
3 retain r0\n\
1 setweak w2 r3\n\
2 setassoc r2 k3 r2\n\
4 collect young\n\
3 getroot r1 g2\n\
4 setroot g0 r0\n\
3 setweak w0 r0\n\
2 new r2 object SSWP\n\
3 stats\n\
3 release r0\n\
1 collect full\n\
4 load r3 r0 1\n\
4 getroot r2 g2\n\
2 collect local\n\
4 readweak r0 w3\n\
2 setweak w3 r0\n\
4 drop r2\n\
";

#[test]
fn first_line_from_zero(rt: HostRuntime) {
    assert!(rt; is_printed(rt.alloc(), 0, 1, "2 new r1 object SSWP\n"));
}

#[test]
fn each_call_comes(rt: HostRuntime) {
    assert!(rt; is_printed(rt.alloc(), 759, 30, LINES));
}

#[test]
fn largest_start(rt: HostRuntime) {
    assert!(rt; is_printed(rt.alloc(), u64::MAX, 2, "4 setweak w3 r3\n4 copy r1 r1\n"));
}
