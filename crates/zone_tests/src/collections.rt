//! Scripts that collect escaped blocks, each beside its history, and generated scripts in which such collections come.
use crate::tests::{Host, is_played, is_written, sink, written};
use std::alloc::Global;
use std::sync::Wait;
use std::test::*;
use std::thread::Threads;

#[test]
fn escaped_blocks_are_collected(rt: HostRuntime) -> Result<(), Fail> {
    let rows = [
        // Two blocks that refer to each other are reclaimed together.
        (
            "1 new r0 scanned 1
1 new r1 scanned 1
1 store r0 0 r1
1 store r1 0 r0
1 setroot g0 r0
1 drop r0
1 drop r1
1 setroot g0 r0
1 collect full
",
            "1 new r0 scanned 1 = 1.0
1 new r1 scanned 1 = 1.1
1 store r0 0 r1 = ok
1 store r1 0 r0 = ok
1 setroot g0 r0 = ok
1 drop r0 = ok
1 drop r1 = ok
1 setroot g0 r0 = ok
1 begin full = begun
1 condemn = condemned 1.0 1.1
1 reclaim = reclaimed 1.0 1.1 kept none
1 leave = reclaimed none
end entries 12 blocks 0 quanta 0 retained 0 weak 0 assocs 0
",
        ),
        // An association keeps its value while its object lives.
        (
            "1 new r0 scanned 0
1 new r1 scanned 0
1 setassoc r0 k5 r1
1 drop r1
1 collect full
1 getassoc r2 r0 k5
1 drop r0
1 drop r2
1 collect full
",
            "1 new r0 scanned 0 = 1.0
1 new r1 scanned 0 = 1.1
1 setassoc r0 k5 r1 = null
1 drop r1 = ok
1 begin full = begun
1 condemn = condemned none
1 reclaim = reclaimed none kept none
1 getassoc r2 r0 k5 = 1.1
1 drop r0 = ok
1 drop r2 = ok
1 begin full = begun
1 condemn = condemned 1.0 1.1
1 reclaim = reclaimed 1.0 1.1 kept none
1 leave = reclaimed none
end entries 14 blocks 0 quanta 0 retained 0 weak 0 assocs 0
",
        ),
        // A weak location shows null once its block is condemned.
        (
            "1 new r0 scanned 0
1 setweak w0 r0
1 readweak r1 w0
1 drop r0
1 drop r1
1 collect full
1 readweak r1 w0
1 new r2 scanned 0
1 setweak w0 r2
1 readweak r3 w0
",
            "1 new r0 scanned 0 = 1.0
1 setweak w0 r0 = 1.0
1 readweak r1 w0 = 1.0
1 drop r0 = ok
1 drop r1 = ok
1 begin full = begun
1 condemn = condemned 1.0
1 reclaim = reclaimed 1.0 kept none
1 readweak r1 w0 = null
1 new r2 scanned 0 = 1.1
1 setweak w0 r2 = 1.1
1 readweak r3 w0 = 1.1
1 leave = reclaimed none
end entries 13 blocks 1 quanta 1 retained 0 weak 1 assocs 0
",
        ),
        // A finaliser keeps its block, and runs once.
        (
            "1 new r0 object S keep g3
1 drop r0
1 collect full
1 setroot g3 r0
1 collect full
",
            "1 new r0 object S keep g3 = 1.0
1 drop r0 = ok
1 begin full = begun
1 condemn = condemned 1.0
1 finalise = finalised 1.0
1 reclaim = reclaimed none kept 1.0
1 setroot g3 r0 = ok
1 begin full = begun
1 condemn = condemned 1.0
1 reclaim = reclaimed 1.0 kept none
1 leave = reclaimed none
end entries 11 blocks 0 quanta 0 retained 0 weak 0 assocs 0
",
        ),
        // A collection knows what another thread holds.
        (
            "1 new r0 scanned 0
1 setroot g0 r0
2 getroot r0 g0
1 drop r0
1 setroot g0 r0
1 collect full
2 drop r0
2 collect full
",
            "1 new r0 scanned 0 = 1.0
1 setroot g0 r0 = ok
2 getroot r0 g0 = 1.0
1 drop r0 = ok
1 setroot g0 r0 = ok
1 begin full = begun
1 condemn = condemned none
1 reclaim = reclaimed none kept none
2 drop r0 = ok
2 begin full = begun
2 condemn = condemned 1.0
2 reclaim = reclaimed 1.0 kept none
1 leave = reclaimed none
2 leave = reclaimed none
end entries 14 blocks 0 quanta 0 retained 0 weak 0 assocs 0
",
        ),
        // An old block keeps a young one, also where it is dead itself.
        (
            "option local 0
1 new r0 scanned 1
1 collect full
1 collect full
1 collect full
1 new r1 scanned 0
1 store r0 0 r1
1 drop r1
1 collect young
1 load r1 r0 0
1 drop r0
1 drop r1
1 collect young
1 collect full
",
            "option local 0
1 new r0 scanned 1 = 1.0
1 begin full = begun
1 condemn = condemned none
1 reclaim = reclaimed none kept none
1 begin full = begun
1 condemn = condemned none
1 reclaim = reclaimed none kept none
1 begin full = begun
1 condemn = condemned none
1 reclaim = reclaimed none kept none
1 new r1 scanned 0 = 1.1
1 store r0 0 r1 = ok
1 drop r1 = ok
1 begin young = begun
1 condemn = condemned none
1 reclaim = reclaimed none kept none
1 load r1 r0 0 = 1.1
1 drop r0 = ok
1 drop r1 = ok
1 begin young = begun
1 condemn = condemned none
1 reclaim = reclaimed none kept none
1 begin full = begun
1 condemn = condemned 1.0 1.1
1 reclaim = reclaimed 1.0 1.1 kept none
1 leave = reclaimed none
end entries 26 blocks 0 quanta 0 retained 0 weak 0 assocs 0
",
        ),
        // A tree with weak parents, a cache, and temporaries, of four threads.
        (
            "# a tree with weak parents, a cache, temporaries
1 new r0 object SWP
1 new r1 object SWP
1 store r0 0 r1
1 put r1 2 42
1 setweak r1 1 r0
1 setroot g0 r0
2 getroot r0 g0
2 new r1 unscanned 16
2 put r1 3 9
2 setassoc r0 k1 r1
3 new r0 scanned 4
3 new r1 scanned 4
3 store r0 0 r1
3 store r1 0 r0
3 drop r0
3 drop r1
3 collect local
3 getroot r2 g0
4 new r0 object P keep g9
4 new r1 scanned 1
4 store r1 0 r0
4 setroot g1 r1
4 retain r0
4 drop r0
4 drop r1
4 collect young
1 drop r0
1 load r2 r1 0
1 readweak r3 r1 1
1 setroot g0 r4
1 drop r1
1 drop r3
2 drop r0
2 get r1 3
2 drop r1
3 drop r2
3 stats
4 setroot g1 r5
1 collect full
4 take r0 4.0
4 release r0
4 drop r0
4 collect full
2 collect full
",
            "1 new r0 object SWP = 1.0
1 new r1 object SWP = 1.1
1 store r0 0 r1 = ok
1 put r1 2 42 = ok
1 setweak r1 1 r0 = 1.0
1 setroot g0 r0 = ok
2 getroot r0 g0 = 1.0
2 new r1 unscanned 16 = 2.0
2 put r1 3 9 = ok
2 setassoc r0 k1 r1 = null
3 new r0 scanned 4 = 3.0
3 new r1 scanned 4 = 3.1
3 store r0 0 r1 = ok
3 store r1 0 r0 = ok
3 drop r0 = ok
3 drop r1 = ok
3 collect local = reclaimed 3.0 3.1
3 getroot r2 g0 = 1.0
4 new r0 object P keep g9 = 4.0
4 new r1 scanned 1 = 4.1
4 store r1 0 r0 = ok
4 setroot g1 r1 = ok
4 retain r0 = 1
4 drop r0 = ok
4 drop r1 = ok
4 begin young = begun
4 condemn = condemned none
4 reclaim = reclaimed none kept none
1 drop r0 = ok
1 load r2 r1 0 = null
1 readweak r3 r1 1 = 1.0
1 setroot g0 r4 = ok
2 drop r0 = ok
2 get r1 3 = 9
3 drop r2 = ok
3 stats = blocks 5 quanta 14 retained 1 weak 1 assocs 1
4 setroot g1 r5 = ok
1 drop r1 = ok
1 drop r3 = ok
1 begin full = begun
1 condemn = condemned 1.0 1.1 4.1
1 reclaim = reclaimed 1.0 1.1 4.1 kept none
4 take r0 4.0 = 4.0
4 release r0 = 0
4 drop r0 = ok
4 begin full = begun
4 condemn = condemned 4.0
4 finalise = finalised 4.0
4 reclaim = reclaimed none kept 4.0
2 drop r1 = ok
2 begin full = begun
2 condemn = condemned 2.0
2 reclaim = reclaimed 2.0 kept none
1 leave = reclaimed none
2 leave = reclaimed none
3 leave = reclaimed none
4 leave = reclaimed none
end entries 57 blocks 1 quanta 1 retained 0 weak 0 assocs 0
",
        ),
    ];
    for (script, text) in &rows {
        assert!(rt; is_played(&Host::of(&rt, rt.alloc()), script, text)?);
    }
    Ok(())
}

// The numbers are those of a model that has paths and sets alone.
#[test]
fn generated_scripts_collect(rt: HostRuntime) -> Result<(), Fail> {
    let rows: [(&[&str], &str); 2] = [
        (
            &["soak", "759", "30"],
            "soak 759 30 entries 38 reclaimed 4 misuses 4\nend entries 38 blocks 3 quanta 6 retained 0 weak 2 assocs 0\n",
        ),
        (
            &["soak", "7", "1000"],
            "soak 7 1000 entries 1078 reclaimed 212 misuses 128\nend entries 1078 blocks 33 quanta 66 retained 19 weak 1 assocs 8\n",
        ),
    ];
    for (words, text) in &rows {
        assert!(rt; is_written(&Host::of(&rt, rt.alloc()), words, text)?);
    }
    Ok(())
}

/// The number of entries that a summary tells; None where the text is none.
fn entries_in(text: &str) -> Option<u64> {
    let rest = text.strip_prefix("soak 7 65536 entries ")?;
    let (number, _) = rest.split_once(" reclaimed ")?;
    number.parse::<u64>().ok()
}

/// Whether the longest script is played twice alike, with no fewer entries than it has calls.
fn longest_soak<R: Threads + Wait + Sync>(rt: &Host<'_, R>) -> Result<bool, Fail> {
    let words: &[&str] = &["soak", "7", "65536"];
    let mut one = sink(rt.alloc(), 0)?;
    let mut other = sink(rt.alloc(), 0)?;
    let first = written(rt, words, &mut one)?;
    let second = written(rt, words, &mut other)?;
    let many = match str::from_utf8(one.bytes()) {
        Ok(text) => entries_in(text),
        Err(_) => None,
    };
    Ok(first && second && one.bytes() == other.bytes() && many >= Some(65_536))
}

#[test]
fn the_longest_soak_is_the_same_each_time(rt: HostRuntime) -> Result<(), Fail> {
    assert!(rt; longest_soak(&Host::of(&rt, rt.alloc()))?);
    Ok(())
}
