//! Scripts of several threads: where each entry stands in the history, what escapes to others, and what a thread
//! collects by itself.
use crate::tests::{Host, is_played};
use std::alloc::Global;
use std::sync::Wait;
use std::test::*;
use std::thread::Threads;

#[test]
fn entries_wait_for_their_thread(rt: HostRuntime) -> Result<(), Fail> {
    let rows = [
        // Local calls wait until their thread publishes.
        (
            "2 new r0 scanned 0
1 new r0 scanned 1
1 store r0 0 r0
2 setroot g1 r0
1 setroot g0 r0
",
            "2 new r0 scanned 0 = 2.0
2 setroot g1 r0 = ok
1 new r0 scanned 1 = 1.0
1 store r0 0 r0 = ok
1 setroot g0 r0 = ok
1 leave = reclaimed none
2 leave = reclaimed none
end entries 7 blocks 2 quanta 2 retained 0 weak 0 assocs 0
",
        ),
        // Where as many wait as may, they are published first.
        (
            "option pending 2
1 new r0 scanned 0
1 copy r1 r0
2 stats
1 drop r0
2 stats
1 drop r1
",
            "option pending 2
2 stats = blocks 0 quanta 0 retained 0 weak 0 assocs 0
1 new r0 scanned 0 = 1.0
1 copy r1 r0 = ok
2 stats = blocks 0 quanta 0 retained 0 weak 0 assocs 0
1 drop r0 = ok
1 drop r1 = ok
1 leave = reclaimed 1.0
2 leave = reclaimed none
end entries 8 blocks 0 quanta 0 retained 0 weak 0 assocs 0
",
        ),
        // Where one may wait, the next local call publishes it.
        (
            "option pending 1
1 new r0 unscanned 1
2 new r0 scanned 1
1 put r0 0 5
2 stats
1 get r0 0
2 store r0 0 r0
1 count r0
",
            "option pending 1
1 new r0 unscanned 1 = 1.0
2 new r0 scanned 1 = 2.0
2 stats = blocks 0 quanta 0 retained 0 weak 0 assocs 0
1 put r0 0 5 = ok
1 get r0 0 = 5
1 count r0 = 0
1 leave = reclaimed 1.0
2 store r0 0 r0 = ok
2 leave = reclaimed 2.0
end entries 9 blocks 0 quanta 0 retained 0 weak 0 assocs 0
",
        ),
        // Threads end in ascending number, whatever waits.
        (
            "3 new r0 scanned 1
1 new r0 scanned 2
3 new r1 scanned 0
2 new r0 scanned 3
3 setroot g0 r1
2 collect local
1 drop r0
",
            "3 new r0 scanned 1 = 3.0
3 new r1 scanned 0 = 3.1
3 setroot g0 r1 = ok
1 new r0 scanned 2 = 1.0
1 drop r0 = ok
1 leave = reclaimed 1.0
2 new r0 scanned 3 = 2.0
2 collect local = reclaimed none
2 leave = reclaimed 2.0
3 leave = reclaimed 3.0
end entries 10 blocks 1 quanta 1 retained 0 weak 0 assocs 0
",
        ),
        // A misuse of a call that others can see publishes.
        (
            "1 new r0 scanned 1
2 new r0 object SW
1 store r0 1 r0
1 retain r1
2 release r0
1 copy r1 r0
2 take r1 1.0
1 readweak r2 r0 0
2 setweak r0 0 r0
1 store r2 0 r1
2 stats
",
            "1 new r0 scanned 1 = 1.0
1 store r0 1 r0 = misuse 2 NoWord
1 retain r1 = misuse 1 NullBlock
2 new r0 object SW = 2.0
2 release r0 = misuse 4 OverRelease
2 take r1 1.0 = misuse 8 NotHeld
1 copy r1 r0 = ok
1 readweak r2 r0 0 = misuse 3 WrongClass
2 setweak r0 0 r0 = misuse 3 WrongClass
2 stats = blocks 0 quanta 0 retained 0 weak 0 assocs 0
1 store r2 0 r1 = misuse 1 NullBlock
1 leave = reclaimed 1.0
2 leave = reclaimed 2.0
end entries 13 blocks 0 quanta 0 retained 0 weak 0 assocs 0
",
        ),
        // A misuse of a local call waits, and each thread has its own serials.
        (
            "option serials 1
2 new r0 scanned 0
1 new r0 scanned 0
1 new r1 scanned 0
2 load r1 r2 0
1 store r0 0 r0
2 setroot g0 r0
1 getroot r1 g0
",
            "option serials 1
2 new r0 scanned 0 = 2.0
2 load r1 r2 0 = misuse 1 NullBlock
2 setroot g0 r0 = ok
1 new r0 scanned 0 = 1.0
1 new r1 scanned 0 = misuse 6 SerialsUsed
1 store r0 0 r0 = misuse 2 NoWord
1 getroot r1 g0 = 2.0
1 leave = reclaimed 1.0
2 leave = reclaimed none
end entries 9 blocks 1 quanta 1 retained 0 weak 0 assocs 0
",
        ),
    ];
    for (script, text) in &rows {
        assert!(rt; is_played(&Host::of(&rt, rt.alloc()), script, text)?);
    }
    Ok(())
}

#[test]
fn local_collections(rt: HostRuntime) -> Result<(), Fail> {
    let rows = [
        // What a local collection takes, and what a root keeps.
        (
            "1 new r0 scanned 1
1 new r1 scanned 1
1 new r2 scanned 1
1 store r0 0 r1
1 store r1 0 r2
1 store r2 0 r0
1 drop r0
1 drop r1
1 drop r2
1 collect local
",
            "1 new r0 scanned 1 = 1.0
1 new r1 scanned 1 = 1.1
1 new r2 scanned 1 = 1.2
1 store r0 0 r1 = ok
1 store r1 0 r2 = ok
1 store r2 0 r0 = ok
1 drop r0 = ok
1 drop r1 = ok
1 drop r2 = ok
1 collect local = reclaimed 1.0 1.1 1.2
1 leave = reclaimed none
end entries 11 blocks 0 quanta 0 retained 0 weak 0 assocs 0
",
        ),
        (
            "1 new r0 scanned 1
1 new r1 scanned 1
1 new r2 scanned 1
1 store r0 0 r1
1 store r1 0 r2
1 store r2 0 r0
1 setroot g0 r0
1 drop r0
1 drop r1
1 drop r2
1 collect local
",
            "1 new r0 scanned 1 = 1.0
1 new r1 scanned 1 = 1.1
1 new r2 scanned 1 = 1.2
1 store r0 0 r1 = ok
1 store r1 0 r2 = ok
1 store r2 0 r0 = ok
1 setroot g0 r0 = ok
1 drop r0 = ok
1 drop r1 = ok
1 drop r2 = ok
1 collect local = reclaimed none
1 leave = reclaimed none
end entries 12 blocks 3 quanta 3 retained 0 weak 0 assocs 0
",
        ),
        // A register that is overwritten after its block was published: others find the block, and no local collection takes it.
        (
            "1 new r0 scanned 1
1 setroot g0 r0
2 getroot r0 g0
1 new r0 scanned 0
2 setroot g0 r5
2 drop r0
2 collect local
2 stats
1 collect local
1 drop r0
1 collect local
1 getroot r1 g0
2 stats
",
            "1 new r0 scanned 1 = 1.0
1 setroot g0 r0 = ok
2 getroot r0 g0 = 1.0
2 setroot g0 r5 = ok
2 drop r0 = ok
2 collect local = reclaimed none
2 stats = blocks 1 quanta 1 retained 0 weak 0 assocs 0
1 new r0 scanned 0 = 1.1
1 collect local = reclaimed none
1 drop r0 = ok
1 collect local = reclaimed 1.1
1 getroot r1 g0 = null
2 stats = blocks 1 quanta 1 retained 0 weak 0 assocs 0
1 leave = reclaimed none
2 leave = reclaimed none
end entries 15 blocks 1 quanta 1 retained 0 weak 0 assocs 0
",
        ),
        // Each thread has room of its own for what it alone knows, and a local collection gives it back.
        (
            "option local 1
1 new r0 scanned 1
2 new r0 unscanned 2
1 new r1 scanned 0
2 drop r0
2 collect local
2 new r1 scanned 2
1 stats
2 new r2 scanned 0
2 stats
",
            "option local 1
1 new r0 scanned 1 = 1.0
1 new r1 scanned 0 = 1.1
1 stats = blocks 1 quanta 1 retained 0 weak 0 assocs 0
2 new r0 unscanned 2 = 2.0
2 drop r0 = ok
2 collect local = reclaimed 2.0
2 new r1 scanned 2 = 2.1
2 new r2 scanned 0 = 2.2
2 stats = blocks 2 quanta 2 retained 0 weak 0 assocs 0
1 leave = reclaimed 1.0
2 leave = reclaimed 2.1
end entries 11 blocks 2 quanta 2 retained 0 weak 0 assocs 0
",
        ),
    ];
    for (script, text) in &rows {
        assert!(rt; is_played(&Host::of(&rt, rt.alloc()), script, text)?);
    }
    Ok(())
}

#[test]
fn blocks_escape_to_other_threads(rt: HostRuntime) -> Result<(), Fail> {
    let rows = [
        // An escape that doesn't fit changes nothing.
        (
            "option heap 4
1 new r0 scanned 2
1 new r1 unscanned 8
1 store r0 0 r1
1 setroot g0 r0
1 collect local
1 setroot g0 r1
1 stats
",
            "option heap 4
1 new r0 scanned 2 = 1.0
1 new r1 unscanned 8 = 1.1
1 store r0 0 r1 = ok
1 setroot g0 r0 = misuse 7 ZoneFull
1 collect local = reclaimed none
1 setroot g0 r1 = ok
1 stats = blocks 1 quanta 4 retained 0 weak 0 assocs 0
1 leave = reclaimed 1.0
end entries 8 blocks 1 quanta 4 retained 0 weak 0 assocs 0
",
        ),
        // The zone is full in the midst of what waits: it is published, and the thread goes on.
        (
            "option heap 3
option local 2
1 new r0 scanned 4
2 new r0 scanned 1
2 new r1 scanned 1
1 setroot g0 r0
2 store r0 0 r1
2 setroot g1 r0
2 load r2 r0 0
2 new r3 scanned 3
2 copy r4 r2
2 getroot r5 g0
2 store r5 0 r1
2 drop r0
2 store r5 3 r1
2 collect local
2 setweak w0 r1
1 load r1 r0 0
",
            "option heap 3
option local 2
1 new r0 scanned 4 = 1.0
1 setroot g0 r0 = ok
2 new r0 scanned 1 = 2.0
2 new r1 scanned 1 = 2.1
2 store r0 0 r1 = ok
2 setroot g1 r0 = misuse 7 ZoneFull
2 load r2 r0 0 = 2.1
2 new r3 scanned 3 = misuse 7 ZoneFull
2 copy r4 r2 = ok
2 getroot r5 g0 = 1.0
2 store r5 0 r1 = ok
2 drop r0 = ok
2 store r5 3 r1 = ok
2 collect local = reclaimed 2.0
2 setweak w0 r1 = 2.1
1 load r1 r0 0 = 2.1
1 leave = reclaimed none
2 leave = reclaimed none
end entries 18 blocks 2 quanta 3 retained 0 weak 1 assocs 0
",
        ),
        // Blocks that escape from two threads refer to the same escaped block.
        (
            "1 new r0 object SP
1 put r0 1 7
1 setroot g0 r0
2 getroot r0 g0
3 getroot r0 g0
3 new r1 scanned 2
2 new r1 scanned 1
3 store r1 0 r0
2 store r1 0 r0
3 store r1 1 r1
3 drop r0
2 setroot g2 r1
3 setroot g3 r1
2 getroot r2 g3
2 load r3 r2 0
2 get r3 1
3 getroot r2 g2
3 load r3 r2 0
3 store r3 0 r1
1 load r1 r0 0
1 stats
",
            "1 new r0 object SP = 1.0
1 put r0 1 7 = ok
1 setroot g0 r0 = ok
2 getroot r0 g0 = 1.0
3 getroot r0 g0 = 1.0
2 new r1 scanned 1 = 2.0
2 store r1 0 r0 = ok
2 setroot g2 r1 = ok
3 new r1 scanned 2 = 3.0
3 store r1 0 r0 = ok
3 store r1 1 r1 = ok
3 drop r0 = ok
3 setroot g3 r1 = ok
2 getroot r2 g3 = 3.0
2 load r3 r2 0 = 1.0
2 get r3 1 = 7
3 getroot r2 g2 = 2.0
3 load r3 r2 0 = 1.0
3 store r3 0 r1 = ok
1 load r1 r0 0 = 3.0
1 stats = blocks 3 quanta 3 retained 0 weak 0 assocs 0
1 leave = reclaimed none
2 leave = reclaimed none
3 leave = reclaimed none
end entries 24 blocks 3 quanta 3 retained 0 weak 0 assocs 0
",
        ),
        // Local collections between publications of two threads.
        (
            "1 new r0 scanned 1
1 new r1 scanned 0
1 store r0 0 r1
2 new r0 scanned 2
2 new r1 scanned 1
1 setroot g0 r0
2 store r0 0 r1
1 drop r1
1 collect local
2 getroot r2 g0
2 store r1 0 r2
2 new r3 scanned 1
2 store r3 0 r0
2 drop r3
1 new r2 unscanned 3
2 collect local
1 drop r2
1 collect local
2 setroot g1 r0
2 drop r0
2 drop r1
2 collect local
1 getroot r3 g1
1 load r3 r3 0
1 load r3 r3 0
1 stats
",
            "1 new r0 scanned 1 = 1.0
1 new r1 scanned 0 = 1.1
1 store r0 0 r1 = ok
1 setroot g0 r0 = ok
2 new r0 scanned 2 = 2.0
2 new r1 scanned 1 = 2.1
2 store r0 0 r1 = ok
2 getroot r2 g0 = 1.0
2 store r1 0 r2 = ok
2 new r3 scanned 1 = 2.2
2 store r3 0 r0 = ok
2 drop r3 = ok
2 collect local = reclaimed 2.2
2 setroot g1 r0 = ok
1 drop r1 = ok
1 collect local = reclaimed none
1 new r2 unscanned 3 = 1.2
1 drop r2 = ok
1 collect local = reclaimed 1.2
1 getroot r3 g1 = 2.0
1 load r3 r3 0 = 2.1
1 load r3 r3 0 = 1.0
1 stats = blocks 4 quanta 4 retained 0 weak 0 assocs 0
1 leave = reclaimed none
2 drop r0 = ok
2 drop r1 = ok
2 collect local = reclaimed none
2 leave = reclaimed none
end entries 28 blocks 4 quanta 4 retained 0 weak 0 assocs 0
",
        ),
        // A block is passed on by a count, an association and a weak location.
        (
            "1 new r0 object SW
1 new r1 unscanned 1
1 put r1 0 9
1 retain r0
1 setassoc r0 k1 r1
1 setweak w5 r1
2 take r0 1.0
2 getassoc r1 r0 k1
3 readweak r0 w5
3 get r0 0
2 new r2 scanned 1
2 store r2 0 r1
2 setweak r0 1 r2
1 readweak r2 r0 1
1 load r3 r2 0
2 release r0
1 count r0
1 release r0
3 setassoc r0 k0 r1
3 setassoc r1 k0 r0
3 stats
",
            "1 new r0 object SW = 1.0
1 new r1 unscanned 1 = 1.1
1 put r1 0 9 = ok
1 retain r0 = 1
1 setassoc r0 k1 r1 = null
1 setweak w5 r1 = 1.1
2 take r0 1.0 = 1.0
2 getassoc r1 r0 k1 = 1.1
3 readweak r0 w5 = 1.1
3 get r0 0 = 9
2 new r2 scanned 1 = 2.0
2 store r2 0 r1 = ok
2 setweak r0 1 r2 = 2.0
1 readweak r2 r0 1 = 2.0
1 load r3 r2 0 = 1.1
2 release r0 = 0
1 count r0 = 0
1 release r0 = misuse 4 OverRelease
3 setassoc r0 k0 r1 = null
3 setassoc r1 k0 r0 = misuse 1 NullBlock
3 stats = blocks 3 quanta 3 retained 0 weak 2 assocs 1
1 leave = reclaimed none
2 leave = reclaimed none
3 leave = reclaimed none
end entries 24 blocks 3 quanta 3 retained 0 weak 2 assocs 1
",
        ),
        // The example of three threads.
        (
            "1 new r0 scanned 1
3 new r0 scanned 1
1 new r1 object SP
3 store r0 0 r0
1 store r0 0 r1
1 put r1 1 42
3 drop r0
1 setroot g0 r0
2 getroot r0 g0
2 new r1 scanned 1
2 store r1 0 r0
2 new r2 unscanned 8
2 drop r2
2 collect local
3 collect local
2 setroot g0 r1
1 getroot r2 g0
1 load r2 r2 0
1 load r2 r2 0
1 get r2 1
3 new r1 unscanned 3
3 stats
",
            "1 new r0 scanned 1 = 1.0
1 new r1 object SP = 1.1
1 store r0 0 r1 = ok
1 put r1 1 42 = ok
1 setroot g0 r0 = ok
2 getroot r0 g0 = 1.0
2 new r1 scanned 1 = 2.0
2 store r1 0 r0 = ok
2 new r2 unscanned 8 = 2.1
2 drop r2 = ok
2 collect local = reclaimed 2.1
2 setroot g0 r1 = ok
1 getroot r2 g0 = 2.0
1 load r2 r2 0 = 1.0
1 load r2 r2 0 = 1.1
1 get r2 1 = 42
3 new r0 scanned 1 = 3.0
3 store r0 0 r0 = ok
3 drop r0 = ok
3 collect local = reclaimed 3.0
3 new r1 unscanned 3 = 3.1
3 stats = blocks 3 quanta 3 retained 0 weak 0 assocs 0
1 leave = reclaimed none
2 leave = reclaimed none
3 leave = reclaimed 3.1
end entries 25 blocks 3 quanta 3 retained 0 weak 0 assocs 0
",
        ),
    ];
    for (script, text) in &rows {
        assert!(rt; is_played(&Host::of(&rt, rt.alloc()), script, text)?);
    }
    Ok(())
}

/// Sixteen threads, each with a block that waits: their births are published in falling order, and they end in rising order.
fn sixteen_threads(alloc: Global) -> Result<(String, String), Fail> {
    let mut script = String::new(alloc);
    let mut text = String::new(alloc);
    for thread in 1..=16u32 {
        write!(script, "{thread} new r0 scanned {thread}\n")?;
    }
    for place in 0..16u32 {
        let thread = 16 - place;
        write!(script, "{thread} setroot g{thread} r0\n")?;
        write!(
            text,
            "{thread} new r0 scanned {thread} = {thread}.0\n{thread} setroot g{thread} r0 = ok\n"
        )?;
    }
    for thread in 1..=16u32 {
        write!(text, "{thread} leave = reclaimed none\n")?;
    }
    text.push_str("end entries 48 blocks 16 quanta 72 retained 0 weak 0 assocs 0\n")?;
    Ok((script, text))
}

#[test]
fn sixteen_threads_end_in_rising_order(rt: HostRuntime) -> Result<(), Fail> {
    let (script, text) = sixteen_threads(rt.alloc())?;
    assert!(rt; is_played(&Host::of(&rt, rt.alloc()), script.as_str(), text.as_str())?);
    Ok(())
}
