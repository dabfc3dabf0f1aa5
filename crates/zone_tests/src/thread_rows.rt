//! Scripts of several threads, of which some collect escaped blocks: a collection finds what the others held when they
//! last published.
use crate::tests::{Host, is_played};
use std::alloc::Global;
use std::sync::Wait;
use std::test::*;
use std::thread::Threads;

#[test]
fn collections_see_what_was_published(rt: HostRuntime) -> Result<(), Fail> {
    let rows = [
        // A register is overwritten after its block was published: until that is published too, others find the block held.
        (
            "1 new r0 scanned 0
1 setroot g0 r0
1 setroot g0 r9
1 new r0 scanned 1
2 collect full
2 stats
1 stats
2 collect full
",
            "1 new r0 scanned 0 = 1.0
1 setroot g0 r0 = ok
1 setroot g0 r9 = ok
2 begin full = begun
2 condemn = condemned none
2 reclaim = reclaimed none kept none
2 stats = blocks 1 quanta 1 retained 0 weak 0 assocs 0
1 new r0 scanned 1 = 1.1
1 stats = blocks 1 quanta 1 retained 0 weak 0 assocs 0
2 begin full = begun
2 condemn = condemned 1.0
2 reclaim = reclaimed 1.0 kept none
1 leave = reclaimed 1.1
2 leave = reclaimed none
end entries 14 blocks 0 quanta 0 retained 0 weak 0 assocs 0
",
        ),
        // The same of a word of a block that hasn't escaped.
        (
            "1 new r0 scanned 0
1 setroot g0 r0
1 new r1 scanned 1
1 store r1 0 r0
1 drop r0
1 setroot g0 r9
2 collect full
1 store r1 0 r9
2 collect full
1 getroot r2 g0
2 collect full
",
            "1 new r0 scanned 0 = 1.0
1 setroot g0 r0 = ok
1 new r1 scanned 1 = 1.1
1 store r1 0 r0 = ok
1 drop r0 = ok
1 setroot g0 r9 = ok
2 begin full = begun
2 condemn = condemned none
2 reclaim = reclaimed none kept none
2 begin full = begun
2 condemn = condemned none
2 reclaim = reclaimed none kept none
1 store r1 0 r9 = ok
1 getroot r2 g0 = null
2 begin full = begun
2 condemn = condemned 1.0
2 reclaim = reclaimed 1.0 kept none
1 leave = reclaimed 1.1
2 leave = reclaimed none
end entries 19 blocks 0 quanta 0 retained 0 weak 0 assocs 0
",
        ),
        // A collection publishes what waits of its own thread first.
        (
            "1 new r0 scanned 0
1 setroot g0 r0
2 getroot r0 g0
1 setroot g0 r9
1 drop r0
2 drop r0
1 collect full
2 collect full
",
            "1 new r0 scanned 0 = 1.0
1 setroot g0 r0 = ok
2 getroot r0 g0 = 1.0
1 setroot g0 r9 = ok
1 drop r0 = ok
1 begin full = begun
1 condemn = condemned none
1 reclaim = reclaimed none kept none
2 drop r0 = ok
2 begin full = begun
2 condemn = condemned 1.0
2 reclaim = reclaimed 1.0 kept none
1 leave = reclaimed none
2 leave = reclaimed none
end entries 14 blocks 0 quanta 0 retained 0 weak 0 assocs 0
",
        ),
        // Where one entry may wait, the next local call publishes that a register was emptied.
        (
            "option pending 1
1 new r0 scanned 0
1 setroot g0 r0
1 setroot g0 r9
1 drop r0
2 collect full
1 copy r1 r0
2 collect full
",
            "option pending 1
1 new r0 scanned 0 = 1.0
1 setroot g0 r0 = ok
1 setroot g0 r9 = ok
2 begin full = begun
2 condemn = condemned none
2 reclaim = reclaimed none kept none
1 drop r0 = ok
2 begin full = begun
2 condemn = condemned 1.0
2 reclaim = reclaimed 1.0 kept none
1 copy r1 r0 = ok
1 leave = reclaimed none
2 leave = reclaimed none
end entries 13 blocks 0 quanta 0 retained 0 weak 0 assocs 0
",
        ),
        // A misuse of a local call waits, and one of a shared call publishes that a register was emptied.
        (
            "1 new r0 scanned 0
1 setroot g0 r0
1 setroot g0 r9
1 drop r0
1 load r1 r2 0
2 collect full
1 retain r0
2 collect full
1 take r0 1.0
",
            "1 new r0 scanned 0 = 1.0
1 setroot g0 r0 = ok
1 setroot g0 r9 = ok
2 begin full = begun
2 condemn = condemned none
2 reclaim = reclaimed none kept none
1 drop r0 = ok
1 load r1 r2 0 = misuse 1 NullBlock
1 retain r0 = misuse 1 NullBlock
2 begin full = begun
2 condemn = condemned 1.0
2 reclaim = reclaimed 1.0 kept none
1 take r0 1.0 = misuse 8 NotHeld
1 leave = reclaimed none
2 leave = reclaimed none
end entries 15 blocks 0 quanta 0 retained 0 weak 0 assocs 0
",
        ),
        // What a thread lets go at its end, no collection finds.
        (
            "3 new r0 scanned 0
3 setroot g0 r0
1 getroot r0 g0
2 setroot g0 r0
3 drop r0
1 drop r0
2 collect full
1 collect full
3 new r1 scanned 1
",
            "3 new r0 scanned 0 = 3.0
3 setroot g0 r0 = ok
1 getroot r0 g0 = 3.0
2 setroot g0 r0 = ok
2 begin full = begun
2 condemn = condemned none
2 reclaim = reclaimed none kept none
1 drop r0 = ok
1 begin full = begun
1 condemn = condemned none
1 reclaim = reclaimed none kept none
1 leave = reclaimed none
2 leave = reclaimed none
3 drop r0 = ok
3 new r1 scanned 1 = 3.1
3 leave = reclaimed 3.1
end entries 16 blocks 1 quanta 1 retained 0 weak 0 assocs 0
",
        ),
    ];
    for (script, text) in &rows {
        assert!(rt; is_played(&Host::of(&rt, rt.alloc()), script, text)?);
    }
    Ok(())
}

#[test]
fn collections_beside_other_threads(rt: HostRuntime) -> Result<(), Fail> {
    let rows = [
        // A dead block of a thread keeps another thread's block, until a local collection took it and that is published.
        (
            "2 new r0 scanned 0
2 setroot g0 r0
1 getroot r0 g0
1 new r1 scanned 1
1 store r1 0 r0
1 drop r0
1 drop r1
1 stats
2 setroot g0 r9
2 drop r0
2 collect full
1 collect local
2 collect full
1 stats
2 collect full
",
            "2 new r0 scanned 0 = 2.0
2 setroot g0 r0 = ok
1 getroot r0 g0 = 2.0
1 new r1 scanned 1 = 1.0
1 store r1 0 r0 = ok
1 drop r0 = ok
1 drop r1 = ok
1 stats = blocks 1 quanta 1 retained 0 weak 0 assocs 0
2 setroot g0 r9 = ok
2 drop r0 = ok
2 begin full = begun
2 condemn = condemned none
2 reclaim = reclaimed none kept none
2 begin full = begun
2 condemn = condemned none
2 reclaim = reclaimed none kept none
1 collect local = reclaimed 1.0
1 stats = blocks 1 quanta 1 retained 0 weak 0 assocs 0
2 begin full = begun
2 condemn = condemned 2.0
2 reclaim = reclaimed 2.0 kept none
1 leave = reclaimed none
2 leave = reclaimed none
end entries 23 blocks 0 quanta 0 retained 0 weak 0 assocs 0
",
        ),
        // Blocks of one thread escape between the collections of another.
        (
            "1 new r0 scanned 1
1 setroot g0 r0
2 new r0 scanned 1
2 new r1 scanned 0
2 store r0 0 r1
1 collect full
2 getroot r2 g0
2 store r2 0 r0
2 drop r1
2 drop r0
1 collect full
1 store r0 0 r9
1 collect full
2 collect full
",
            "1 new r0 scanned 1 = 1.0
1 setroot g0 r0 = ok
1 begin full = begun
1 condemn = condemned none
1 reclaim = reclaimed none kept none
2 new r0 scanned 1 = 2.0
2 new r1 scanned 0 = 2.1
2 store r0 0 r1 = ok
2 getroot r2 g0 = 1.0
2 store r2 0 r0 = ok
1 begin full = begun
1 condemn = condemned none
1 reclaim = reclaimed none kept none
1 store r0 0 r9 = ok
1 begin full = begun
1 condemn = condemned none
1 reclaim = reclaimed none kept none
2 drop r1 = ok
2 drop r0 = ok
2 begin full = begun
2 condemn = condemned 2.0 2.1
2 reclaim = reclaimed 2.0 2.1 kept none
1 leave = reclaimed none
2 leave = reclaimed none
end entries 24 blocks 1 quanta 1 retained 0 weak 0 assocs 0
",
        ),
        // Collections of one thread make blocks of another old, and blocks that escape later are young.
        (
            "2 new r0 scanned 1
2 setroot g0 r0
1 collect young
1 collect young
1 collect young
2 new r1 scanned 0
2 store r0 0 r1
2 new r2 scanned 0
2 setweak w0 r2
2 drop r0
2 drop r1
2 drop r2
2 setroot g0 r9
1 collect young
2 readweak r3 w0
1 collect full
",
            "2 new r0 scanned 1 = 2.0
2 setroot g0 r0 = ok
1 begin young = begun
1 condemn = condemned none
1 reclaim = reclaimed none kept none
1 begin young = begun
1 condemn = condemned none
1 reclaim = reclaimed none kept none
1 begin young = begun
1 condemn = condemned none
1 reclaim = reclaimed none kept none
2 new r1 scanned 0 = 2.1
2 store r0 0 r1 = ok
2 new r2 scanned 0 = 2.2
2 setweak w0 r2 = 2.2
2 drop r0 = ok
2 drop r1 = ok
2 drop r2 = ok
2 setroot g0 r9 = ok
1 begin young = begun
1 condemn = condemned 2.2
1 reclaim = reclaimed 2.2 kept none
2 readweak r3 w0 = null
1 begin full = begun
1 condemn = condemned 2.0 2.1
1 reclaim = reclaimed 2.0 2.1 kept none
1 leave = reclaimed none
2 leave = reclaimed none
end entries 28 blocks 0 quanta 0 retained 0 weak 0 assocs 0
",
        ),
        // Blocks of two threads refer to one of a third, which goes with the later of them.
        (
            "1 new r0 scanned 0
1 setroot g0 r0
2 getroot r0 g0
3 getroot r0 g0
2 new r1 scanned 1
3 new r1 scanned 1
3 store r1 0 r0
2 store r1 0 r0
2 setroot g2 r1
3 setroot g3 r1
1 setroot g0 r9
1 drop r0
2 drop r0
3 drop r0
2 drop r1
3 drop r1
2 setroot g2 r9
3 stats
1 collect full
3 setroot g3 r9
1 collect full
",
            "1 new r0 scanned 0 = 1.0
1 setroot g0 r0 = ok
2 getroot r0 g0 = 1.0
3 getroot r0 g0 = 1.0
2 new r1 scanned 1 = 2.0
2 store r1 0 r0 = ok
2 setroot g2 r1 = ok
3 new r1 scanned 1 = 3.0
3 store r1 0 r0 = ok
3 setroot g3 r1 = ok
1 setroot g0 r9 = ok
2 drop r0 = ok
2 drop r1 = ok
2 setroot g2 r9 = ok
3 drop r0 = ok
3 drop r1 = ok
3 stats = blocks 3 quanta 3 retained 0 weak 0 assocs 0
1 drop r0 = ok
1 begin full = begun
1 condemn = condemned 2.0
1 reclaim = reclaimed 2.0 kept none
3 setroot g3 r9 = ok
1 begin full = begun
1 condemn = condemned 1.0 3.0
1 reclaim = reclaimed 1.0 3.0 kept none
1 leave = reclaimed none
2 leave = reclaimed none
3 leave = reclaimed none
end entries 28 blocks 0 quanta 0 retained 0 weak 0 assocs 0
",
        ),
        // The finalisers of two threads' blocks, of which the later puts the root that both put, run in the collection of a third.
        (
            "2 new r0 object P keep g0
1 new r0 object P keep g0
2 drop r0
1 drop r0
3 collect full
2 stats
1 stats
3 collect full
2 getroot r1 g0
",
            "2 new r0 object P keep g0 = 2.0
1 new r0 object P keep g0 = 1.0
3 begin full = begun
3 condemn = condemned none
3 reclaim = reclaimed none kept none
2 drop r0 = ok
2 stats = blocks 2 quanta 2 retained 0 weak 0 assocs 0
1 drop r0 = ok
1 stats = blocks 2 quanta 2 retained 0 weak 0 assocs 0
3 begin full = begun
3 condemn = condemned 1.0 2.0
3 finalise = finalised 1.0
3 finalise = finalised 2.0
3 reclaim = reclaimed 1.0 kept 2.0
2 getroot r1 g0 = 2.0
1 leave = reclaimed none
2 leave = reclaimed none
3 leave = reclaimed none
end entries 18 blocks 1 quanta 1 retained 0 weak 0 assocs 0
",
        ),
        // The zone is full in the midst of what waits, until another thread collects.
        (
            "option heap 2
1 new r0 scanned 2
1 setroot g0 r0
2 new r0 scanned 3
2 new r1 scanned 1
2 setroot g1 r0
1 setroot g0 r9
1 drop r0
2 copy r2 r1
2 setroot g1 r0
1 collect full
2 setroot g1 r0
2 setroot g2 r1
2 stats
",
            "option heap 2
1 new r0 scanned 2 = 1.0
1 setroot g0 r0 = ok
2 new r0 scanned 3 = 2.0
2 new r1 scanned 1 = 2.1
2 setroot g1 r0 = misuse 7 ZoneFull
1 setroot g0 r9 = ok
2 copy r2 r1 = ok
2 setroot g1 r0 = misuse 7 ZoneFull
1 drop r0 = ok
1 begin full = begun
1 condemn = condemned 1.0
1 reclaim = reclaimed 1.0 kept none
2 setroot g1 r0 = ok
2 setroot g2 r1 = misuse 7 ZoneFull
2 stats = blocks 1 quanta 2 retained 0 weak 0 assocs 0
1 leave = reclaimed none
2 leave = reclaimed 2.1
end entries 17 blocks 1 quanta 2 retained 0 weak 0 assocs 0
",
        ),
    ];
    for (script, text) in &rows {
        assert!(rt; is_played(&Host::of(&rt, rt.alloc()), script, text)?);
    }
    Ok(())
}

/// Sixteen threads put a block each into one root, by turns, and let their registers go.
fn collecting_script(alloc: Global) -> Result<String, Fail> {
    let mut script = String::new(alloc);
    for thread in 1..=16u32 {
        write!(
            script,
            "{thread} new r0 scanned 0\n{thread} setroot g0 r0\n{thread} drop r0\n"
        )?;
    }
    for place in 0..16u32 {
        let thread = 16 - place;
        write!(script, "{thread} collect full\n")?;
    }
    Ok(script)
}

/// What is published before the collections.
fn sixteen_births(text: &mut String) -> Result<(), Fail> {
    for thread in 1..=16u32 {
        write!(
            text,
            "{thread} new r0 scanned 0 = {thread}.0\n{thread} setroot g0 r0 = ok\n"
        )?;
    }
    Ok(())
}

/// Threads 15 to 1 collect: each publishes first that it let go its block, and reclaims it.
fn fifteen_collections(text: &mut String) -> Result<(), Fail> {
    for place in 1..16u32 {
        let thread = 16 - place;
        write!(text, "{thread} drop r0 = ok\n{thread} begin full = begun\n")?;
        write!(text, "{thread} condemn = condemned {thread}.0\n")?;
        write!(text, "{thread} reclaim = reclaimed {thread}.0 kept none\n")?;
    }
    Ok(())
}

/// The history: the block of thread 16 is in the root, and stays.
fn collecting_text(alloc: Global) -> Result<String, Fail> {
    let mut text = String::new(alloc);
    sixteen_births(&mut text)?;
    text.push_str("16 drop r0 = ok\n16 begin full = begun\n16 condemn = condemned none\n")?;
    text.push_str("16 reclaim = reclaimed none kept none\n")?;
    fifteen_collections(&mut text)?;
    for thread in 1..=16u32 {
        write!(text, "{thread} leave = reclaimed none\n")?;
    }
    text.push_str("end entries 112 blocks 1 quanta 1 retained 0 weak 0 assocs 0\n")?;
    Ok(text)
}

/// Whether sixteen threads collect in falling order.
fn sixteen_collect<R: Threads + Wait + Sync>(rt: &Host<'_, R>) -> Result<bool, Fail> {
    let script = collecting_script(rt.alloc())?;
    let text = collecting_text(rt.alloc())?;
    is_played(rt, script.as_str(), text.as_str())
}

#[test]
fn sixteen_threads_collect_by_turns(rt: HostRuntime) -> Result<(), Fail> {
    assert!(rt; sixteen_collect(&Host::of(&rt, rt.alloc()))?);
    Ok(())
}
