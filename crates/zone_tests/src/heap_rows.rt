//! Scripts that collect escaped blocks, each beside its history: what keeps a block, what becomes of weak words, and where
//! a full zone has room again.
use crate::tests::{Host, is_played, text_ends};
use std::alloc::Global;
use std::sync::Wait;
use std::test::*;
use std::thread::Threads;

#[test]
fn blocks_are_kept_by_what_leads_to_them(rt: HostRuntime) -> Result<(), Fail> {
    let rows = [
        // The example of two blocks that refer to each other.
        (
            "1 new r0 scanned 1
1 new r1 scanned 1
1 store r0 0 r1
1 store r1 0 r0
1 setroot g0 r0
1 drop r0
1 drop r1
1 collect full
1 setroot g0 r2
1 collect full
",
            "1 new r0 scanned 1 = 1.0
1 new r1 scanned 1 = 1.1
1 store r0 0 r1 = ok
1 store r1 0 r0 = ok
1 setroot g0 r0 = ok
1 drop r0 = ok
1 drop r1 = ok
1 begin full = begun
1 condemn = condemned none
1 reclaim = reclaimed none kept none
1 setroot g0 r2 = ok
1 begin full = begun
1 condemn = condemned 1.0 1.1
1 reclaim = reclaimed 1.0 1.1 kept none
1 leave = reclaimed none
end entries 15 blocks 0 quanta 0 retained 0 weak 0 assocs 0
",
        ),
        // A retained block in a cycle of garbage is kept with what it leads to; what leads to it goes.
        (
            "1 new r0 scanned 2
1 new r1 scanned 1
1 new r2 scanned 0
1 new r3 scanned 1
1 store r0 0 r1
1 store r1 0 r0
1 store r0 1 r2
1 store r3 0 r0
1 retain r0
1 setroot g0 r3
1 drop r0
1 drop r1
1 drop r2
1 drop r3
1 setroot g0 r4
1 collect full
1 take r0 1.0
1 release r0
1 drop r0
1 collect full
",
            "1 new r0 scanned 2 = 1.0
1 new r1 scanned 1 = 1.1
1 new r2 scanned 0 = 1.2
1 new r3 scanned 1 = 1.3
1 store r0 0 r1 = ok
1 store r1 0 r0 = ok
1 store r0 1 r2 = ok
1 store r3 0 r0 = ok
1 retain r0 = 1
1 setroot g0 r3 = ok
1 drop r0 = ok
1 drop r1 = ok
1 drop r2 = ok
1 drop r3 = ok
1 setroot g0 r4 = ok
1 begin full = begun
1 condemn = condemned 1.3
1 reclaim = reclaimed 1.3 kept none
1 take r0 1.0 = 1.0
1 release r0 = 0
1 drop r0 = ok
1 begin full = begun
1 condemn = condemned 1.0 1.1 1.2
1 reclaim = reclaimed 1.0 1.1 1.2 kept none
1 leave = reclaimed none
end entries 25 blocks 0 quanta 0 retained 0 weak 0 assocs 0
",
        ),
        // A value is kept with what it leads to while its object lives, and doesn't keep its object.
        (
            "1 new r0 scanned 0
1 new r1 scanned 1
1 new r2 scanned 0
1 store r1 0 r2
1 setassoc r0 k7 r1
1 setassoc r2 k0 r0
1 drop r1
1 drop r2
1 collect full
1 stats
1 drop r0
1 collect full
1 stats
",
            "1 new r0 scanned 0 = 1.0
1 new r1 scanned 1 = 1.1
1 new r2 scanned 0 = 1.2
1 store r1 0 r2 = ok
1 setassoc r0 k7 r1 = null
1 setassoc r2 k0 r0 = null
1 drop r1 = ok
1 drop r2 = ok
1 begin full = begun
1 condemn = condemned none
1 reclaim = reclaimed none kept none
1 stats = blocks 3 quanta 3 retained 0 weak 0 assocs 2
1 drop r0 = ok
1 begin full = begun
1 condemn = condemned 1.0 1.1 1.2
1 reclaim = reclaimed 1.0 1.1 1.2 kept none
1 stats = blocks 0 quanta 0 retained 0 weak 0 assocs 0
1 leave = reclaimed none
end entries 18 blocks 0 quanta 0 retained 0 weak 0 assocs 0
",
        ),
        // A value of two keys is kept until both have another one, or none.
        (
            "1 new r0 scanned 0
1 new r1 scanned 0
1 new r2 scanned 0
1 setassoc r0 k1 r1
1 setassoc r0 k2 r1
1 setassoc r0 k1 r2
1 drop r1
1 drop r2
1 collect full
1 setassoc r0 k2 r9
1 collect full
1 getassoc r3 r0 k1
1 stats
",
            "1 new r0 scanned 0 = 1.0
1 new r1 scanned 0 = 1.1
1 new r2 scanned 0 = 1.2
1 setassoc r0 k1 r1 = null
1 setassoc r0 k2 r1 = null
1 setassoc r0 k1 r2 = 1.1
1 drop r1 = ok
1 drop r2 = ok
1 begin full = begun
1 condemn = condemned none
1 reclaim = reclaimed none kept none
1 setassoc r0 k2 r9 = 1.1
1 begin full = begun
1 condemn = condemned 1.1
1 reclaim = reclaimed 1.1 kept none
1 getassoc r3 r0 k1 = 1.2
1 stats = blocks 2 quanta 2 retained 0 weak 0 assocs 1
1 leave = reclaimed none
end entries 18 blocks 2 quanta 2 retained 0 weak 0 assocs 1
",
        ),
        // A dead block that hasn't escaped keeps what it refers to, until a local collection takes it.
        (
            "1 new r0 scanned 0
1 setroot g0 r0
1 new r1 scanned 1
1 store r1 0 r0
1 drop r0
1 drop r1
1 setroot g0 r9
1 collect full
1 collect local
1 collect full
",
            "1 new r0 scanned 0 = 1.0
1 setroot g0 r0 = ok
1 new r1 scanned 1 = 1.1
1 store r1 0 r0 = ok
1 drop r0 = ok
1 drop r1 = ok
1 setroot g0 r9 = ok
1 begin full = begun
1 condemn = condemned none
1 reclaim = reclaimed none kept none
1 collect local = reclaimed 1.1
1 begin full = begun
1 condemn = condemned 1.0
1 reclaim = reclaimed 1.0 kept none
1 leave = reclaimed none
end entries 15 blocks 0 quanta 0 retained 0 weak 0 assocs 0
",
        ),
        // A collection of nothing, and one beside a block that hasn't escaped.
        (
            "1 collect full
1 collect young
1 new r0 scanned 1
1 drop r0
1 collect full
1 stats
1 collect local
",
            "1 begin full = begun
1 condemn = condemned none
1 reclaim = reclaimed none kept none
1 begin young = begun
1 condemn = condemned none
1 reclaim = reclaimed none kept none
1 new r0 scanned 1 = 1.0
1 drop r0 = ok
1 begin full = begun
1 condemn = condemned none
1 reclaim = reclaimed none kept none
1 stats = blocks 0 quanta 0 retained 0 weak 0 assocs 0
1 collect local = reclaimed 1.0
1 leave = reclaimed none
end entries 14 blocks 0 quanta 0 retained 0 weak 0 assocs 0
",
        ),
    ];
    for (script, text) in &rows {
        assert!(rt; is_played(&Host::of(&rt, rt.alloc()), script, text)?);
    }
    Ok(())
}

#[test]
fn weak_words_of_blocks_that_die(rt: HostRuntime) -> Result<(), Fail> {
    let rows = [
        // A block dies with its weak words and the locations that show it; what its words showed stays, and its location too.
        (
            "1 new r0 object WSW
1 new r1 scanned 0
1 setweak r0 0 r1
1 setweak r0 2 r0
1 setweak w9 r0
1 setweak w8 r1
1 stats
1 drop r0
1 collect full
1 readweak r2 w9
1 readweak r2 w8
1 stats
",
            "1 new r0 object WSW = 1.0
1 new r1 scanned 0 = 1.1
1 setweak r0 0 r1 = 1.1
1 setweak r0 2 r0 = 1.0
1 setweak w9 r0 = 1.0
1 setweak w8 r1 = 1.1
1 stats = blocks 2 quanta 3 retained 0 weak 4 assocs 0
1 drop r0 = ok
1 begin full = begun
1 condemn = condemned 1.0
1 reclaim = reclaimed 1.0 kept none
1 readweak r2 w9 = null
1 readweak r2 w8 = 1.1
1 stats = blocks 1 quanta 1 retained 0 weak 1 assocs 0
1 leave = reclaimed none
end entries 15 blocks 1 quanta 1 retained 0 weak 1 assocs 0
",
        ),
        // A weak word keeps nothing.
        (
            "1 new r0 object WP
1 new r1 scanned 0
1 setweak r0 0 r1
1 drop r1
1 collect full
1 readweak r1 r0 0
1 stats
",
            "1 new r0 object WP = 1.0
1 new r1 scanned 0 = 1.1
1 setweak r0 0 r1 = 1.1
1 drop r1 = ok
1 begin full = begun
1 condemn = condemned 1.1
1 reclaim = reclaimed 1.1 kept none
1 readweak r1 r0 0 = null
1 stats = blocks 1 quanta 1 retained 0 weak 0 assocs 0
1 leave = reclaimed none
end entries 10 blocks 1 quanta 1 retained 0 weak 0 assocs 0
",
        ),
        // Two blocks that show each other go together.
        (
            "1 new r0 object W
1 new r1 object W
1 setweak r0 0 r1
1 setweak r1 0 r0
1 drop r0
1 drop r1
1 collect full
1 stats
",
            "1 new r0 object W = 1.0
1 new r1 object W = 1.1
1 setweak r0 0 r1 = 1.1
1 setweak r1 0 r0 = 1.0
1 drop r0 = ok
1 drop r1 = ok
1 begin full = begun
1 condemn = condemned 1.0 1.1
1 reclaim = reclaimed 1.0 1.1 kept none
1 stats = blocks 0 quanta 0 retained 0 weak 0 assocs 0
1 leave = reclaimed none
end entries 11 blocks 0 quanta 0 retained 0 weak 0 assocs 0
",
        ),
        // A block that is kept is no longer shown, and its own weak words go on to show theirs.
        (
            "1 new r0 object WP keep g1
1 new r1 scanned 0
1 setweak r0 0 r1
1 setweak w0 r0
1 drop r0
1 collect full
1 readweak r2 w0
1 getroot r2 g1
1 readweak r3 r2 0
1 setweak w0 r2
1 stats
",
            "1 new r0 object WP keep g1 = 1.0
1 new r1 scanned 0 = 1.1
1 setweak r0 0 r1 = 1.1
1 setweak w0 r0 = 1.0
1 drop r0 = ok
1 begin full = begun
1 condemn = condemned 1.0
1 finalise = finalised 1.0
1 reclaim = reclaimed none kept 1.0
1 readweak r2 w0 = null
1 getroot r2 g1 = 1.0
1 readweak r3 r2 0 = 1.1
1 setweak w0 r2 = 1.0
1 stats = blocks 2 quanta 2 retained 0 weak 2 assocs 0
1 leave = reclaimed none
end entries 15 blocks 2 quanta 2 retained 0 weak 2 assocs 0
",
        ),
    ];
    for (script, text) in &rows {
        assert!(rt; is_played(&Host::of(&rt, rt.alloc()), script, text)?);
    }
    Ok(())
}

#[test]
fn a_full_zone_has_room_again(rt: HostRuntime) -> Result<(), Fail> {
    let rows = [
        // A full zone has room again after a collection.
        (
            "option heap 1
1 new r0 scanned 0
1 new r1 scanned 0
1 setroot g0 r0
1 setroot g1 r1
1 drop r0
1 setroot g0 r2
1 collect full
1 setroot g1 r1
",
            "option heap 1
1 new r0 scanned 0 = 1.0
1 new r1 scanned 0 = 1.1
1 setroot g0 r0 = ok
1 setroot g1 r1 = misuse 7 ZoneFull
1 drop r0 = ok
1 setroot g0 r2 = ok
1 begin full = begun
1 condemn = condemned 1.0
1 reclaim = reclaimed 1.0 kept none
1 setroot g1 r1 = ok
1 leave = reclaimed none
end entries 11 blocks 1 quanta 1 retained 0 weak 0 assocs 0
",
        ),
        // Old garbage gives its room back to a full collection alone.
        (
            "option heap 2
option local 0
1 new r0 scanned 4
1 collect young
1 collect young
1 collect young
1 drop r0
1 new r1 scanned 0
1 collect young
1 new r1 scanned 0
1 collect full
1 new r1 scanned 3
1 new r2 scanned 0
1 stats
",
            "option heap 2
option local 0
1 new r0 scanned 4 = 1.0
1 begin young = begun
1 condemn = condemned none
1 reclaim = reclaimed none kept none
1 begin young = begun
1 condemn = condemned none
1 reclaim = reclaimed none kept none
1 begin young = begun
1 condemn = condemned none
1 reclaim = reclaimed none kept none
1 drop r0 = ok
1 new r1 scanned 0 = misuse 7 ZoneFull
1 begin young = begun
1 condemn = condemned none
1 reclaim = reclaimed none kept none
1 new r1 scanned 0 = misuse 7 ZoneFull
1 begin full = begun
1 condemn = condemned 1.0
1 reclaim = reclaimed 1.0 kept none
1 new r1 scanned 3 = 1.1
1 new r2 scanned 0 = misuse 7 ZoneFull
1 stats = blocks 1 quanta 2 retained 0 weak 0 assocs 0
1 leave = reclaimed none
end entries 23 blocks 1 quanta 2 retained 0 weak 0 assocs 0
",
        ),
        // A block that its finaliser keeps keeps its room.
        (
            "option heap 1
1 new r0 object P keep g0
1 new r1 scanned 0
1 drop r0
1 collect full
1 setroot g1 r1
1 setroot g0 r9
1 setroot g1 r1
1 collect full
1 setroot g1 r1
",
            "option heap 1
1 new r0 object P keep g0 = 1.0
1 new r1 scanned 0 = 1.1
1 drop r0 = ok
1 begin full = begun
1 condemn = condemned 1.0
1 finalise = finalised 1.0
1 reclaim = reclaimed none kept 1.0
1 setroot g1 r1 = misuse 7 ZoneFull
1 setroot g0 r9 = ok
1 setroot g1 r1 = misuse 7 ZoneFull
1 begin full = begun
1 condemn = condemned 1.0
1 reclaim = reclaimed 1.0 kept none
1 setroot g1 r1 = ok
1 leave = reclaimed none
end entries 15 blocks 1 quanta 1 retained 0 weak 0 assocs 0
",
        ),
        // Large blocks: 4,096 words are 2,048 quanta.
        (
            "option heap 2048
option local 0
1 new r0 unscanned 4096
1 new r1 scanned 0
1 drop r0
1 collect full
1 new r0 scanned 3968
1 new r1 scanned 128
1 new r2 scanned 0
1 stats
",
            "option heap 2048
option local 0
1 new r0 unscanned 4096 = 1.0
1 new r1 scanned 0 = misuse 7 ZoneFull
1 drop r0 = ok
1 begin full = begun
1 condemn = condemned 1.0
1 reclaim = reclaimed 1.0 kept none
1 new r0 scanned 3968 = 1.1
1 new r1 scanned 128 = 1.2
1 new r2 scanned 0 = misuse 7 ZoneFull
1 stats = blocks 2 quanta 2048 retained 0 weak 0 assocs 0
1 leave = reclaimed none
end entries 11 blocks 2 quanta 2048 retained 0 weak 0 assocs 0
",
        ),
    ];
    for (script, text) in &rows {
        assert!(rt; is_played(&Host::of(&rt, rt.alloc()), script, text)?);
    }
    Ok(())
}

/// A chain of 20,000 blocks, which escapes in one call, is cut off and collected.
fn chain_script(alloc: Global) -> Result<String, Fail> {
    let mut script = String::new(alloc);
    for _ in 0..20_000 {
        script.push_str("1 new r1 scanned 1\n1 store r1 0 r0\n1 copy r0 r1\n")?;
    }
    script.push_str("1 setroot g0 r0\n1 drop r0\n1 drop r1\n1 setroot g0 r2\n1 collect full\n")?;
    Ok(script)
}

/// The ids of the blocks of this chain, each behind a blank.
fn chain_ids(alloc: Global) -> Result<String, Fail> {
    let mut ids = String::new(alloc);
    for serial in 0..20_000u32 {
        write!(ids, " 1.{serial}")?;
    }
    Ok(ids)
}

/// How the text of this chain ends.
fn chain_text(alloc: Global) -> Result<String, Fail> {
    let ids = chain_ids(alloc)?;
    let mut text = String::new(alloc);
    text.push_str("1 setroot g0 r2 = ok\n1 begin full = begun\n1 condemn = condemned")?;
    text.push_str(ids.as_str())?;
    text.push_str("\n1 reclaim = reclaimed")?;
    text.push_str(ids.as_str())?;
    text.push_str(" kept none\n1 leave = reclaimed none\n")?;
    text.push_str("end entries 60008 blocks 0 quanta 0 retained 0 weak 0 assocs 0\n")?;
    Ok(text)
}

/// Whether the chain is collected whole.
fn chain_is_collected<R: Threads + Wait + Sync>(rt: &Host<'_, R>) -> Result<bool, Fail> {
    let script = chain_script(rt.alloc())?;
    let text = chain_text(rt.alloc())?;
    text_ends(rt, script.as_str(), 2_000_000, text.as_str())
}

#[test]
fn a_chain_of_20_000_blocks_is_collected(rt: HostRuntime) -> Result<(), Fail> {
    assert!(rt; chain_is_collected(&Host::of(&rt, rt.alloc()))?);
    Ok(())
}
