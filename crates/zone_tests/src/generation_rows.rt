//! Scripts with young collections, each beside its history: which blocks are old, and what they keep.
use crate::tests::{Host, is_played};
use std::test::*;

#[test]
fn old_blocks_keep_young_ones(rt: HostRuntime) -> Result<(), Fail> {
    let rows = [
        // An old block refers twice to a young one, which goes with the second reference.
        (
            "option local 0
1 new r0 scanned 2
1 collect full
1 collect full
1 collect full
1 new r1 scanned 0
1 store r0 0 r1
1 store r0 1 r1
1 store r0 0 r2
1 drop r1
1 collect young
1 store r0 1 r2
1 collect young
",
            "option local 0
1 new r0 scanned 2 = 1.0
1 begin full = begun
1 condemn = condemned none
1 reclaim = reclaimed none kept none
1 begin full = begun
1 condemn = condemned none
1 reclaim = reclaimed none kept none
1 begin full = begun
1 condemn = condemned none
1 reclaim = reclaimed none kept none
1 new r1 scanned 0 = 1.1
1 store r0 0 r1 = ok
1 store r0 1 r1 = ok
1 store r0 0 r2 = ok
1 drop r1 = ok
1 begin young = begun
1 condemn = condemned none
1 reclaim = reclaimed none kept none
1 store r0 1 r2 = ok
1 begin young = begun
1 condemn = condemned 1.1
1 reclaim = reclaimed 1.1 kept none
1 leave = reclaimed none
end entries 23 blocks 1 quanta 1 retained 0 weak 0 assocs 0
",
        ),
        // An old object gets a young value.
        (
            "option local 0
1 new r0 scanned 0
1 collect full
1 collect full
1 collect full
1 new r1 scanned 0
1 setassoc r0 k3 r1
1 new r2 scanned 0
1 drop r1
1 drop r2
1 collect young
1 getassoc r1 r0 k3
1 setassoc r0 k3 r9
1 drop r1
1 collect young
",
            "option local 0
1 new r0 scanned 0 = 1.0
1 begin full = begun
1 condemn = condemned none
1 reclaim = reclaimed none kept none
1 begin full = begun
1 condemn = condemned none
1 reclaim = reclaimed none kept none
1 begin full = begun
1 condemn = condemned none
1 reclaim = reclaimed none kept none
1 new r1 scanned 0 = 1.1
1 setassoc r0 k3 r1 = null
1 new r2 scanned 0 = 1.2
1 drop r1 = ok
1 drop r2 = ok
1 begin young = begun
1 condemn = condemned 1.2
1 reclaim = reclaimed 1.2 kept none
1 getassoc r1 r0 k3 = 1.1
1 setassoc r0 k3 r9 = 1.1
1 drop r1 = ok
1 begin young = begun
1 condemn = condemned 1.1
1 reclaim = reclaimed 1.1 kept none
1 leave = reclaimed none
end entries 25 blocks 1 quanta 1 retained 0 weak 0 assocs 0
",
        ),
        // An old object keeps its young value where it is dead itself, and a weak root finds both.
        (
            "option local 0
1 new r0 scanned 0
1 setweak w0 r0
1 collect full
1 collect full
1 collect full
1 new r1 scanned 0
1 setassoc r0 k3 r1
1 drop r0
1 drop r1
1 collect young
1 readweak r0 w0
1 getassoc r1 r0 k3
1 drop r0
1 drop r1
1 collect full
1 readweak r0 w0
",
            "option local 0
1 new r0 scanned 0 = 1.0
1 setweak w0 r0 = 1.0
1 begin full = begun
1 condemn = condemned none
1 reclaim = reclaimed none kept none
1 begin full = begun
1 condemn = condemned none
1 reclaim = reclaimed none kept none
1 begin full = begun
1 condemn = condemned none
1 reclaim = reclaimed none kept none
1 new r1 scanned 0 = 1.1
1 setassoc r0 k3 r1 = null
1 drop r0 = ok
1 drop r1 = ok
1 begin young = begun
1 condemn = condemned none
1 reclaim = reclaimed none kept none
1 readweak r0 w0 = 1.0
1 getassoc r1 r0 k3 = 1.1
1 drop r0 = ok
1 drop r1 = ok
1 begin full = begun
1 condemn = condemned 1.0 1.1
1 reclaim = reclaimed 1.0 1.1 kept none
1 readweak r0 w0 = null
1 leave = reclaimed none
end entries 27 blocks 0 quanta 0 retained 0 weak 0 assocs 0
",
        ),
        // What an old block leads to through young ones is kept; young garbage that leads there goes.
        (
            "option local 0
1 new r0 scanned 1
1 setweak w0 r0
1 collect young
1 collect young
1 collect young
1 new r1 scanned 1
1 new r2 scanned 0
1 store r1 0 r2
1 store r0 0 r1
1 new r3 scanned 1
1 store r3 0 r2
1 drop r0
1 drop r1
1 drop r2
1 drop r3
1 collect young
1 readweak r0 w0
1 load r1 r0 0
1 store r0 0 r9
1 drop r1
1 collect young
",
            "option local 0
1 new r0 scanned 1 = 1.0
1 setweak w0 r0 = 1.0
1 begin young = begun
1 condemn = condemned none
1 reclaim = reclaimed none kept none
1 begin young = begun
1 condemn = condemned none
1 reclaim = reclaimed none kept none
1 begin young = begun
1 condemn = condemned none
1 reclaim = reclaimed none kept none
1 new r1 scanned 1 = 1.1
1 new r2 scanned 0 = 1.2
1 store r1 0 r2 = ok
1 store r0 0 r1 = ok
1 new r3 scanned 1 = 1.3
1 store r3 0 r2 = ok
1 drop r0 = ok
1 drop r1 = ok
1 drop r2 = ok
1 drop r3 = ok
1 begin young = begun
1 condemn = condemned 1.3
1 reclaim = reclaimed 1.3 kept none
1 readweak r0 w0 = 1.0
1 load r1 r0 0 = 1.1
1 store r0 0 r9 = ok
1 drop r1 = ok
1 begin young = begun
1 condemn = condemned 1.1 1.2
1 reclaim = reclaimed 1.1 1.2 kept none
1 leave = reclaimed none
end entries 32 blocks 1 quanta 1 retained 0 weak 1 assocs 0
",
        ),
        // A chain that escapes by a store into an old block is young, and goes when the store is undone.
        (
            "1 new r0 scanned 1
1 setroot g0 r0
1 collect young
1 collect young
1 collect young
1 new r1 scanned 1
1 new r2 scanned 0
1 store r1 0 r2
1 store r0 0 r1
1 drop r1
1 drop r2
1 collect young
1 store r0 0 r9
1 collect young
",
            "1 new r0 scanned 1 = 1.0
1 setroot g0 r0 = ok
1 begin young = begun
1 condemn = condemned none
1 reclaim = reclaimed none kept none
1 begin young = begun
1 condemn = condemned none
1 reclaim = reclaimed none kept none
1 begin young = begun
1 condemn = condemned none
1 reclaim = reclaimed none kept none
1 new r1 scanned 1 = 1.1
1 new r2 scanned 0 = 1.2
1 store r1 0 r2 = ok
1 store r0 0 r1 = ok
1 drop r1 = ok
1 drop r2 = ok
1 begin young = begun
1 condemn = condemned none
1 reclaim = reclaimed none kept none
1 store r0 0 r9 = ok
1 begin young = begun
1 condemn = condemned 1.1 1.2
1 reclaim = reclaimed 1.1 1.2 kept none
1 leave = reclaimed none
end entries 25 blocks 1 quanta 1 retained 0 weak 0 assocs 0
",
        ),
        // The weak word of an old block keeps no young one.
        (
            "option local 0
1 new r0 object WP
1 collect young
1 collect young
1 collect young
1 new r1 scanned 0
1 setweak r0 0 r1
1 drop r1
1 collect young
1 readweak r1 r0 0
",
            "option local 0
1 new r0 object WP = 1.0
1 begin young = begun
1 condemn = condemned none
1 reclaim = reclaimed none kept none
1 begin young = begun
1 condemn = condemned none
1 reclaim = reclaimed none kept none
1 begin young = begun
1 condemn = condemned none
1 reclaim = reclaimed none kept none
1 new r1 scanned 0 = 1.1
1 setweak r0 0 r1 = 1.1
1 drop r1 = ok
1 begin young = begun
1 condemn = condemned 1.1
1 reclaim = reclaimed 1.1 kept none
1 readweak r1 r0 0 = null
1 leave = reclaimed none
end entries 18 blocks 1 quanta 1 retained 0 weak 0 assocs 0
",
        ),
    ];
    for (script, text) in &rows {
        assert!(rt; is_played(&Host::of(&rt, rt.alloc()), script, text)?);
    }
    Ok(())
}

#[test]
fn blocks_grow_old(rt: HostRuntime) -> Result<(), Fail> {
    let rows = [
        // Two collections make no block old.
        (
            "option local 0
1 new r0 scanned 0
1 collect full
1 collect young
1 drop r0
1 collect young
",
            "option local 0
1 new r0 scanned 0 = 1.0
1 begin full = begun
1 condemn = condemned none
1 reclaim = reclaimed none kept none
1 begin young = begun
1 condemn = condemned none
1 reclaim = reclaimed none kept none
1 drop r0 = ok
1 begin young = begun
1 condemn = condemned 1.0
1 reclaim = reclaimed 1.0 kept none
1 leave = reclaimed none
end entries 12 blocks 0 quanta 0 retained 0 weak 0 assocs 0
",
        ),
        // A block grows old from its escape on, and not from its birth.
        (
            "1 new r0 scanned 0
1 collect full
1 collect full
1 collect full
1 setweak w0 r0
1 drop r0
1 collect young
",
            "1 new r0 scanned 0 = 1.0
1 begin full = begun
1 condemn = condemned none
1 reclaim = reclaimed none kept none
1 begin full = begun
1 condemn = condemned none
1 reclaim = reclaimed none kept none
1 begin full = begun
1 condemn = condemned none
1 reclaim = reclaimed none kept none
1 setweak w0 r0 = 1.0
1 drop r0 = ok
1 begin young = begun
1 condemn = condemned 1.0
1 reclaim = reclaimed 1.0 kept none
1 leave = reclaimed none
end entries 16 blocks 0 quanta 0 retained 0 weak 0 assocs 0
",
        ),
        // A block becomes old while it refers to a younger one.
        (
            "option local 0
1 new r0 scanned 1
1 setweak w0 r0
1 collect full
1 collect full
1 new r1 scanned 0
1 store r0 0 r1
1 drop r1
1 collect full
1 drop r0
1 collect young
1 readweak r0 w0
1 load r1 r0 0
1 drop r0
1 drop r1
1 collect full
",
            "option local 0
1 new r0 scanned 1 = 1.0
1 setweak w0 r0 = 1.0
1 begin full = begun
1 condemn = condemned none
1 reclaim = reclaimed none kept none
1 begin full = begun
1 condemn = condemned none
1 reclaim = reclaimed none kept none
1 new r1 scanned 0 = 1.1
1 store r0 0 r1 = ok
1 drop r1 = ok
1 begin full = begun
1 condemn = condemned none
1 reclaim = reclaimed none kept none
1 drop r0 = ok
1 begin young = begun
1 condemn = condemned none
1 reclaim = reclaimed none kept none
1 readweak r0 w0 = 1.0
1 load r1 r0 0 = 1.1
1 drop r0 = ok
1 drop r1 = ok
1 begin full = begun
1 condemn = condemned 1.0 1.1
1 reclaim = reclaimed 1.0 1.1 kept none
1 leave = reclaimed none
end entries 26 blocks 0 quanta 0 retained 0 weak 0 assocs 0
",
        ),
        // An object becomes old while its value is younger.
        (
            "option local 0
1 new r0 scanned 0
1 collect young
1 collect young
1 new r1 scanned 0
1 setassoc r0 k8 r1
1 drop r1
1 collect young
1 drop r0
1 collect young
1 collect full
",
            "option local 0
1 new r0 scanned 0 = 1.0
1 begin young = begun
1 condemn = condemned none
1 reclaim = reclaimed none kept none
1 begin young = begun
1 condemn = condemned none
1 reclaim = reclaimed none kept none
1 new r1 scanned 0 = 1.1
1 setassoc r0 k8 r1 = null
1 drop r1 = ok
1 begin young = begun
1 condemn = condemned none
1 reclaim = reclaimed none kept none
1 drop r0 = ok
1 begin young = begun
1 condemn = condemned none
1 reclaim = reclaimed none kept none
1 begin full = begun
1 condemn = condemned 1.0 1.1
1 reclaim = reclaimed 1.0 1.1 kept none
1 leave = reclaimed none
end entries 21 blocks 0 quanta 0 retained 0 weak 0 assocs 0
",
        ),
        // A block becomes old in the collection in which its finaliser keeps it, with a younger one.
        (
            "1 new r0 object S keep g0
1 collect full
1 collect full
1 new r1 scanned 0
1 store r0 0 r1
1 drop r0
1 drop r1
1 collect full
1 setroot g0 r0
1 collect young
1 collect full
",
            "1 new r0 object S keep g0 = 1.0
1 begin full = begun
1 condemn = condemned none
1 reclaim = reclaimed none kept none
1 begin full = begun
1 condemn = condemned none
1 reclaim = reclaimed none kept none
1 new r1 scanned 0 = 1.1
1 store r0 0 r1 = ok
1 drop r0 = ok
1 drop r1 = ok
1 begin full = begun
1 condemn = condemned 1.0 1.1
1 finalise = finalised 1.0
1 reclaim = reclaimed none kept 1.0 1.1
1 setroot g0 r0 = ok
1 begin young = begun
1 condemn = condemned none
1 reclaim = reclaimed none kept none
1 begin full = begun
1 condemn = condemned 1.0 1.1
1 reclaim = reclaimed 1.0 1.1 kept none
1 leave = reclaimed none
end entries 23 blocks 0 quanta 0 retained 0 weak 0 assocs 0
",
        ),
        // A block that its finaliser kept grows old like others.
        (
            "1 new r0 object P keep g0
1 drop r0
1 collect young
1 collect young
1 collect young
1 setroot g0 r9
1 collect young
1 collect full
",
            "1 new r0 object P keep g0 = 1.0
1 drop r0 = ok
1 begin young = begun
1 condemn = condemned 1.0
1 finalise = finalised 1.0
1 reclaim = reclaimed none kept 1.0
1 begin young = begun
1 condemn = condemned none
1 reclaim = reclaimed none kept none
1 begin young = begun
1 condemn = condemned none
1 reclaim = reclaimed none kept none
1 setroot g0 r9 = ok
1 begin young = begun
1 condemn = condemned none
1 reclaim = reclaimed none kept none
1 begin full = begun
1 condemn = condemned 1.0
1 reclaim = reclaimed 1.0 kept none
1 leave = reclaimed none
end entries 20 blocks 0 quanta 0 retained 0 weak 0 assocs 0
",
        ),
    ];
    for (script, text) in &rows {
        assert!(rt; is_played(&Host::of(&rt, rt.alloc()), script, text)?);
    }
    Ok(())
}
