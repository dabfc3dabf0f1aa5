//! Scripts with finalisers, each beside its history: they run once, in ascending order, and may keep their blocks.
use crate::tests::{Host, is_played};
use std::test::*;

#[test]
fn finalisers_run_once_and_in_order(rt: HostRuntime) -> Result<(), Fail> {
    let rows = [
        // A null word is passed: the root is null then, and what it alone held goes with the next collection.
        (
            "1 new r0 object S pass g1 0
1 new r1 scanned 0
1 setroot g1 r1
1 drop r0
1 drop r1
1 collect full
1 getroot r2 g1
1 collect full
",
            "1 new r0 object S pass g1 0 = 1.0
1 new r1 scanned 0 = 1.1
1 setroot g1 r1 = ok
1 drop r0 = ok
1 drop r1 = ok
1 begin full = begun
1 condemn = condemned 1.0
1 finalise = finalised 1.0
1 reclaim = reclaimed 1.0 kept none
1 getroot r2 g1 = null
1 begin full = begun
1 condemn = condemned 1.1
1 reclaim = reclaimed 1.1 kept none
1 leave = reclaimed none
end entries 14 blocks 0 quanta 0 retained 0 weak 0 assocs 0
",
        ),
        // Of two words one is null.
        (
            "1 new r0 object SS pass g1 0 pass g2 1
1 new r1 scanned 0
1 setroot g1 r1
1 store r0 1 r1
1 drop r0
1 collect full
1 getroot r2 g1
1 getroot r3 g2
",
            "1 new r0 object SS pass g1 0 pass g2 1 = 1.0
1 new r1 scanned 0 = 1.1
1 setroot g1 r1 = ok
1 store r0 1 r1 = ok
1 drop r0 = ok
1 begin full = begun
1 condemn = condemned 1.0
1 finalise = finalised 1.0
1 reclaim = reclaimed 1.0 kept none
1 getroot r2 g1 = null
1 getroot r3 g2 = 1.1
1 leave = reclaimed none
end entries 12 blocks 1 quanta 1 retained 0 weak 0 assocs 0
",
        ),
        // What is passed is kept with what it leads to, and who passes it is not.
        (
            "1 new r0 object SP pass g4 0
1 new r1 scanned 1
1 new r2 scanned 0
1 store r1 0 r2
1 store r0 0 r1
1 drop r0
1 drop r1
1 drop r2
1 collect full
1 getroot r3 g4
1 load r4 r3 0
",
            "1 new r0 object SP pass g4 0 = 1.0
1 new r1 scanned 1 = 1.1
1 new r2 scanned 0 = 1.2
1 store r1 0 r2 = ok
1 store r0 0 r1 = ok
1 drop r0 = ok
1 drop r1 = ok
1 drop r2 = ok
1 begin full = begun
1 condemn = condemned 1.0 1.1 1.2
1 finalise = finalised 1.0
1 reclaim = reclaimed 1.0 kept 1.1 1.2
1 getroot r3 g4 = 1.1
1 load r4 r3 0 = 1.2
1 leave = reclaimed none
end entries 15 blocks 2 quanta 2 retained 0 weak 0 assocs 0
",
        ),
        // Two finalisers put the same root: the later one has it.
        (
            "1 new r0 object P keep g3
1 new r1 object P keep g3
1 drop r0
1 drop r1
1 collect full
1 getroot r2 g3
",
            "1 new r0 object P keep g3 = 1.0
1 new r1 object P keep g3 = 1.1
1 drop r0 = ok
1 drop r1 = ok
1 begin full = begun
1 condemn = condemned 1.0 1.1
1 finalise = finalised 1.0
1 finalise = finalised 1.1
1 reclaim = reclaimed 1.0 kept 1.1
1 getroot r2 g3 = 1.1
1 leave = reclaimed none
end entries 11 blocks 1 quanta 1 retained 0 weak 0 assocs 0
",
        ),
        // Two actions of one finaliser put the same root.
        (
            "1 new r0 object S keep g3 pass g3 0
1 new r1 object S pass g3 0 keep g3
1 drop r0
1 collect full
1 getroot r2 g3
1 drop r1
1 collect full
1 getroot r2 g3
",
            "1 new r0 object S keep g3 pass g3 0 = 1.0
1 new r1 object S pass g3 0 keep g3 = 1.1
1 drop r0 = ok
1 begin full = begun
1 condemn = condemned 1.0
1 finalise = finalised 1.0
1 reclaim = reclaimed 1.0 kept none
1 getroot r2 g3 = null
1 drop r1 = ok
1 begin full = begun
1 condemn = condemned 1.1
1 finalise = finalised 1.1
1 reclaim = reclaimed none kept 1.1
1 getroot r2 g3 = 1.1
1 leave = reclaimed none
end entries 15 blocks 1 quanta 1 retained 0 weak 0 assocs 0
",
        ),
        // A block that was kept is finalised once, also where another finaliser keeps it again.
        (
            "1 new r0 object P keep g3
1 drop r0
1 collect full
1 getroot r0 g3
1 new r1 object S pass g5 0
1 store r1 0 r0
1 setroot g3 r9
1 drop r0
1 drop r1
1 collect full
1 getroot r0 g3
1 getroot r0 g5
1 drop r0
1 setroot g5 r9
1 collect full
",
            "1 new r0 object P keep g3 = 1.0
1 drop r0 = ok
1 begin full = begun
1 condemn = condemned 1.0
1 finalise = finalised 1.0
1 reclaim = reclaimed none kept 1.0
1 getroot r0 g3 = 1.0
1 new r1 object S pass g5 0 = 1.1
1 store r1 0 r0 = ok
1 setroot g3 r9 = ok
1 drop r0 = ok
1 drop r1 = ok
1 begin full = begun
1 condemn = condemned 1.0 1.1
1 finalise = finalised 1.1
1 reclaim = reclaimed 1.1 kept 1.0
1 getroot r0 g3 = null
1 getroot r0 g5 = 1.0
1 drop r0 = ok
1 setroot g5 r9 = ok
1 begin full = begun
1 condemn = condemned 1.0
1 reclaim = reclaimed 1.0 kept none
1 leave = reclaimed none
end entries 24 blocks 0 quanta 0 retained 0 weak 0 assocs 0
",
        ),
        // Three finalisers in a cycle: one of their roots keeps all.
        (
            "1 new r0 object S keep g0
1 new r1 object S pass g0 0
1 new r2 object S pass g1 0
1 store r0 0 r1
1 store r1 0 r2
1 store r2 0 r0
1 drop r0
1 drop r1
1 drop r2
1 collect full
1 getroot r0 g0
1 getroot r1 g1
1 drop r0
1 drop r1
1 setroot g0 r9
1 collect full
1 setroot g1 r9
1 collect full
",
            "1 new r0 object S keep g0 = 1.0
1 new r1 object S pass g0 0 = 1.1
1 new r2 object S pass g1 0 = 1.2
1 store r0 0 r1 = ok
1 store r1 0 r2 = ok
1 store r2 0 r0 = ok
1 drop r0 = ok
1 drop r1 = ok
1 drop r2 = ok
1 begin full = begun
1 condemn = condemned 1.0 1.1 1.2
1 finalise = finalised 1.0
1 finalise = finalised 1.1
1 finalise = finalised 1.2
1 reclaim = reclaimed none kept 1.0 1.1 1.2
1 getroot r0 g0 = 1.2
1 getroot r1 g1 = 1.0
1 drop r0 = ok
1 drop r1 = ok
1 setroot g0 r9 = ok
1 begin full = begun
1 condemn = condemned none
1 reclaim = reclaimed none kept none
1 setroot g1 r9 = ok
1 begin full = begun
1 condemn = condemned 1.0 1.1 1.2
1 reclaim = reclaimed 1.0 1.1 1.2 kept none
1 leave = reclaimed none
end entries 28 blocks 0 quanta 0 retained 0 weak 0 assocs 0
",
        ),
        // A young collection finalises, too.
        (
            "1 new r0 object P keep g0
1 drop r0
1 collect young
1 setroot g0 r9
1 collect young
",
            "1 new r0 object P keep g0 = 1.0
1 drop r0 = ok
1 begin young = begun
1 condemn = condemned 1.0
1 finalise = finalised 1.0
1 reclaim = reclaimed none kept 1.0
1 setroot g0 r9 = ok
1 begin young = begun
1 condemn = condemned 1.0
1 reclaim = reclaimed 1.0 kept none
1 leave = reclaimed none
end entries 11 blocks 0 quanta 0 retained 0 weak 0 assocs 0
",
        ),
    ];
    for (script, text) in &rows {
        assert!(rt; is_played(&Host::of(&rt, rt.alloc()), script, text)?);
    }
    Ok(())
}

#[test]
fn births_with_actions(rt: HostRuntime) -> Result<(), Fail> {
    let rows = [
        // Of what is wrong with the words of actions the least number is said, and no serial is used.
        (
            "1 new r0 object P pass g0 0 pass g1 1
1 new r0 object SPW pass g0 1
1 new r0 object SPW pass g0 2
1 new r0 object SPW pass g0 3
1 new r0 object SPW keep g0 pass g0 0
1 collect full
1 stats
",
            "1 new r0 object P pass g0 0 pass g1 1 = misuse 2 NoWord
1 new r0 object SPW pass g0 1 = misuse 3 WrongClass
1 new r0 object SPW pass g0 2 = misuse 3 WrongClass
1 new r0 object SPW pass g0 3 = misuse 2 NoWord
1 new r0 object SPW keep g0 pass g0 0 = 1.0
1 begin full = begun
1 condemn = condemned none
1 reclaim = reclaimed none kept none
1 stats = blocks 1 quanta 2 retained 0 weak 0 assocs 0
1 leave = reclaimed none
end entries 10 blocks 1 quanta 2 retained 0 weak 0 assocs 0
",
        ),
        // A serial is used for good.
        (
            "option local 0
option serials 1
1 new r0 scanned 0
1 drop r0
1 collect full
1 new r0 scanned 0
",
            "option local 0
option serials 1
1 new r0 scanned 0 = 1.0
1 drop r0 = ok
1 begin full = begun
1 condemn = condemned 1.0
1 reclaim = reclaimed 1.0 kept none
1 new r0 scanned 0 = misuse 6 SerialsUsed
1 leave = reclaimed none
end entries 7 blocks 0 quanta 0 retained 0 weak 0 assocs 0
",
        ),
    ];
    for (script, text) in &rows {
        assert!(rt; is_played(&Host::of(&rt, rt.alloc()), script, text)?);
    }
    Ok(())
}
