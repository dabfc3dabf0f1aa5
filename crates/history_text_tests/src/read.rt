//! Texts that are read, and written again to the same bytes.
use crate::shared::outcome;
use az_base::Options;
use history_text::{read_text, write_text};
use std::alloc::Global;

/// A block is made, and its thread leaves.
static FIRST: &str = "1 new r0 scanned 2 = 1.0
1 leave = reclaimed 1.0
end entries 2 blocks 0 quanta 0 retained 0 weak 0 assocs 0
";

/// Four threads: a tree with weak parents, a cache, temporaries, a finaliser, and four collections.
static FOUR_THREADS: &str = "1 new r0 object SWP = 1.0
1 new r1 object SWP = 1.1
1 store r0 0 r1 = ok
1 put r1 2 42 = ok
1 setweak r1 1 r0 = 1.0
1 setroot g0 r0 = ok
2 getroot r0 g0 = 1.0
2 new r1 unscanned 16 = 2.0
2 put r1 3 9 = ok
2 setassoc r0 k1 r1 = null
3 new r0 scanned 4 = 3.0
3 new r1 scanned 4 = 3.1
3 store r0 0 r1 = ok
3 store r1 0 r0 = ok
3 drop r0 = ok
3 drop r1 = ok
3 collect local = reclaimed 3.0 3.1
3 getroot r2 g0 = 1.0
4 new r0 object P keep g9 = 4.0
4 new r1 scanned 1 = 4.1
4 store r1 0 r0 = ok
4 setroot g1 r1 = ok
4 retain r0 = 1
4 drop r0 = ok
4 drop r1 = ok
4 begin young = begun
4 condemn = condemned none
4 reclaim = reclaimed none kept none
1 drop r0 = ok
1 load r2 r1 0 = null
1 readweak r3 r1 1 = 1.0
1 setroot g0 r4 = ok
2 drop r0 = ok
2 get r1 3 = 9
3 drop r2 = ok
3 stats = blocks 5 quanta 14 retained 1 weak 1 assocs 1
4 setroot g1 r5 = ok
1 drop r1 = ok
1 drop r3 = ok
1 begin full = begun
1 condemn = condemned 1.0 1.1 4.1
1 reclaim = reclaimed 1.0 1.1 4.1 kept none
4 take r0 4.0 = 4.0
4 release r0 = 0
4 drop r0 = ok
4 begin full = begun
4 condemn = condemned 4.0
4 finalise = finalised 4.0
4 reclaim = reclaimed none kept 4.0
2 drop r1 = ok
2 begin full = begun
2 condemn = condemned 2.0
2 reclaim = reclaimed 2.0 kept none
1 leave = reclaimed none
2 leave = reclaimed none
3 leave = reclaimed none
4 leave = reclaimed none
end entries 57 blocks 1 quanta 1 retained 0 weak 0 assocs 0
";

/// A cycle of two blocks, collected.
static CYCLE: &str = "1 new r0 scanned 1 = 1.0
1 new r1 scanned 1 = 1.1
1 store r0 0 r1 = ok
1 store r1 0 r0 = ok
1 setroot g0 r0 = ok
1 drop r0 = ok
1 drop r1 = ok
1 setroot g0 r0 = ok
1 begin full = begun
1 condemn = condemned 1.0 1.1
1 reclaim = reclaimed 1.0 1.1 kept none
1 leave = reclaimed none
end entries 12 blocks 0 quanta 0 retained 0 weak 0 assocs 0
";

/// Each option, the other calls and replies, the ends of ranges, replies of other calls, and ids in any order. No zone
/// has this history, and the grammar has its text.
static ALL_FORMS: &str = "option heap 1
option local 0
option serials 4294967295
option counts 4294967294
option pending 4095
16 new r15 object SWPPWS keep g255 pass g0 4294967295 = misuse 6 SerialsUsed
16 new r15 object P keep g0 keep g1 keep g2 keep g3 keep g4 keep g5 keep g6 keep g7 = misuse 7 ZoneFull
16 new r0 unscanned 4096 = 16.4294967295
16 new r0 scanned 0 = null
16 load r1 r2 4294967295 = misuse 2 NoWord
16 put r15 0 18446744073709551615 = ok
16 get r15 0 = 18446744073709551615
16 copy r14 r15 = 0
16 count r15 = misuse 1 NullBlock
16 retain r15 = misuse 5 CountFull
16 release r15 = misuse 4 OverRelease
16 take r0 16.4294967295 = misuse 8 NotHeld
16 setassoc r0 k255 r1 = null
16 getassoc r1 r2 k0 = 1.1
16 setweak w255 r0 = null
16 setweak r1 7 r0 = misuse 3 WrongClass
16 readweak r0 w0 = 1.0
16 readweak r0 r1 0 = null
16 collect local = reclaimed none
16 begin young = busy
16 finalise = finalised 2.3
16 reclaim = reclaimed none kept 3.1 3.0
16 reclaim = reclaimed 3.1 3.0 3.1
16 stats = ok
16 drop r0 = blocks 1 quanta 2 retained 3 weak 4 assocs 5
16 leave = begun
end entries 26 blocks 18446744073709551615 quanta 0 retained 1 weak 2 assocs 3
";

/// A text is read, and what it says is written as that text.
fn is_written_again(alloc: Global, text: &str) -> Option<bool> {
    let read = read_text(alloc, text.as_bytes()).ok()?;
    let entries = read.journal.entries();
    let written = write_text(alloc, &read.options, entries, &read.stats).ok()?;
    Some(written.as_str() == text)
}

fn are_written_again(alloc: Global, rows: &[&str]) -> bool {
    for text in rows {
        if is_written_again(alloc, text) != Some(true) {
            return false;
        }
    }
    true
}

/// Each text says so many entries.
fn are_read(alloc: Global, rows: &[(&str, usize)]) -> bool {
    for (text, entries) in rows {
        if outcome(alloc, text.as_bytes()) != Some(Ok(*entries)) {
            return false;
        }
    }
    true
}

/// The options that a text says.
fn options_of(alloc: Global, text: &str) -> Option<Options> {
    let read = read_text(alloc, text.as_bytes()).ok()?;
    Some(read.options)
}

#[test]
fn outputs_are_written_again(rt: HostRuntime) {
    let same = are_written_again(rt.alloc(), &[FIRST, CYCLE, FOUR_THREADS, ALL_FORMS]);
    assert!(rt; same);
}

#[test]
fn entries_are_counted(rt: HostRuntime) {
    let agree = are_read(
        rt.alloc(),
        &[
            (FIRST, 2),
            (CYCLE, 12),
            (FOUR_THREADS, 57),
            (ALL_FORMS, 26),
            (
                "end entries 0 blocks 0 quanta 0 retained 0 weak 0 assocs 0\n",
                0,
            ),
        ],
    );
    assert!(rt; agree);
}

#[test]
fn options_are_said(rt: HostRuntime) {
    let said = options_of(rt.alloc(), ALL_FORMS);
    let options = Options {
        heap_quanta: 1,
        local_quanta: 0,
        serials: 4_294_967_295,
        counts: 4_294_967_294,
        pending: 4_095,
    };
    assert!(rt; said == Some(options));
}

/// The room of a journal that was read, where one more entry was asked for.
fn takes_one_more(alloc: Global) -> Option<bool> {
    let mut read = read_text(alloc, FIRST.as_bytes()).ok()?;
    read.journal.reserve(1).ok()?;
    Some(read.journal.room() > 0 && read.journal.owed() == 0)
}

#[test]
fn a_journal_that_was_read_goes_on(rt: HostRuntime) {
    assert!(rt; takes_one_more(rt.alloc()) == Some(true));
}
