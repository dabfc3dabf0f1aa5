//! Texts of no history, each with its first line that can't stand.
use crate::shared::outcome;
use std::alloc::Global;

/// Each text has this first line that can't stand.
fn are_wrong_at(alloc: Global, rows: &[(&str, u64)]) -> bool {
    for (text, line) in rows {
        if outcome(alloc, text.as_bytes()) != Some(Err(*line)) {
            return false;
        }
    }
    true
}

#[test]
fn lines_are_missing_or_too_many(rt: HostRuntime) {
    let agree = are_wrong_at(
        rt.alloc(),
        &[
            ("", 1),
            ("\n", 1),
            ("1 stats = ok", 1),
            ("1 stats = ok\n", 2),
            ("option heap 4\n1 leave = reclaimed none\n", 3),
            ("1 new r0 scanned 2 = 1.0\n1 leave = reclaimed 1.0\n", 3),
            (
                "end entries 0 blocks 0 quanta 0 retained 0 weak 0 assocs 0",
                1,
            ),
            (
                "1 stats = ok\nend entries 1 blocks 0 quanta 0 retained 0 weak 0 assocs 0",
                2,
            ),
            (
                "1 stats = ok\nend entries 0 blocks 0 quanta 0 retained 0 weak 0 assocs 0\n",
                2,
            ),
            (
                "1 stats = ok\nend entries 2 blocks 0 quanta 0 retained 0 weak 0 assocs 0\n",
                2,
            ),
            (
                "end entries 0 blocks 0 quanta 0 retained 0 weak 0 assocs 0\n\n",
                2,
            ),
            (
                "end entries 0 blocks 0 quanta 0 retained 0 weak 0 assocs 0\n1 stats = ok\n",
                2,
            ),
            (
                "end entries 0 blocks 0 quanta 0 retained 0 weak 0 assocs 0\nx",
                2,
            ),
        ],
    );
    assert!(rt; agree);
}

#[test]
fn options_are_out_of_place(rt: HostRuntime) {
    let agree = are_wrong_at(
        rt.alloc(),
        &[
            ("option local 0\noption heap 1\n", 2),
            ("option serials 1\noption local 0\n", 2),
            ("option counts 1\noption serials 1\n", 2),
            ("option pending 1\noption counts 1\n", 2),
            ("option heap 4\noption heap 4\n", 2),
            ("option local 4\noption local 5\n", 2),
            ("option serials 4\noption serials 4\n", 2),
            ("option counts 4\noption counts 4\n", 2),
            ("option pending 4\noption pending 4\n", 2),
            ("1 stats = ok\noption heap 4\n", 2),
            ("option age 1\n", 1),
            ("option heap\n", 1),
            ("option heap 1 1\n", 1),
        ],
    );
    assert!(rt; agree);
}

#[test]
fn options_are_out_of_range(rt: HostRuntime) {
    let agree = are_wrong_at(
        rt.alloc(),
        &[
            ("option heap 1048576\n", 1),
            ("option local 65536\n", 1),
            ("option serials 4294967296\n", 1),
            ("option counts 4294967295\n", 1),
            ("option pending 4096\n", 1),
            ("option heap 0\n", 1),
            ("option serials 0\n", 1),
            ("option counts 0\n", 1),
            ("option pending 0\n", 1),
            ("option heap 1048577\n", 1),
            ("option local 65537\n", 1),
            ("option serials 4294967297\n", 1),
            ("option counts 4294967296\n", 1),
            ("option pending 4097\n", 1),
        ],
    );
    assert!(rt; agree);
}

#[test]
fn words_are_spelled_otherwise(rt: HostRuntime) {
    let agree = are_wrong_at(
        rt.alloc(),
        &[
            ("option heap 04\n", 1),
            ("01 stats = ok\n", 1),
            ("1 copy r01 r2 = ok\n", 1),
            ("1 stats = ok\n1 get r0 00 = 7\n", 2),
            ("1 get r0 0 = 07\n", 1),
            ("1 getroot r0 g0 = 1.00\n", 1),
            ("1  stats = ok\n", 1),
            (" 1 stats = ok\n", 1),
            ("1 stats = ok \n", 1),
            ("1\tstats = ok\n", 1),
            ("1 stats = ok\r\n", 1),
            ("1 leave = reclaimed none\r\n", 1),
            ("1 leave = reclaimed 1.0  1.1\n", 1),
            ("\u{feff}1 stats = ok\n", 1),
            ("1 stats=ok\n", 1),
            ("1 stats ok\n", 1),
            ("1 stats = OK\n", 1),
        ],
    );
    assert!(rt; agree);
}

#[test]
fn no_line_of_the_grammar(rt: HostRuntime) {
    let agree = are_wrong_at(
        rt.alloc(),
        &[
            ("# a comment\n", 1),
            ("1 stats = ok\n\n", 2),
            ("0 stats = ok\n", 1),
            ("17 stats = ok\n", 1),
            ("1 collect full = begun\n", 1),
            ("1 begin local = begun\n", 1),
            ("1 copy r16 r0 = ok\n", 1),
            ("1 setroot g256 r0 = ok\n", 1),
            ("1 new r0 scanned 4097 = 1.0\n", 1),
            ("1 new r0 scanned 1 keep g0 = 1.0\n", 1),
            ("1 new r0 object SXP = 1.0\n", 1),
            ("1 stats now = ok\n", 1),
            ("1 get r0 0 = 18446744073709551616\n", 1),
            ("1 getroot r0 g0 = 17.0\n", 1),
            ("1 getroot r0 g0 = 1.4294967296\n", 1),
            ("1 copy r0 r1 = misuse 1 NoWord\n", 1),
            ("1 copy r0 r1 = misuse 9 NotHeld\n", 1),
            ("1 condemn = condemned\n", 1),
            ("1 condemn = condemned none 1.0\n", 1),
            ("1 reclaim = reclaimed none kept\n", 1),
            ("1 reclaim = kept none reclaimed none\n", 1),
            (
                "end entries 0 blocks 0 quanta 0 retained 0 assocs 0 weak 0\n",
                1,
            ),
        ],
    );
    assert!(rt; agree);
}
