//! What is read of scripts and of calls, row by row: the words of outside vectors, and why a text is refused.
use az_base::Options;
use az_words::Words;
use call_words::{ArgumentErr, arguments, call_name};
use heap_script::{Cause, ScriptErr, parse};
use std::alloc::Global;
use zone_model::{Act, Call};

/// The number of call lines of a script, or its first cause and the line that has it; None where memory ran out.
type Outcome = Option<Result<usize, (Cause, u32)>>;

fn outcome(alloc: Global, bytes: &[u8]) -> Outcome {
    match parse(alloc, bytes) {
        Ok(script) => Some(Ok(script.lines.len())),
        Err(ScriptErr::Refused { cause, line }) => Some(Err((cause, line))),
        Err(ScriptErr::NoMemory) => None,
    }
}

/// Each text is a script of so many call lines.
fn are_read(alloc: Global, rows: &[(&[u8], usize)]) -> bool {
    for (bytes, lines) in rows {
        if outcome(alloc, bytes) != Some(Ok(*lines)) {
            return false;
        }
    }
    true
}

/// Each text is refused at this line for this cause.
fn are_refused(alloc: Global, rows: &[(&[u8], Cause, u32)]) -> bool {
    for (bytes, cause, line) in rows {
        if outcome(alloc, bytes) != Some(Err((*cause, *line))) {
            return false;
        }
    }
    true
}

#[test]
fn scripts_are_read(rt: HostRuntime) {
    let agree = are_read(
        rt.alloc(),
        &[
            (b"".as_slice(), 0),
            (b"#\n".as_slice(), 0),
            (b"\n \t \n# 1 new\n  #1 new\n".as_slice(), 0),
            (b"1 new r0 scanned 0\n".as_slice(), 1),
            (b"16 new r15 scanned 4096".as_slice(), 1),
            (b"\t 1 \t new\tr0  scanned\t 4096 \t\n".as_slice(), 1),
            (b"01 new r007 scanned 0000\n".as_slice(), 1),
            (
                b"00000000000000000016 new r00000000000000000015 scanned 00000000000000004096".as_slice(),
                1,
            ),
            (
                b"# one\n2 new r0 scanned 1\n\n002 new r0 scanned 1".as_slice(),
                2,
            ),
            (b"1 collect local".as_slice(), 1),
            (b"16 collect\tlocal \n1 stats\n016 stats".as_slice(), 3),
            (b"1 collect young\n1 collect full".as_slice(), 2),
        ],
    );
    assert!(rt; agree);
}

#[test]
fn causes_stand_in_order(rt: HostRuntime) {
    let agree = are_refused(
        rt.alloc(),
        &[
            (b"# \xff".as_slice(), Cause::NotText, 1),
            (
                b"1 new r0 scanned 0\n# a\n\xc3\n".as_slice(),
                Cause::NotText,
                3,
            ),
            (b"x\n\xff".as_slice(), Cause::NoThread, 1),
            (
                b"# one\n\n17 new r0 scanned 0".as_slice(),
                Cause::NoThread,
                3,
            ),
            (b"0 new r0 scanned 0".as_slice(), Cause::NoThread, 1),
            (
                b"000000000000000000001 new r0 scanned 0".as_slice(),
                Cause::NoThread,
                1,
            ),
            (
                b"18446744073709551617 new r0 scanned 0".as_slice(),
                Cause::NoThread,
                1,
            ),
            (b"\r\n".as_slice(), Cause::NoThread, 1),
            (b"\xc2\xa01 new r0 scanned 0".as_slice(), Cause::NoThread, 1),
            (b"1".as_slice(), Cause::NoCall, 1),
            (b"1 stats\r\n".as_slice(), Cause::NoCall, 1),
            (b"1 New r0 scanned 0".as_slice(), Cause::NoCall, 1),
            (b"1 # new r0 scanned 0".as_slice(), Cause::NoCall, 1),
            (b"1 collect".as_slice(), Cause::WrongArgument, 1),
            (b"1 collect weak".as_slice(), Cause::WrongArgument, 1),
            (b"1 collect Local".as_slice(), Cause::WrongArgument, 1),
            (
                b"1 collect local young".as_slice(),
                Cause::TooManyArguments,
                1,
            ),
            (
                b"1 collect full local".as_slice(),
                Cause::TooManyArguments,
                1,
            ),
            (b"1 Retain r0".as_slice(), Cause::NoCall, 1),
            (b"1 begin young".as_slice(), Cause::NoCall, 1),
            (b"1 leave".as_slice(), Cause::NoCall, 1),
            (b"1 new".as_slice(), Cause::WrongArgument, 1),
            (b"1 new r scanned 0".as_slice(), Cause::WrongArgument, 1),
            (b"1 new 0 scanned 0".as_slice(), Cause::WrongArgument, 1),
            (
                b"1 new r16 scanned 0 more".as_slice(),
                Cause::WrongArgument,
                1,
            ),
            (b"1 new r0 Scanned 0".as_slice(), Cause::WrongArgument, 1),
            (b"1 new r0 object".as_slice(), Cause::WrongArgument, 1),
            (
                b"1 new r0 scanned 0 keep g1".as_slice(),
                Cause::TooManyArguments,
                1,
            ),
            (b"1 new r0 scanned".as_slice(), Cause::WrongArgument, 1),
            (b"1 new r0 scanned 4097".as_slice(), Cause::WrongArgument, 1),
            (
                b"1 new r0 scanned 18446744073709551616".as_slice(),
                Cause::WrongArgument,
                1,
            ),
            (
                b"1 new r0 scanned 000000000000000000000".as_slice(),
                Cause::WrongArgument,
                1,
            ),
            (
                b"1 new r0 scanned 1\r\n".as_slice(),
                Cause::WrongArgument,
                1,
            ),
            (
                b"1 new r0 scanned 0\n2 new r0 scanned 0 more".as_slice(),
                Cause::TooManyArguments,
                2,
            ),
            (b"1 new r0 scanned 0\n2 what".as_slice(), Cause::NoCall, 2),
            (b"1 stats\n2 stats\n17 stats".as_slice(), Cause::NoThread, 3),
            (
                b"1 collect local\noption heap 1".as_slice(),
                Cause::NoThread,
                2,
            ),
            (
                b"1 new r0 scanned 0 # note".as_slice(),
                Cause::TooManyArguments,
                1,
            ),
        ],
    );
    assert!(rt; agree);
}

#[test]
fn actions_are_read(rt: HostRuntime) {
    let agree = are_read(
        rt.alloc(),
        &[
            (b"1 new r0 object P keep g9".as_slice(), 1),
            (
                b"1 new r0 object SP pass g255 04294967295 keep g0".as_slice(),
                1,
            ),
            (
                b"1 new r0 object S keep g1 keep g1 keep g1 keep g1 keep g1 keep g1 keep g1 keep g1".as_slice(),
                1,
            ),
        ],
    );
    assert!(rt; agree);
}

#[test]
fn actions_are_refused(rt: HostRuntime) {
    let agree = are_refused(
        rt.alloc(),
        &[
            (
                b"1 new r0 object S keep".as_slice(),
                Cause::WrongArgument,
                1,
            ),
            (
                b"1 new r0 object S keep r1".as_slice(),
                Cause::WrongArgument,
                1,
            ),
            (
                b"1 new r0 object S pass g1".as_slice(),
                Cause::WrongArgument,
                1,
            ),
            (
                b"1 new r0 object S keep g256 more".as_slice(),
                Cause::WrongArgument,
                1,
            ),
            (
                b"1 new r0 object S Keep g1".as_slice(),
                Cause::TooManyArguments,
                1,
            ),
            (
                b"1 new r0 object S keep g1 g2".as_slice(),
                Cause::TooManyArguments,
                1,
            ),
            (
                b"1 new r0 object S keep g1 keep g1 keep g1 keep g1 keep g1 keep g1 keep g1 keep g1 keep".as_slice(),
                Cause::TooManyArguments,
                1,
            ),
        ],
    );
    assert!(rt; agree);
}

#[test]
fn counts_and_associations_are_read(rt: HostRuntime) {
    let agree = are_read(
        rt.alloc(),
        &[
            (b"1 retain r0".as_slice(), 1),
            (b"1 release r15".as_slice(), 1),
            (b"1 count r007".as_slice(), 1),
            (b"1 take r0 1.0".as_slice(), 1),
            (b"1 take r15 016.04294967295".as_slice(), 1),
            (b"1 setassoc r0 k255 r1".as_slice(), 1),
            (b"1 setassoc r0 k00 r0".as_slice(), 1),
            (b"1 getassoc r0 r1 k0".as_slice(), 1),
            (b"1 getassoc\tr2 r2 k5 ".as_slice(), 1),
        ],
    );
    assert!(rt; agree);
}

#[test]
fn counts_and_associations_are_refused(rt: HostRuntime) {
    let agree = are_refused(
        rt.alloc(),
        &[
            (b"1 retain".as_slice(), Cause::WrongArgument, 1),
            (b"1 retain 0".as_slice(), Cause::WrongArgument, 1),
            (b"1 retain r16".as_slice(), Cause::WrongArgument, 1),
            (b"1 retain r0 r1".as_slice(), Cause::TooManyArguments, 1),
            (b"1 release".as_slice(), Cause::WrongArgument, 1),
            (b"1 release q0".as_slice(), Cause::WrongArgument, 1),
            (b"1 release r0 1".as_slice(), Cause::TooManyArguments, 1),
            (b"1 count".as_slice(), Cause::WrongArgument, 1),
            (b"1 count 1.0".as_slice(), Cause::WrongArgument, 1),
            (b"1 count r0 r0".as_slice(), Cause::TooManyArguments, 1),
            (b"1 take".as_slice(), Cause::WrongArgument, 1),
            (b"1 take r0".as_slice(), Cause::WrongArgument, 1),
            (b"1 take 1.0 r0".as_slice(), Cause::WrongArgument, 1),
            (b"1 take r0 r1".as_slice(), Cause::WrongArgument, 1),
            (b"1 take r0 17.0".as_slice(), Cause::WrongArgument, 1),
            (
                b"1 take r0 1.4294967296".as_slice(),
                Cause::WrongArgument,
                1,
            ),
            (b"1 take r0 1.0 1.1".as_slice(), Cause::TooManyArguments, 1),
            (b"1 setassoc".as_slice(), Cause::WrongArgument, 1),
            (b"1 setassoc r0".as_slice(), Cause::WrongArgument, 1),
            (b"1 setassoc r0 k0".as_slice(), Cause::WrongArgument, 1),
            (b"1 setassoc r0 r1 k0".as_slice(), Cause::WrongArgument, 1),
            (b"1 setassoc r0 k256 r1".as_slice(), Cause::WrongArgument, 1),
            (b"1 setassoc r0 g1 r1".as_slice(), Cause::WrongArgument, 1),
            (b"1 setassoc r0 k0 1.0".as_slice(), Cause::WrongArgument, 1),
            (
                b"1 setassoc r0 k0 r1 r2".as_slice(),
                Cause::TooManyArguments,
                1,
            ),
            (b"1 getassoc".as_slice(), Cause::WrongArgument, 1),
            (b"1 getassoc r0".as_slice(), Cause::WrongArgument, 1),
            (b"1 getassoc r0 r1".as_slice(), Cause::WrongArgument, 1),
            (b"1 getassoc r0 k1 r1".as_slice(), Cause::WrongArgument, 1),
            (b"1 getassoc r0 r1 1".as_slice(), Cause::WrongArgument, 1),
            (
                b"1 getassoc r0 r1 k1 k2".as_slice(),
                Cause::TooManyArguments,
                1,
            ),
        ],
    );
    assert!(rt; agree);
}

#[test]
fn weak_calls_are_read(rt: HostRuntime) {
    let agree = are_read(
        rt.alloc(),
        &[
            (b"1 setweak w0 r0".as_slice(), 1),
            (b"1 setweak w255 r15".as_slice(), 1),
            (b"1 setweak r0 0 r1".as_slice(), 1),
            (b"1 setweak r3 04294967295 r3".as_slice(), 1),
            (b"1 readweak r0 w00".as_slice(), 1),
            (b"1 readweak r1 r0 7".as_slice(), 1),
        ],
    );
    assert!(rt; agree);
}

#[test]
fn weak_calls_are_refused(rt: HostRuntime) {
    let agree = are_refused(
        rt.alloc(),
        &[
            (b"1 setweak".as_slice(), Cause::WrongArgument, 1),
            (b"1 setweak w0".as_slice(), Cause::WrongArgument, 1),
            (b"1 setweak w256 r0".as_slice(), Cause::WrongArgument, 1),
            (b"1 setweak g0 r0".as_slice(), Cause::WrongArgument, 1),
            (b"1 setweak r0 r1".as_slice(), Cause::WrongArgument, 1),
            (b"1 setweak r0 0".as_slice(), Cause::WrongArgument, 1),
            (b"1 setweak w0 1 r0".as_slice(), Cause::WrongArgument, 1),
            (
                b"1 setweak r0 4294967296 r1".as_slice(),
                Cause::WrongArgument,
                1,
            ),
            (b"1 setweak w0 r0 r1".as_slice(), Cause::TooManyArguments, 1),
            (
                b"1 setweak r0 0 r1 0".as_slice(),
                Cause::TooManyArguments,
                1,
            ),
            (b"1 readweak".as_slice(), Cause::WrongArgument, 1),
            (b"1 readweak r0".as_slice(), Cause::WrongArgument, 1),
            (b"1 readweak w0 r0".as_slice(), Cause::WrongArgument, 1),
            (b"1 readweak r0 r1".as_slice(), Cause::WrongArgument, 1),
            (b"1 readweak r0 r1 w0".as_slice(), Cause::WrongArgument, 1),
            (b"1 readweak r0 0 r1".as_slice(), Cause::WrongArgument, 1),
            (b"1 readweak r0 w0 0".as_slice(), Cause::TooManyArguments, 1),
            (
                b"1 readweak r0 r1 0 0".as_slice(),
                Cause::TooManyArguments,
                1,
            ),
        ],
    );
    assert!(rt; agree);
}

#[test]
fn options_are_refused(rt: HostRuntime) {
    let agree = are_refused(
        rt.alloc(),
        &[
            (b"Option heap 1".as_slice(), Cause::NoThread, 1),
            (
                b"1 new r0 scanned 0\noption heap 1".as_slice(),
                Cause::NoThread,
                2,
            ),
            (b"option".as_slice(), Cause::NoCall, 1),
            (b"option size 1".as_slice(), Cause::NoCall, 1),
            (b"option Heap 1".as_slice(), Cause::NoCall, 1),
            (b"option heap".as_slice(), Cause::WrongArgument, 1),
            (b"option heap r1".as_slice(), Cause::WrongArgument, 1),
            (b"option heap 0".as_slice(), Cause::WrongArgument, 1),
            (b"option heap 1048577 x".as_slice(), Cause::WrongArgument, 1),
            (b"option local 65537".as_slice(), Cause::WrongArgument, 1),
            (b"option serials 0".as_slice(), Cause::WrongArgument, 1),
            (
                b"option serials 4294967297".as_slice(),
                Cause::WrongArgument,
                1,
            ),
            (b"option counts 0".as_slice(), Cause::WrongArgument, 1),
            (
                b"option counts 4294967296".as_slice(),
                Cause::WrongArgument,
                1,
            ),
            (
                b"option pending 4096\noption pending 0".as_slice(),
                Cause::WrongArgument,
                2,
            ),
            (b"option pending 4097".as_slice(), Cause::WrongArgument, 1),
            (b"option heap 1 2".as_slice(), Cause::TooManyArguments, 1),
        ],
    );
    assert!(rt; agree);
}

/// Whether the words are a call with its arguments and no more; None where an argument is wrong.
fn is_whole(alloc: Global, line: &[u8]) -> Option<bool> {
    let mut words = Words::new(line);
    let name = call_name(words.next()?)?;
    match arguments(alloc, name, 8, &mut words) {
        Ok(_) => Some(words.next().is_none()),
        Err(ArgumentErr::Wrong | ArgumentErr::NoMemory) => None,
    }
}

/// Each call is read so far.
fn are_whole(alloc: Global, rows: &[(&[u8], Option<bool>)]) -> bool {
    for (line, whole) in rows {
        if is_whole(alloc, line) != *whole {
            return false;
        }
    }
    true
}

#[test]
fn calls_have_their_arguments(rt: HostRuntime) {
    let agree = are_whole(
        rt.alloc(),
        &[
            (b"load r0 r15 4294967295".as_slice(), Some(true)),
            (b"store r1 0 r2".as_slice(), Some(true)),
            (b"put r1 2 18446744073709551615".as_slice(), Some(true)),
            (b"get r1 00".as_slice(), Some(true)),
            (b"copy r1 r1".as_slice(), Some(true)),
            (b"drop r015".as_slice(), Some(true)),
            (b"collect local".as_slice(), Some(true)),
            (b"collect young".as_slice(), Some(true)),
            (b"collect\tfull ".as_slice(), Some(true)),
            (b"setroot g255 r0".as_slice(), Some(true)),
            (b"getroot r0 g0".as_slice(), Some(true)),
            (b"retain r0".as_slice(), Some(true)),
            (b"release r0".as_slice(), Some(true)),
            (b"count r0".as_slice(), Some(true)),
            (b"take r0 16.4294967295".as_slice(), Some(true)),
            (b"take r0 01.00".as_slice(), Some(true)),
            (b"setassoc r0 k255 r1".as_slice(), Some(true)),
            (b"getassoc r0 r1 k0".as_slice(), Some(true)),
            (b"setweak w255 r0".as_slice(), Some(true)),
            (b"setweak r0 1 r2".as_slice(), Some(true)),
            (b"readweak r0 w0".as_slice(), Some(true)),
            (b"readweak r0 r1 7".as_slice(), Some(true)),
            (b"stats".as_slice(), Some(true)),
            (b"load r0 r1".as_slice(), None),
            (b"load r0 1 r1".as_slice(), None),
            (b"load r0 r1 4294967296".as_slice(), None),
            (b"load r0 r1 0 0".as_slice(), Some(false)),
            (b"put r1 2 18446744073709551616".as_slice(), None),
            (b"put r1 2 000000000000000000001".as_slice(), None),
            (b"collect".as_slice(), None),
            (b"collect all".as_slice(), None),
            (b"collect full full".as_slice(), Some(false)),
            (b"setroot g".as_slice(), None),
            (b"setroot g256 r0".as_slice(), None),
            (b"setroot w1 r0".as_slice(), None),
            (b"take r0 1".as_slice(), None),
            (b"take r0 1.".as_slice(), None),
            (b"take r0 .1".as_slice(), None),
            (b"take r0 0.1".as_slice(), None),
            (b"take r0 17.1".as_slice(), None),
            (b"take r0 1.4294967296".as_slice(), None),
            (b"take r0 1.2.3".as_slice(), None),
            (b"take r0 1 .2".as_slice(), None),
            (b"setassoc r0 5 r1".as_slice(), None),
            (b"setweak w256 r0".as_slice(), None),
            (b"setweak r0 r1".as_slice(), None),
            (b"setweak w0 1 r0".as_slice(), None),
            (b"readweak r0 r1".as_slice(), None),
            (b"readweak r0 w1 0".as_slice(), Some(false)),
            (b"stats now".as_slice(), Some(false)),
        ],
    );
    assert!(rt; agree);
}

/// The numbers of words and of actions of a new object with these words, and whether a word is left; None where an
/// argument is wrong.
fn object_of(alloc: Global, line: &[u8]) -> Option<(u32, usize, bool)> {
    let mut words = Words::new(line);
    let name = call_name(words.next()?)?;
    match arguments(alloc, name, 8, &mut words) {
        Ok(
            Act::Call(
                Call::New {
                    layout,
                    actions,
                    ..
                },
            ),
        ) => Some((layout.len(), actions.len(), words.next().is_some())),
        _ => None,
    }
}

/// Each object has so many words and actions.
fn are_objects(alloc: Global, rows: &[(&[u8], Option<(u32, usize, bool)>)]) -> bool {
    for (line, object) in rows {
        if object_of(alloc, line) != *object {
            return false;
        }
    }
    true
}

#[test]
fn objects_have_letters_and_actions(rt: HostRuntime) {
    let agree = are_objects(
        rt.alloc(),
        &[
            (b"new r0 object SWP".as_slice(), Some((3, 0, false))),
            (
                b"new r0 object SSWP keep g9".as_slice(),
                Some((4, 1, false)),
            ),
            (
                b"new r0 object S pass g1 0 keep g255".as_slice(),
                Some((1, 2, false)),
            ),
            (
                b"new r0 object S more keep g9".as_slice(),
                Some((1, 0, true)),
            ),
            (
                b"new r0 object S keep g1 keep g1 keep g1 keep g1 keep g1 keep g1 keep g1 keep g1".as_slice(),
                Some((1, 8, false)),
            ),
            (
                b"new r0 object S keep g1 keep g1 keep g1 keep g1 keep g1 keep g1 keep g1 keep g1 keep".as_slice(),
                Some((1, 8, true)),
            ),
            (b"new r0 object S keep".as_slice(), None),
            (b"new r0 object S keep r1".as_slice(), None),
            (b"new r0 object S pass g1".as_slice(), None),
            (b"new r0 object S pass g1 r0".as_slice(), None),
            (b"new r0 object".as_slice(), None),
            (b"new r0 object SXP".as_slice(), None),
            (b"new r0 object swp".as_slice(), None),
            (b"new r0 object S\xc3\xa9".as_slice(), None),
        ],
    );
    assert!(rt; agree);
}

/// A new object of so many words.
fn long_object(alloc: Global, letters: usize) -> Option<(u32, usize, bool)> {
    let mut line = Vec::from_slice(alloc, b"new r0 object ").ok()?;
    let letters = vec![in alloc; b'S'; letters].ok()?;
    line.extend_from_slice(&letters).ok()?;
    object_of(alloc, &line)
}

#[test]
fn objects_have_at_most_4096_words(rt: HostRuntime) {
    let longest = long_object(rt.alloc(), 4096) == Some((4096, 0, false));
    let longer = long_object(rt.alloc(), 4097);
    assert!(rt; longest && longer.is_none());
}

/// Each text sets these options.
fn set_options(alloc: Global, rows: &[(&[u8], Options)]) -> bool {
    for (bytes, options) in rows {
        match parse(alloc, bytes) {
            Ok(script) => {
                if script.options != *options {
                    return false;
                }
            }
            Err(_) => return false,
        }
    }
    true
}

#[test]
fn options_are_set(rt: HostRuntime) {
    let usual = Options::usual();
    let agree = set_options(
        rt.alloc(),
        &[
            (b"".as_slice(), usual),
            (
                b"option heap 1\n1 new r0 scanned 0".as_slice(),
                Options {
                    heap_quanta: 1,
                    ..usual
                },
            ),
            (
                b"option local 0\noption serials 1\n".as_slice(),
                Options {
                    local_quanta: 0,
                    serials: 1,
                    ..usual
                },
            ),
            (
                b"option counts 1\n#\n\t option\t pending 000000000000000001".as_slice(),
                Options {
                    counts: 1,
                    pending: 1,
                    ..usual
                },
            ),
            (
                b"option pending 7\noption heap 9\noption pending 8\n".as_slice(),
                Options {
                    heap_quanta: 9,
                    pending: 8,
                    ..usual
                },
            ),
            (
                b"option heap 1048576\noption local 65536\noption serials 4294967296\noption counts 4294967295\noption pending 4096".as_slice(),
                usual,
            ),
        ],
    );
    assert!(rt; agree);
}

/// What is found of so many empty lines, so many spaces, and this end.
fn long_outcome(alloc: Global, feeds: usize, spaces: usize, end: &[u8]) -> Outcome {
    let mut bytes = vec![in alloc; b'\n'; feeds].ok()?;
    let blank = vec![in alloc; b' '; spaces].ok()?;
    bytes.extend_from_slice(&blank).ok()?;
    bytes.extend_from_slice(end).ok()?;
    outcome(alloc, &bytes)
}

/// Each long text is found to be this.
fn keep_limits(alloc: Global, rows: &[(usize, usize, &[u8], Result<usize, (Cause, u32)>)]) -> bool {
    for (feeds, spaces, end, wanted) in rows {
        if long_outcome(alloc, *feeds, *spaces, end) != Some(*wanted) {
            return false;
        }
    }
    true
}

#[test]
fn lines_have_limits(rt: HostRuntime) {
    let agree = keep_limits(
        rt.alloc(),
        &[
            (0, 8192, b"\n".as_slice(), Ok(0)),
            (0, 8193, b"\n".as_slice(), Err((Cause::LineTooLong, 1))),
            (0, 8192, b"\xff".as_slice(), Err((Cause::NotText, 1))),
            (65_536, 0, b"".as_slice(), Ok(0)),
            (
                65_536,
                0,
                b"\n".as_slice(),
                Err((Cause::TooManyLines, 65_537)),
            ),
            (
                65_536,
                0,
                b"# note".as_slice(),
                Err((Cause::TooManyLines, 65_537)),
            ),
            (
                65_536,
                8193,
                b"".as_slice(),
                Err((Cause::LineTooLong, 65_537)),
            ),
            (65_536, 0, b"\xff".as_slice(), Err((Cause::NotText, 65_537))),
        ],
    );
    assert!(rt; agree);
}

/// The text is one line of thread 3, which makes a scanned block of seven words in r9.
fn says_its_call(alloc: Global, bytes: &[u8]) -> bool {
    let Ok(script) = parse(alloc, bytes) else {
        return false;
    };
    match script.lines.as_slice() {
        [line] => {
            line.thread.get() == 3
                && match &line.act {
                    Act::Call(
                        Call::New {
                            to,
                            layout,
                            actions,
                        },
                    ) => {
                        to.get() == 9
                            && layout.len() == 7
                            && layout.kind_number() == 0
                            && actions.is_empty()
                    }
                    _ => false,
                }
        }
        _ => false,
    }
}

#[test]
fn lines_say_their_calls(rt: HostRuntime) {
    let agree = says_its_call(rt.alloc(), b"3 new r9 scanned 7");
    assert!(rt; agree);
}
