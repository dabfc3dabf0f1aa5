//! Workers that wait for one another between their lines: what a `Pace` sees of two threads that run a script.
use crate::tests::{Host, ran_at, sink};
use auto_zone::Session;
use az_base::{Reg, ThreadNo};
use run_zone::Pace;
use std::hint::spin_loop;
use std::sync::Wait;
use std::sync::atomic::AtomicBool;
use std::sync::atomic::Ordering::SeqCst;
use std::test::*;
use std::thread::Threads;
use std::{str, thread};

/// How often a worker looks whether another has come so far.
const MOST_LOOKS: u32 = 100_000_000;

/// After so many looks a worker lets others run.
const LOOKS_A_TURN: u32 = 1_000;

/// Whether the flag is set before so many looks are over.
fn is_set_in_time(flag: &AtomicBool) -> bool {
    for look in 0..MOST_LOOKS {
        if flag.load(SeqCst) {
            return true;
        }
        if look % LOOKS_A_TURN == 0 {
            thread::yield_now();
        } else {
            spin_loop();
        }
    }
    false
}

/// What one thread has come to, and whether it has seen the other come so far.
#[derive(Drop)]
struct Side {
    has_come: AtomicBool,
    has_met: AtomicBool,
}

impl Side {
    fn new() -> Side {
        Side {
            has_come: AtomicBool::new(false),
            has_met: AtomicBool::new(false),
        }
    }

    /// It comes, and waits for the other one.
    fn come(&self, other: &Side) {
        self.has_come.store(true, SeqCst);
        if is_set_in_time(&other.has_come) {
            self.has_met.store(true, SeqCst);
        }
    }
}

/// Threads 1 and 2 wait for each other before their first lines.
#[derive(Drop)]
struct Meeting {
    one: Side,
    two: Side,
}

impl Pace for Meeting {
    fn before(&self, thread: ThreadNo, place: u32, _session: &Session) {
        if place > 0 {
            return;
        }
        if thread.get() == 1 {
            self.one.come(&self.two);
        } else {
            self.two.come(&self.one);
        }
    }

    fn after(&self, _thread: ThreadNo, _place: u32, _session: &Session) {}
}

/// Whether two threads, each with one line, both saw that the other had begun before it did its own.
fn both_meet<R: Threads + Wait + Sync>(rt: &Host<'_, R>) -> Result<bool, Fail> {
    let pace = Meeting {
        one: Side::new(),
        two: Side::new(),
    };
    let mut out = sink(rt.alloc(), 0)?;
    let done = ran_at(rt, "1 stats\n2 stats\n", &mut out, &pace)?;
    Ok(done && pace.one.has_met.load(SeqCst) && pace.two.has_met.load(SeqCst))
}

#[test]
fn two_workers_are_there_at_the_same_time(rt: HostRuntime) -> Result<(), Fail> {
    let meet = both_meet(&Host::of(&rt, rt.alloc()))?;
    assert!(rt; meet);
    Ok(())
}

/// Thread 2 waits until the first line of thread 1 is answered, and then thread 1 until that of thread 2 is. Meanwhile it is
/// noted what is seen of the session of thread 1.
#[derive(Drop)]
struct ByTurns {
    one_answered: AtomicBool,
    two_answered: AtomicBool,
    /// After its first line that line waits, and the block is in its register.
    waits: AtomicBool,
    /// After its second line nothing waits.
    published: AtomicBool,
}

/// Whether so many entries of the session wait.
fn has_pending(session: &Session, count: usize) -> bool {
    session.part().pending().len() == count
}

/// Whether r0 of the session holds the first block of thread 1.
fn holds_first(session: &Session) -> bool {
    let Some(reg) = Reg::new(0) else {
        return false;
    };
    match session.part().register(reg) {
        Some(id) => id.thread.get() == 1 && id.serial == 0,
        None => false,
    }
}

impl Pace for ByTurns {
    fn before(&self, thread: ThreadNo, place: u32, _session: &Session) {
        match (thread.get(), place) {
            (2, 0) => is_set_in_time(&self.one_answered),
            (1, 1) => is_set_in_time(&self.two_answered),
            _ => true,
        };
    }

    fn after(&self, thread: ThreadNo, place: u32, session: &Session) {
        match (thread.get(), place) {
            (1, 0) => {
                self.waits
                    .store(has_pending(session, 1) && holds_first(session), SeqCst);
                self.one_answered.store(true, SeqCst);
            }
            (2, 0) => self.two_answered.store(true, SeqCst),
            (1, 1) => self.published.store(has_pending(session, 0), SeqCst),
            _ => {}
        }
    }
}

/// Whether a local line waits in its thread's session, so that the line of another thread comes before it in the text, and
/// is published with the shared line behind it.
fn a_local_line_is_passed<R: Threads + Wait + Sync>(rt: &Host<'_, R>) -> Result<bool, Fail> {
    let pace = ByTurns {
        one_answered: AtomicBool::new(false),
        two_answered: AtomicBool::new(false),
        waits: AtomicBool::new(false),
        published: AtomicBool::new(false),
    };
    let mut out = sink(rt.alloc(), 0)?;
    let script = "1 new r0 scanned 0\n2 stats\n1 setroot g0 r0\n";
    let done = ran_at(rt, script, &mut out, &pace)?;
    let Ok(text) = str::from_utf8(out.bytes()) else {
        return Ok(false);
    };
    Ok(
        done && text.starts_with("2 stats = blocks 0")
            && pace.waits.load(SeqCst)
            && pace.published.load(SeqCst),
    )
}

#[test]
fn a_local_line_waits_in_its_session(rt: HostRuntime) -> Result<(), Fail> {
    let passed = a_local_line_is_passed(&Host::of(&rt, rt.alloc()))?;
    assert!(rt; passed);
    Ok(())
}
