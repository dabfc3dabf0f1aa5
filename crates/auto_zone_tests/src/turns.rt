//! Two threads that collect at the same time: since the gate is given back between the steps of a collection, one of them
//! finds the other's open.
ghost use Rattle.std.specs.Prelude.{◌≡◌, IfOk, IfSome};
ghost use Rattle.zone_gate.specs.Shown.{IsSeatOf};

use crate::zones::{closed_by_two, zone_of_two};
use auto_zone::{Closed, Ended, Session, Zone};
use az_base::{Mode, NoMemory, Reg, RootNo};
use block_layouts::Layout;
use std::alloc::Global;
use std::sync::Wait;
use std::sync::atomic::AtomicBool;
use std::sync::atomic::Ordering::SeqCst;
use std::test::*;
use std::thread;
use std::thread::Threads;
use zone_model::{ActionList, Call, Reply};

/// The blocks of the chain, each of which takes a slice of its own.
const CHAIN: u32 = 1_000;

/// The most collections that a thread tries.
const TRIES: u32 = 10_000;

/// Whether a local call is answered by no misuse.
fn is_made(alloc: Global, session: &mut Session, call: &Call) -> bool
    ensures { session.new.seat ≡ session.old.seat }
{
    match session.local(alloc, call) {
        Ok(reply) => !matches!(reply, Reply::Misuse(_)),
        Err(_) => false,
    }
}

/// Whether a block is made that refers to the head of the chain, and is then the head.
fn is_linked(alloc: Global, session: &mut Session, head: Reg, new: Reg) -> bool
    ensures { session.new.seat ≡ session.old.seat }
{
    let Ok(layout) = Layout::scanned(1) else {
        return false;
    };
    let birth = Call::New {
        to: new,
        layout,
        actions: ActionList::new(),
    };
    let link = Call::Store {
        into: new,
        at: 0,
        from: head,
    };
    is_made(alloc, session, &birth)
        && is_made(alloc, session, &link)
        && is_made(
            alloc,
            session,
            &Call::Copy {
                to: head,
                from: new,
            },
        )
}

/// Whether a root is set to the register, which makes what it leads to escape.
fn is_shared<R: Wait>(rt: &R, alloc: Global, zone: &Zone, session: &mut Session, from: Reg) -> bool
    requires { IsSeatOf zone.now session.old.seat }
    ensures { IsSeatOf zone.now session.new.seat }
{
    let call = Call::SetRoot {
        root: RootNo(0),
        from,
    };
    if session.part().is_local(&call) {
        return false;
    }
    match session.call(rt, alloc, zone, &call) {
        Ok(reply) => matches!(reply, Reply::Done),
        Err(_) => false,
    }
}

/// Whether a chain is made, which a root then leads to.
fn has_chain<R: Wait>(rt: &R, alloc: Global, zone: &Zone, session: &mut Session) -> bool
    requires { IsSeatOf zone.now session.old.seat }
    ensures { IsSeatOf zone.now session.new.seat }
{
    let (Some(head), Some(new)) = (Reg::new(0), Reg::new(1)) else {
        return false;
    };
    for _ in 0..CHAIN {
        if !is_linked(alloc, session, head, new) {
            return false;
        }
    }
    is_shared(rt, alloc, zone, session, head)
}

/// Collects until a thread has found another's collection open, or so often.
fn try_collections<R: Wait>(
    rt: &R,
    alloc: Global,
    zone: &Zone,
    session: &mut Session,
    seen: &AtomicBool,
) -> Result<(), NoMemory>
    requires { IsSeatOf zone.now session.old.seat }
    ensures { IsSeatOf zone.now session.new.seat }
{
    for _ in 0..TRIES {
        if seen.load(SeqCst) {
            break;
        }
        let reply = session.collect(rt, alloc, zone, Mode::Full, 1)?;
        if matches!(reply, Reply::Busy) {
            seen.store(true, SeqCst);
        }
    }
    Ok(())
}

/// A thread's collections, and its end.
fn collects<R: Wait>(
    rt: &R,
    alloc: Global,
    zone: &Zone,
    mut session: Session,
    seen: &AtomicBool,
) -> Result<Ended, NoMemory>
    requires { IsSeatOf zone.now session.seat }
    ensures { IfOk result (λ e. IsSeatOf zone.now e) }
{
    let tried = try_collections(rt, alloc, zone, &mut session, seen);
    match session.leave(rt, alloc, zone) {
        Ok(ended) => {
            tried?;
            Ok(ended)
        }
        Err((_, e)) => Err(e),
    }
}

/// Both collect beside each other, and leave; None where memory runs out.
fn both_collect<R: Threads + Wait + Sync>(
    rt: &R,
    alloc: Global,
    zone: &Zone,
    one: Session,
    two: Session,
    seen: &AtomicBool,
) -> Option<(Ended, Ended)>
    requires { IsSeatOf zone.now one.seat × IsSeatOf zone.now two.seat }
    ensures { IfSome result (λ ended. IsSeatOf zone.now ended.0 × IsSeatOf zone.now ended.1) }
{
    let (first, second) = thread::join(
        rt,
        || collects(rt, alloc, zone, one, seen),
        || collects(rt, alloc, zone, two, seen),
    );
    match (first, second) {
        (Ok(first), Ok(second)) => Some((first, second)),
        _ => None,
    }
}

/// What is left of a zone with a chain that two threads have collected beside each other.
fn collected<R: Threads + Wait + Sync>(rt: &R, alloc: Global, seen: &AtomicBool) -> Option<Closed> {
    let (zone, mut one, two) = zone_of_two(alloc)?;
    let begun = has_chain(rt, alloc, &zone, &mut one);
    match both_collect(rt, alloc, &zone, one, two, seen) {
        Some((one, two)) if begun => closed_by_two(alloc, zone, one, two),
        _ => None,
    }
}

/// Whether one of two threads that collect a chain in slices of one scan finds the other's collection open, and the chain
/// is still there at the end.
fn find_each_other<R: Threads + Wait + Sync>(rt: &R, alloc: Global) -> bool {
    let seen = AtomicBool::new(false);
    match collected(rt, alloc, &seen) {
        Some(closed) => seen.load(SeqCst) && closed.stats.blocks == CHAIN as u64,
        None => false,
    }
}

#[test]
fn a_collection_leaves_turns_to_others(rt: HostRuntime) -> Result<(), Fail> {
    let found = find_each_other(&rt, rt.alloc());
    assert!(rt; found);
    Ok(())
}
