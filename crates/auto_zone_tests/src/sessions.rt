//! Two sessions of one zone by turns: what each call answers, and what the zone has at its end.
ghost use Rattle.std.specs.Prelude.{◌≡◌, IfSome, false};
ghost use Rattle.zone_model.specs.History.{is_cycle_step};
ghost use Rattle.zone_escape.specs.Publications.{is_leave};
ghost use Rattle.zone_gate.specs.Shown.{IsSeatOf};

use crate::zones::{closed_by_two, zone_of_two};
use auto_zone::{Closed, Ended, Session, Zone};
use az_base::{BlockId, Mode, Reg, RootNo};
use block_layouts::Layout;
use std::alloc::Global;
use std::sync::Wait;
use std::test::*;
use zone_model::{ActionList, Call, Entry, Reply};

/// What a thread is asked for. Its register is r0, and the root g0.
#[derive(Clone, Copy)]
enum Ask {
    /// Room for one more waiting entry.
    Room,
    /// A block of no words.
    Birth,
    Drop,
    SetRoot,
    GetRoot,
    Sync,
    Meet,
    /// A full collection, in slices of one scan.
    Collect,
}

/// What it answers.
#[derive(Clone, Copy)]
enum Answer {
    Done,
    /// The first block of thread 1.
    First,
    /// A collection that reclaims none and keeps none.
    Emptied,
}

/// A thread, 1 or 2, what it is asked for, and what it answers.
type Row = (u32, Ask, Answer);

/// Whether it is the first block of thread 1.
pub fn is_first(id: BlockId) -> bool {
    id.thread.get() == 1 && id.serial == 0
}

/// Whether the reply is the answer.
fn is_answer(reply: &Reply, answer: Answer) -> bool {
    match (reply, answer) {
        (Reply::Done, Answer::Done) => true,
        (Reply::Block(Some(id)), Answer::First) => is_first(*id),
        (Reply::Settled { reclaimed, kept }, Answer::Emptied) => {
            reclaimed.is_empty() && kept.is_empty()
        }
        _ => false,
    }
}

/// Whether the call is local, and is answered so.
fn is_local(alloc: Global, session: &mut Session, call: &Call, answer: Answer) -> bool
    ensures { session.new.seat ≡ session.old.seat }
{
    match session.local(alloc, call) {
        Ok(reply) => is_answer(&reply, answer),
        Err(_) => false,
    }
}

/// Whether the call for a block of no words is local, and is answered so.
pub fn is_born(alloc: Global, session: &mut Session, to: Reg) -> bool
    ensures { session.new.seat ≡ session.old.seat }
{
    let Ok(layout) = Layout::scanned(0) else {
        return false;
    };
    let birth = Call::New {
        to,
        layout,
        actions: ActionList::new(),
    };
    is_local(alloc, session, &birth, Answer::First)
}

/// Whether the call is shared, and is answered so.
fn is_shared<R: Wait>(
    rt: &R,
    alloc: Global,
    zone: &Zone,
    session: &mut Session,
    call: &Call,
    answer: Answer,
) -> bool
    requires zone { IsSeatOf zone.now session.old.seat }
    requires kind { is_cycle_step call.now ≡ false }
    requires stays { is_leave call.now ≡ false }
    ensures { IsSeatOf zone.now session.new.seat }
{
    if session.part().is_local(call) {
        return false;
    }
    match session.call(rt, alloc, zone, call) {
        Ok(reply) => is_answer(&reply, answer),
        Err(_) => false,
    }
}

/// Whether a full collection in slices of one scan is answered so.
fn is_collected<R: Wait>(
    rt: &R,
    alloc: Global,
    zone: &Zone,
    session: &mut Session,
    answer: Answer,
) -> bool
    requires { IsSeatOf zone.now session.old.seat }
    ensures { IsSeatOf zone.now session.new.seat }
{
    match session.collect(rt, alloc, zone, Mode::Full, 1) {
        Ok(reply) => is_answer(&reply, answer),
        Err(_) => false,
    }
}

/// The two meet; both have then seen the same.
fn meet(zone: &Zone, one: &mut Session, two: &mut Session)
    requires { IsSeatOf zone.now one.old.seat × IsSeatOf zone.now two.old.seat }
    ensures of { IsSeatOf zone.now one.new.seat × IsSeatOf zone.now two.new.seat }
    ensures same { one.new.seat.seen ≡ two.new.seat.seen }
{
    one.meet(zone, two);
}

/// Whether the session, beside the other one, answers so.
fn is_row<R: Wait>(
    rt: &R,
    alloc: Global,
    zone: &Zone,
    session: &mut Session,
    other: &mut Session,
    row: &Row,
) -> bool
    requires { IsSeatOf zone.now session.old.seat × IsSeatOf zone.now other.old.seat }
    ensures { IsSeatOf zone.now session.new.seat × IsSeatOf zone.now other.new.seat }
{
    let Some(reg) = Reg::new(0) else { return false };
    let root = RootNo(0);
    let answer = row.2;
    match row.1 {
        Ask::Room => session.reserve_pending(1).is_ok(),
        Ask::Birth => is_born(alloc, session, reg),
        Ask::Drop => is_local(alloc, session, &Call::DropReg { reg }, answer),
        Ask::SetRoot => {
            let call = Call::SetRoot { root, from: reg };
            is_shared(rt, alloc, zone, session, &call, answer)
        }
        Ask::GetRoot => {
            let call = Call::GetRoot { to: reg, root };
            is_shared(rt, alloc, zone, session, &call, answer)
        }
        Ask::Sync => session.sync(rt, zone).is_ok(),
        Ask::Meet => {
            meet(zone, session, other);
            true
        }
        Ask::Collect => is_collected(rt, alloc, zone, session, answer),
    }
}

/// Whether the two answer so.
fn are_rows<R: Wait>(
    rt: &R,
    alloc: Global,
    zone: &Zone,
    one: &mut Session,
    two: &mut Session,
    rows: &[Row],
) -> bool
    requires { IsSeatOf zone.now one.old.seat × IsSeatOf zone.now two.old.seat }
    ensures { IsSeatOf zone.now one.new.seat × IsSeatOf zone.now two.new.seat }
{
    for row in rows {
        let answered = match row.0 {
            1 => is_row(rt, alloc, zone, one, two, row),
            _ => is_row(rt, alloc, zone, two, one, row),
        };
        if !answered {
            return false;
        }
    }
    true
}

/// Both leave; None where memory runs out.
fn both_leave<R: Wait>(
    rt: &R,
    alloc: Global,
    zone: &Zone,
    one: Session,
    two: Session,
) -> Option<(Ended, Ended)>
    requires { IsSeatOf zone.now one.seat × IsSeatOf zone.now two.seat }
    ensures { IfSome result (λ r. IsSeatOf zone.now r.0 × IsSeatOf zone.now r.1) }
{
    match (one.leave(rt, alloc, zone), two.leave(rt, alloc, zone)) {
        (Ok(one), Ok(two)) => Some((one, two)),
        _ => None,
    }
}

/// What is left of a zone in which threads 1 and 2 answer so and then leave; None where they answer otherwise.
fn played<R: Wait>(rt: &R, alloc: Global, rows: &[Row]) -> Option<Closed> {
    let (zone, mut one, mut two) = zone_of_two(alloc)?;
    let answered = are_rows(rt, alloc, &zone, &mut one, &mut two, rows);
    match both_leave(rt, alloc, &zone, one, two) {
        Some((one, two)) if answered => closed_by_two(alloc, zone, one, two),
        _ => None,
    }
}

/// Whether the entries are of these threads, in this order.
fn are_of(entries: &[Entry], threads: &[u32]) -> bool {
    entries.len() == threads.len()
        && entries
            .iter()
            .zip(threads)
            .all(|(entry, thread)| entry.thread.get() == *thread)
}

/// Whether a block that one shares is found by the other, kept by a collection, and there at the end.
fn shares_a_block<R: Wait>(rt: &R, alloc: Global) -> bool {
    let rows = [
        (1, Ask::Room, Answer::Done),
        (1, Ask::Birth, Answer::First),
        (1, Ask::SetRoot, Answer::Done),
        (2, Ask::GetRoot, Answer::First),
        (1, Ask::Drop, Answer::Done),
        (1, Ask::Sync, Answer::Done),
        (1, Ask::Meet, Answer::Done),
        (2, Ask::Collect, Answer::Emptied),
    ];
    let Some(closed) = played(rt, alloc, &rows) else {
        return false;
    };
    are_of(closed.journal.entries(), &[1, 1, 2, 1, 2, 2, 2, 1, 2]) && closed.stats.blocks == 1
}

#[test]
fn a_block_is_shared_and_collected_beside(rt: HostRuntime) -> Result<(), Fail> {
    let shared = shares_a_block(&rt, rt.alloc());
    assert!(rt; shared);
    Ok(())
}
