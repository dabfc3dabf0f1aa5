ghost use Rattle.std.specs.Prelude.{◌≡◌, false, true};
ghost use Rattle.az_base.specs.OptionRanges.{IsValid};

use crate::rows::Answer::{Block, Done, Gone, Is, Null, Number, Refused};
use crate::rows::Ask::{Collect, Copy, Drop, Get, Load, Object, Put, Scanned, Store};
use crate::rows::{Answer, Ask, are_answered};
use az_base::{BlockId, Misuse, Options, Reg, ThreadNo};
use block_layouts::Layout;
use local_set::{Local, LocalErr};
use std::alloc::Global;
use std::test::*;
use zone_model::{ActionList, Call, Reply};

/// Whether the calls of the rows answer so on a new set of thread 1 under these options.
fn plays(alloc: Global, thread: ThreadNo, options: Options, rows: &[(Ask, Answer)]) -> bool
    requires { IsValid options }
{
    let mut local = Local::new(alloc, thread, options);
    are_answered(alloc, &mut local, rows)
}

/// The same under the usual options.
fn plays_usually(alloc: Global, thread: ThreadNo, rows: &[(Ask, Answer)]) -> bool {
    plays(alloc, thread, Options::usual(), rows)
}

#[test]
fn words_have_classes(rt: HostRuntime) -> Result<(), Fail> {
    let thread = ThreadNo::new(1).expect(&rt, "a thread");
    let rows = [
        (Object(0, "SP"), Block(0)),
        (Store(0, 1, 0), Is(Misuse::WrongClass)),
        (Put(0, 0, 7), Is(Misuse::WrongClass)),
        (Put(0, 1, 7), Done),
        (Get(0, 1), Number(7)),
        (Load(2, 0, 1), Is(Misuse::WrongClass)),
        (Load(2, 0, 2), Is(Misuse::NoWord)),
        (Store(3, 9, 0), Is(Misuse::NullBlock)),
        (Load(2, 0, 0), Null),
    ];
    let worked = plays_usually(rt.alloc(), thread, &rows);
    assert!(rt; worked);
    Ok(())
}

#[test]
fn a_cycle_that_nothing_holds_is_collected(rt: HostRuntime) -> Result<(), Fail> {
    let thread = ThreadNo::new(1).expect(&rt, "a thread");
    let rows = [
        (Scanned(0, 1), Block(0)),
        (Scanned(1, 1), Block(1)),
        (Scanned(2, 1), Block(2)),
        (Store(0, 0, 1), Done),
        (Store(1, 0, 2), Done),
        (Store(2, 0, 0), Done),
        (Drop(0), Done),
        (Drop(2), Done),
        (Collect, Gone(&[])),
        (Drop(1), Done),
        (Collect, Gone(&[0, 1, 2])),
        (Collect, Gone(&[])),
        (Scanned(0, 0), Block(3)),
    ];
    let worked = plays_usually(rt.alloc(), thread, &rows);
    assert!(rt; worked);
    Ok(())
}

#[test]
fn a_register_over_the_last_reference_frees_it(rt: HostRuntime) -> Result<(), Fail> {
    let thread = ThreadNo::new(1).expect(&rt, "a thread");
    let rows = [
        (Scanned(0, 1), Block(0)),
        (Scanned(1, 1), Block(1)),
        (Store(0, 0, 1), Done),
        (Drop(1), Done),
        (Collect, Gone(&[])),
        (Load(1, 0, 0), Block(1)),
        (Store(0, 0, 2), Done),
        (Copy(1, 0), Done),
        (Collect, Gone(&[1])),
        (Load(3, 0, 0), Null),
    ];
    let worked = plays_usually(rt.alloc(), thread, &rows);
    assert!(rt; worked);
    Ok(())
}

#[test]
fn blocks_above_the_option_local_are_not_local(rt: HostRuntime) -> Result<(), Fail> {
    let thread = ThreadNo::new(1).expect(&rt, "a thread");
    let mut options = Options::usual();
    options.local_quanta = 2;
    let rows = [
        (Scanned(0, 2), Block(0)),
        (Scanned(1, 3), Refused(LocalErr::NotLocal)),
        (Scanned(1, 2), Block(1)),
        (Scanned(2, 0), Refused(LocalErr::NotLocal)),
        (Drop(1), Done),
        (Collect, Gone(&[1])),
        (Scanned(2, 0), Block(2)),
    ];
    let worked = plays(rt.alloc(), thread, options, &rows);
    assert!(rt; worked);
    Ok(())
}

#[test]
fn used_serials_are_a_misuse_that_waits(rt: HostRuntime) -> Result<(), Fail> {
    let thread = ThreadNo::new(1).expect(&rt, "a thread");
    let mut options = Options::usual();
    options.serials = 1;
    options.pending = 3;
    let rows = [
        (Scanned(0, 0), Block(0)),
        (Scanned(1, 0), Is(Misuse::SerialsUsed)),
        (Copy(1, 2), Done),
        (Drop(0), Refused(LocalErr::PendingFull)),
        (Collect, Refused(LocalErr::PendingFull)),
    ];
    let worked = plays(rt.alloc(), thread, options, &rows);
    assert!(rt; worked);
    Ok(())
}

#[test]
fn one_entry_may_wait(rt: HostRuntime) -> Result<(), Fail> {
    let thread = ThreadNo::new(1).expect(&rt, "a thread");
    let mut options = Options::usual();
    options.pending = 1;
    let rows = [
        (Get(0, 0), Is(Misuse::NullBlock)),
        (Copy(0, 1), Refused(LocalErr::PendingFull)),
        (Load(0, 1, 0), Refused(LocalErr::PendingFull)),
        (Store(0, 1, 0), Refused(LocalErr::PendingFull)),
        (Put(0, 1, 0), Refused(LocalErr::PendingFull)),
        (Get(0, 0), Refused(LocalErr::PendingFull)),
        (Scanned(0, 0), Refused(LocalErr::PendingFull)),
    ];
    let worked = plays(rt.alloc(), thread, options, &rows);
    assert!(rt; worked);
    Ok(())
}

/// Whether `n` entries wait, and one more is refused.
fn fills(local: &mut Local, reg: Reg, n: u32) -> bool
    requires { local.old.ended ≡ false }
    ensures { local.new.ended ≡ false }
{
    let mut good = local.reserve_pending(n).is_ok();
    for _ in 0..n {
        if local.drop_reg(reg).is_err() {
            good = false;
        }
    }
    good && matches!(local.drop_reg(reg), Err(LocalErr::PendingFull))
        && local.pending().len() == n as usize
}

/// Whether all entries that wait are taken out, and then another one may wait.
fn empties(local: &mut Local, reg: Reg) -> bool
    requires { local.old.ended ≡ false }
    ensures { local.new.ended ≡ false }
{
    for _ in 0..5000 {
        let _ = local.pop_pending();
    }
    local.pending().is_empty() && local.drop_reg(reg).is_ok() && local.pending().len() == 1
}

#[test]
fn as_many_entries_wait_as_the_option_says(rt: HostRuntime) -> Result<(), Fail> {
    let thread = ThreadNo::new(1).expect(&rt, "a thread");
    let reg = Reg::new(0).expect(&rt, "a register");
    let mut local = Local::new(rt.alloc(), thread, Options::usual());
    let filled = fills(&mut local, reg, 4096) && empties(&mut local, reg);
    assert!(rt; filled);
    Ok(())
}

/// A block of another thread.
fn foreign(thread: ThreadNo) -> BlockId {
    BlockId { thread, serial: 7 }
}

/// Whether calls on a block of another thread are refused, and those that only hold it are counted.
fn knows_its_own(alloc: Global, local: &mut Local, other: &BlockId, reg: Reg) -> bool
    requires { local.old.ended ≡ false }
    ensures { local.new.ended ≡ false }
{
    local.receive(reg, Some(*other));
    let refused = [
        (Load(1, 0, 0), Refused(LocalErr::NotLocal)),
        (Store(0, 0, 1), Refused(LocalErr::NotLocal)),
        (Put(0, 0, 1), Refused(LocalErr::NotLocal)),
        (Get(0, 0), Refused(LocalErr::NotLocal)),
        (Object(1, "SS"), Block(0)),
        (Store(1, 0, 0), Done),
        (Store(1, 1, 0), Done),
        (Copy(2, 0), Done),
    ];
    are_answered(alloc, local, &refused) && !local.is_own(*other) && local.holds_of(*other) == 4
}

/// Whether a dead block's references to it don't count once they are collected.
fn forgets_the_dead(alloc: Global, local: &mut Local, other: &BlockId) -> bool
    requires { local.old.ended ≡ false }
    ensures { local.new.ended ≡ false }
{
    let rows = [(Drop(1), Done), (Drop(2), Done), (Collect, Gone(&[0]))];
    are_answered(alloc, local, &rows)
        && local.holds_of(*other) == 1
        && local.changed().contains(other)
        && local.own_quanta() == 0
}

#[test]
fn escaped_blocks_are_counted_and_left_alone(rt: HostRuntime) -> Result<(), Fail> {
    let thread = ThreadNo::new(1).expect(&rt, "a thread");
    let reg = Reg::new(0).expect(&rt, "a register");
    let other = &foreign(ThreadNo::new(2).expect(&rt, "a thread"));
    let mut local = Local::new(rt.alloc(), thread, Options::usual());
    let counted = knows_its_own(rt.alloc(), &mut local, other, reg)
        && forgets_the_dead(rt.alloc(), &mut local, other);
    assert!(rt; counted);
    Ok(())
}

/// Whether a block is collected once its last reference, in register 0, was overwritten by a block that came from the
/// heap, which stays.
fn receives_over_the_last(alloc: Global, local: &mut Local, other: &BlockId, reg: Reg) -> bool
    requires { local.old.ended ≡ false }
    ensures { local.new.ended ≡ false }
{
    let held = [
        (Scanned(1, 1), Block(0)),
        (Copy(0, 1), Done),
        (Drop(1), Done),
        (Collect, Gone(&[])),
    ];
    if !are_answered(alloc, local, &held) {
        return false;
    }
    local.receive(reg, Some(*other));
    are_answered(alloc, local, &[(Collect, Gone(&[0])), (Collect, Gone(&[]))])
        && local.holds_of(*other) == 1
}

#[test]
fn a_received_block_over_the_last_reference_frees_it(rt: HostRuntime) -> Result<(), Fail> {
    let thread = ThreadNo::new(1).expect(&rt, "a thread");
    let reg = Reg::new(0).expect(&rt, "a register");
    let other = &foreign(ThreadNo::new(2).expect(&rt, "a thread"));
    let mut local = Local::new(rt.alloc(), thread, Options::usual());
    let freed = receives_over_the_last(rt.alloc(), &mut local, other, reg);
    assert!(rt; freed);
    Ok(())
}

/// Three blocks in a row, each of which refers to the next.
fn builds_a_row(alloc: Global, local: &mut Local) -> bool
    requires { local.old.ended ≡ false }
    ensures { local.new.ended ≡ false }
{
    let rows = [
        (Scanned(0, 1), Block(0)),
        (Scanned(1, 1), Block(1)),
        (Scanned(2, 1), Block(2)),
        (Store(0, 0, 1), Done),
        (Store(1, 0, 2), Done),
    ];
    are_answered(alloc, local, &rows) && local.own_quanta() == 3
}

/// Whether the middle one is taken out, though another one refers to it.
fn takes_the_middle(alloc: Global, local: &mut Local, reg: Reg) -> bool
    requires { local.old.ended ≡ false }
    ensures { local.new.ended ≡ false }
{
    let Some(id) = local.register(reg) else {
        return false;
    };
    let id = &id;
    if !local.is_own(*id) {
        return false;
    }
    let (layout, words) = local.take_out(*id);
    let rows = [
        (Load(3, 1, 0), Refused(LocalErr::NotLocal)),
        (Load(3, 0, 0), Block(1)),
        (Drop(2), Done),
        (Collect, Gone(&[2])),
    ];
    layout.len() == 1
        && words.len() == 1
        && local.holds_of(*id) == 2
        && local.own_quanta() == 2
        && are_answered(alloc, local, &rows)
        && local.own_quanta() == 1
}

#[test]
fn a_block_that_others_refer_to_is_taken_out(rt: HostRuntime) -> Result<(), Fail> {
    let thread = ThreadNo::new(1).expect(&rt, "a thread");
    let reg = Reg::new(1).expect(&rt, "a register");
    let mut local = Local::new(rt.alloc(), thread, Options::usual());
    let taken = builds_a_row(rt.alloc(), &mut local)
        && takes_the_middle(rt.alloc(), &mut local, reg);
    assert!(rt; taken);
    Ok(())
}

/// A cycle of three blocks that all registers have dropped once they had escaped is left alone.
fn leaves_the_escaped(alloc: Global, local: &mut Local, thread: ThreadNo) -> bool
    requires { local.old.ended ≡ false }
    ensures { local.new.ended ≡ false }
{
    let built = builds_a_row(alloc, local) && are_answered(alloc, local, &[(Store(2, 0, 0), Done)]);
    for serial in 0..3 {
        let id = BlockId { thread, serial };
        if local.is_own(id) {
            let _ = local.take_out(id);
        }
    }
    let rows = [
        (Store(0, 0, 1), Refused(LocalErr::NotLocal)),
        (Drop(0), Done),
        (Drop(1), Done),
        (Drop(2), Done),
        (Collect, Gone(&[])),
    ];
    built
        && !local.is_local(&Call::Stats)
        && are_answered(alloc, local, &rows)
        && local.own_quanta() == 0
}

#[test]
fn what_has_escaped_is_not_collected(rt: HostRuntime) -> Result<(), Fail> {
    let thread = ThreadNo::new(1).expect(&rt, "a thread");
    let mut local = Local::new(rt.alloc(), thread, Options::usual());
    let left = leaves_the_escaped(rt.alloc(), &mut local, thread);
    assert!(rt; left);
    Ok(())
}

/// Whether nothing is left of the set, and what was listed before.
fn ends(alloc: Global, local: &mut Local, reg: Reg) -> bool {
    let listed = match local.own_ids(alloc) {
        Ok(ids) => ids.len(),
        Err(_) => 0,
    };
    local.mark_published();
    local.clear();
    listed == 3
        && local.register(reg).is_none()
        && local.published(reg).is_none()
        && local.own_quanta() == 0
        && local.thread().get() == 1
}

#[test]
fn a_thread_that_ends_leaves_nothing(rt: HostRuntime) -> Result<(), Fail> {
    let thread = ThreadNo::new(1).expect(&rt, "a thread");
    let reg = Reg::new(1).expect(&rt, "a register");
    let mut local = Local::new(rt.alloc(), thread, Options::usual());
    let ended = builds_a_row(rt.alloc(), &mut local) && ends(rt.alloc(), &mut local, reg);
    assert!(rt; ended);
    Ok(())
}

/// A chain of blocks, each of which the next one refers to, with the last in the first register.
fn builds_a_chain(alloc: Global, local: &mut Local, n: u32) -> bool
    requires { local.old.ended ≡ false }
    ensures { local.new.ended ≡ false }
{
    let mut good = true;
    for serial in 0..n {
        let rows = [
            (Scanned(1, 1), Block(serial)),
            (Store(1, 0, 0), Done),
            (Copy(0, 1), Done),
        ];
        if !are_answered(alloc, local, &rows) {
            good = false;
        }
        for _ in 0..3 {
            let _ = local.pop_pending();
        }
    }
    good
}

/// Whether the chain goes when its head is dropped.
fn drops_the_chain(alloc: Global, local: &mut Local, n: usize) -> bool
    requires { local.old.ended ≡ false }
    ensures { local.new.ended ≡ false }
{
    let rows = [(Drop(1), Done), (Collect, Gone(&[])), (Drop(0), Done)];
    let kept = are_answered(alloc, local, &rows);
    let given = local.collect_local(alloc);
    let gone = match &given {
        Ok(Reply::Reclaimed(ids)) => ids.len(),
        _ => 0,
    };
    kept && gone == n && local.own_quanta() == 0
}

#[test]
fn a_long_chain_is_dropped_at_its_head(rt: HostRuntime) -> Result<(), Fail> {
    let thread = ThreadNo::new(1).expect(&rt, "a thread");
    let mut local = Local::new(rt.alloc(), thread, Options::usual());
    let dropped = builds_a_chain(rt.alloc(), &mut local, 20_000)
        && drops_the_chain(rt.alloc(), &mut local, 20_000);
    assert!(rt; dropped);
    Ok(())
}

/// Whether the reply is that one block was reclaimed.
fn took_one(given: &Result<Reply, LocalErr>) -> bool {
    match given {
        Ok(Reply::Reclaimed(ids)) => ids.len() == 1,
        _ => false,
    }
}

/// What a call that is given as a value answers.
fn ask(alloc: Global, local: &mut Local, call: &Call) -> Result<Reply, LocalErr>
    requires { local.old.ended ≡ false }
    ensures { local.new.ended ≡ false }
{
    local.call(alloc, call)
}

/// Whether calls that are given as values are answered: a block is born, dropped and collected, each entry waits, and a
/// call on what is shared isn't made.
fn answers_values(alloc: Global, local: &mut Local, reg: Reg, layout: Layout) -> bool
    requires { local.old.ended ≡ false }
    ensures { local.new.ended ≡ false }
{
    let actions = ActionList::new();
    let new = Call::New {
        to: reg,
        layout,
        actions,
    };
    let born = ask(alloc, local, &new).is_ok();
    let dropped = ask(alloc, local, &Call::DropReg { reg }).is_ok();
    let shared = ask(alloc, local, &Call::Retain { reg }).is_err();
    let gone = took_one(&ask(alloc, local, &Call::CollectLocal));
    born && dropped && shared && gone && local.pending().len() == 3
}

#[test]
fn calls_are_values(rt: HostRuntime) -> Result<(), Fail> {
    let thread = ThreadNo::new(1).expect(&rt, "a thread");
    let reg = Reg::new(4).expect(&rt, "a register");
    let layout = Layout::parse(rt.alloc(), "SS").expect(&rt, "a layout");
    let mut local = Local::new(rt.alloc(), thread, Options::usual());
    let answered = answers_values(rt.alloc(), &mut local, reg, layout);
    assert!(rt; answered);
    Ok(())
}
