//! Turns at a gate: in one thread, where their order is known, and in real threads, where only each thread's own is.
ghost use Rattle.std.specs.Prelude.{◌≡◌, ◌<◌};
ghost use Rattle.zone_gate.specs.Shown.{IsSeatOf};

use super::*;
use az_base::{NoMemory, Options, ThreadNo};
use std::alloc::Global;
use std::sync::Wait;
use std::test::*;
use zone_gate::{Gate, Kept, Seat};
use zone_model::{Entry, Reply};

/// A turn in which two lines are written.
fn write_two<R: Wait>(
    rt: &R,
    gate: &Gate<Diary>,
    seat: Seat,
    lines: (u64, u64),
) -> (Seat, Result<(), NoMemory>)
    requires { IsSeatOf gate.now seat }
    ensures { IsSeatOf gate.now result.0 × (result.0.thread ≡ seat.thread) }
{
    let thread = seat.thread();
    let mut held = gate.hold(rt, seat);
    let mut made = held.value().write(thread, lines.0);
    if made.is_ok() {
        made = held.value().write(thread, lines.1);
    }
    (gate.give_back(held), made)
}

/// Two seats meet; both have then seen the same.
fn meet(gate: &Gate<Diary>, a: &mut Seat, b: &mut Seat)
    requires a { IsSeatOf gate.now a.old }
    requires b { IsSeatOf gate.now b.old }
    ensures of { IsSeatOf gate.now a.new × IsSeatOf gate.now b.new }
    ensures threads { (a.new.thread ≡ a.old.thread) × (b.new.thread ≡ b.old.thread) }
    ensures same { a.new.seen ≡ b.new.seen }
{
    gate.meet(a, b);
}

/// Seat 1 writes one line, seat 2 two in one turn, seat 1 one; then they meet, and the gate is closed.
fn written_in_turn<R: Wait>(
    rt: &R,
    alloc: Global,
    first: ThreadNo,
    second: ThreadNo,
) -> Result<Diary, NoMemory>
    requires { first < second }
{
    let diary = Diary::new(alloc, Options::usual());
    let (gate, mut seats) = Gate::new(alloc, diary, &[first, second])?;
    let Some(b) = seats.pop() else { unreachable!() };
    let Some(a) = seats.pop() else { unreachable!() };
    let (a, one) = write_line(rt, &gate, a, 1);
    let (mut b, two) = write_two(rt, &gate, b, (2, 3));
    let (mut a, three) = write_line(rt, &gate, a, 4);
    meet(&gate, &mut a, &mut b);
    let Ok(()) = seats.push(a) else {
        return Err(NoMemory);
    };
    let Ok(()) = seats.push(b) else {
        return Err(NoMemory);
    };
    one?;
    two?;
    three?;
    Ok(gate.close(seats))
}

/// Whether these are the entries: thread and number of each, in order.
fn are_entries(entries: &[Entry], wanted: &[(u32, u64)]) -> bool {
    if entries.len() != wanted.len() {
        return false;
    }
    for (entry, (thread, wanted)) in entries.iter().zip(wanted) {
        let Reply::Number(number) = entry.reply else {
            return false;
        };
        if entry.thread.get() != *thread || number != *wanted {
            return false;
        }
    }
    true
}

/// Whether each of the threads 1 to `count` has the numbers 1 to `last`, in order, and nobody else has any.
fn each_counts_up(entries: &[Entry], count: u32, last: u32) -> bool {
    let mut reached = [0_u64; 16];
    for entry in entries {
        let place = entry.thread.get() as usize - 1;
        let Reply::Number(number) = entry.reply else {
            return false;
        };
        if reached[place].checked_add(1) != Some(number) {
            return false;
        }
        reached[place] = number;
    }
    for (place, number) in reached.iter().enumerate() {
        let wanted = if place < count as usize {
            last as u64
        } else {
            0
        };
        if *number != wanted {
            return false;
        }
    }
    true
}

#[test]
fn two_seats_in_turn(rt: HostRuntime) -> Result<(), Fail> {
    let first = ThreadNo::new(1).expect(&rt, "a thread");
    let second = ThreadNo::new(2).expect(&rt, "a thread");
    let diary = written_in_turn(&rt, rt.alloc(), first, second).expect(&rt, "memory");
    let wanted = [(1, 1), (2, 2), (2, 3), (1, 4)];
    assert!(rt; are_entries(diary.entries(), &wanted));
    Ok(())
}

#[test]
fn the_options_asked_for(rt: HostRuntime) -> Result<(), Fail> {
    let options = Options {
        pending: 7,
        ..Options::usual()
    };
    let threads = first_threads(rt.alloc(), 2).expect(&rt, "memory");
    let lines = lines_for(rt.alloc(), 2, 1).expect(&rt, "memory");
    let diary = run(&rt, rt.alloc(), options, threads.as_slice(), lines).expect(&rt, "memory");
    assert!(rt; diary.options.pending == 7);
    Ok(())
}

#[test]
fn one_seat(rt: HostRuntime) -> Result<(), Fail> {
    let diary = run_crew(&rt, rt.alloc(), 1, 3).expect(&rt, "memory");
    assert!(rt; are_entries(diary.entries(), &[(1, 1), (1, 2), (1, 3)]));
    Ok(())
}

#[test]
fn two_threads_a_thousand_times_each(rt: HostRuntime) -> Result<(), Fail> {
    let diary = run_crew(&rt, rt.alloc(), 2, 1000).expect(&rt, "memory");
    assert!(rt; each_counts_up(diary.entries(), 2, 1000));
    Ok(())
}

#[test]
fn sixteen_threads_a_hundred_times_each(rt: HostRuntime) -> Result<(), Fail> {
    let diary = run_crew(&rt, rt.alloc(), 16, 100).expect(&rt, "memory");
    assert!(rt; each_counts_up(diary.entries(), 16, 100));
    Ok(())
}
