ghost use Rattle.std.specs.Prelude.{◌≤◌};
ghost use Rattle.play_core.specs.Worlds.{Ascending};

use az_base::{NoMemory, Options, Reg, ThreadNo};
use play_core::World;
use std::alloc::Global;
use std::test::*;
use zone_model::Call;

/// A world of these threads, of each of which so many entries may wait.
fn world_of(alloc: Global, threads: &[ThreadNo], pending: u32) -> Result<World, NoMemory>
    requires ascending { Ascending threads.now }
    requires pending { (1 ≤ pending) × (pending ≤ 4096) }
{
    let mut options = Options::usual();
    options.pending = pending;
    World::new(alloc, threads, options)
}

/// Whether the thread may make the call, and makes it.
fn makes(alloc: Global, world: &mut World, thread: ThreadNo, call: &Call) -> bool {
    world.is_running(thread) && world.may(thread, call) && world.step(alloc, thread, call).is_ok()
}

/// Whether no cycle is open, and the threads that are left leave.
pub(crate) fn closes(alloc: Global, world: &mut World) -> bool {
    if world.open_cycle().is_some() {
        return false;
    }
    world.end(alloc).is_ok()
}

/// Whether so many entries are published, and so many wait of two threads.
fn has(world: &World, published: usize, threads: [ThreadNo; 2], waiting: [usize; 2]) -> bool {
    world.journal().len() == published
        && world.waiting(threads[0]).len() == waiting[0]
        && world.waiting(threads[1]).len() == waiting[1]
}

/// Local calls wait until their thread makes another one.
fn waits(alloc: Global, world: &mut World, one: ThreadNo, two: ThreadNo, reg: Reg) -> bool {
    makes(alloc, world, one, &Call::DropReg { reg })
        && has(world, 0, [one, two], [1, 0])
        && makes(alloc, world, two, &Call::CollectLocal)
        && has(world, 0, [one, two], [1, 1])
        && makes(alloc, world, one, &Call::Stats)
        && has(world, 2, [one, two], [0, 1])
        && makes(alloc, world, two, &Call::Leave)
        && has(world, 4, [one, two], [0, 0])
        && !world.may(two, &Call::Stats)
}

/// The thread that is left leaves, and no other.
fn ends(alloc: Global, world: &mut World, one: ThreadNo, two: ThreadNo) -> bool {
    closes(alloc, world) && has(world, 5, [one, two], [0, 0]) && !world.is_running(one)
}

/// Where one entry may wait, the second local call publishes the first.
fn publishes(alloc: Global, world: &mut World, one: ThreadNo, two: ThreadNo, reg: Reg) -> bool {
    makes(alloc, world, one, &Call::DropReg { reg })
        && has(world, 0, [one, two], [1, 0])
        && makes(alloc, world, one, &Call::DropReg { reg })
        && has(world, 1, [one, two], [1, 0])
        && closes(alloc, world)
        && has(world, 4, [one, two], [0, 0])
}

#[test]
fn local_calls_wait(rt: HostRuntime) -> Result<(), Fail> {
    let one = ThreadNo::new(1).expect(&rt, "a thread");
    let two = ThreadNo::new(16).expect(&rt, "a thread");
    let reg = Reg::new(0).expect(&rt, "a register");
    let Ok(mut world) = world_of(rt.alloc(), &[one, two], 4096) else {
        return Err(Fail::from("no memory"));
    };
    let worked = waits(rt.alloc(), &mut world, one, two, reg)
        && ends(rt.alloc(), &mut world, one, two);
    assert!(rt; worked);
    Ok(())
}

#[test]
fn a_full_list_is_published(rt: HostRuntime) -> Result<(), Fail> {
    let one = ThreadNo::new(1).expect(&rt, "a thread");
    let two = ThreadNo::new(2).expect(&rt, "a thread");
    let reg = Reg::new(0).expect(&rt, "a register");
    let Ok(mut world) = world_of(rt.alloc(), &[one, two], 1) else {
        return Err(Fail::from("no memory"));
    };
    let worked = publishes(rt.alloc(), &mut world, one, two, reg);
    assert!(rt; worked);
    Ok(())
}
