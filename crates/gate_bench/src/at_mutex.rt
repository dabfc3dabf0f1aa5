//! The same turns at std's mutex.
ghost use Rattle.std.specs.Prelude.{◌<◌, ◌≤◌};
ghost use Rattle.zone_gate.specs.Owning.{most_threads};

use az_base::{NoMemory, Options, ThreadNo};
use gate_workers::{Diary, first_threads};
use std::alloc::Global;
use std::sync::{Mutex, Wait};
use std::thread;
use std::thread::Threads;

/// Writes the numbers 1 to `last`, each in a turn of its own.
fn write_all<R: Wait>(
    rt: &R,
    diary: &Mutex<Diary>,
    thread: ThreadNo,
    last: u32,
) -> Result<(), NoMemory> {
    for n in 0..last {
        diary.lock(rt).write(thread, n as u64 + 1)?;
    }
    Ok(())
}

/// How many entries there are after each of the threads 1 to `count` has written the numbers 1 to `last`.
pub fn run_at_mutex<R: Threads + Wait + Sync>(
    rt: &R,
    alloc: Global,
    count: u32,
    last: u32,
) -> Result<usize, NoMemory>
    requires { count ≤ most_threads }
{
    let threads = first_threads(alloc, count)?;
    let diary = Mutex::new(Diary::new(alloc, Options::usual()));
    let shared = &diary;
    let worker = |thread: ThreadNo| -> Result<(), NoMemory> { write_all(rt, shared, thread, last) };
    let Ok(results) = thread::map_vec(rt, threads, &worker) else {
        return Err(NoMemory);
    };
    for result in results {
        result?;
    }
    Ok(diary.into_inner().entries.len())
}
