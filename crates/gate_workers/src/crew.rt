//! A crew: the first threads, each with as many lines.
ghost use Rattle.std.specs.Prelude.{◌≡◌, ◌<◌, ◌≤◌, All, AllPairs, Contains, IfOk, map, vec_len};
ghost use Rattle.az_base.specs.OptionRanges.{usual_options};
ghost use Rattle.gate_workers.specs.Workers.{first_numbers, written};
ghost use Rattle.zone_model.specs.Bare.{bare_entry};
ghost use Rattle.zone_model.specs.History.{entries_of};
ghost use Rattle.zone_gate.specs.Owning.{most_threads};

use crate::diary::Diary;
use crate::running::run;
use az_base::{NoMemory, Options, ThreadNo};
use std::alloc::Global;
use std::sync::Wait;
use std::thread::Threads;

/// The threads 1 to `count`.
pub fn first_threads(alloc: Global, count: u32) -> Result<Vec<ThreadNo>, NoMemory>
    requires { count ≤ most_threads }
    ensures threads { IfOk result (λ v. v.items ≡ first_numbers count) }
    ensures count { IfOk result (λ v. vec_len v ≡ count) }
    ensures ascending { IfOk result (λ v. AllPairs (λ t u. t < u) v.items) }
{
    let mut threads = Vec::new(alloc);
    for n in 0..count {
        let Some(thread) = ThreadNo::new(n + 1) else {
            unreachable!()
        };
        let Ok(()) = threads.push(thread) else {
            return Err(NoMemory);
        };
    }
    Ok(threads)
}

/// The numbers 1 to `last`.
pub fn numbers(alloc: Global, last: u32) -> Result<Vec<u64>, NoMemory>
    ensures { IfOk result (λ v. v.items ≡ first_numbers last) }
{
    let mut numbers = Vec::new(alloc);
    for n in 0..last {
        let Ok(()) = numbers.push(n as u64 + 1) else {
            return Err(NoMemory);
        };
    }
    Ok(numbers)
}

/// For each of `count` threads the numbers 1 to `last` as its lines.
pub fn lines_for(alloc: Global, count: u32, last: u32) -> Result<Vec<Vec<u64>>, NoMemory>
    ensures count { IfOk result (λ v. vec_len v ≡ count) }
    ensures each { IfOk result (λ v. All (λ l. l.items ≡ first_numbers last) v.items) }
{
    let mut lines = Vec::new(alloc);
    for _n in 0..count {
        let own = numbers(alloc, last)?;
        let Ok(()) = lines.push(own) else {
            return Err(NoMemory);
        };
    }
    Ok(lines)
}

/// The diary into which each of the threads 1 to `count` has written the numbers 1 to `last`, beside the others.
pub fn run_crew<R: Threads + Wait + Sync>(
    rt: &R,
    alloc: Global,
    count: u32,
    last: u32,
) -> Result<Diary, NoMemory>
    requires { (0 < count) × (count ≤ most_threads) }
    ensures options { IfOk result (λ d. d.options ≡ usual_options) }
    ensures lines { IfOk result (λ d. All (λ t. entries_of t (map bare_entry d.entries.items) ≡ written t (first_numbers last)) (first_numbers count)) }
    ensures others { IfOk result (λ d. All (λ e. Contains (first_numbers count) e.thread) (map bare_entry d.entries.items)) }
{
    let threads = first_threads(alloc, count)?;
    let lines = lines_for(alloc, count, last)?;
    run(rt, alloc, Options::usual(), threads.as_slice(), lines)
}
