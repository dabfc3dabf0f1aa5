//! One worker for each job, and what they leave.
ghost use Rattle.std.specs.Prelude.{◌≡◌, ◌<◌, length, map, All, IfOk, Ok};
ghost use Rattle.az_base.specs.OptionRanges.{IsValid};
ghost use Rattle.heap_script.specs.Scripts.{AllNamed, AllThreads};
ghost use Rattle.zone_history.specs.Histories.{IsHistoryOf};
ghost use Rattle.play_core.specs.Playing.{requests, requests_of};
ghost use Rattle.play_order.specs.Play.{threads_of as asked_threads};
ghost use Rattle.run_zone.specs.Runs.{EachDoes, CanDo, Does};

use crate::dealing::jobs_of;
use crate::job::{Job, do_job};
use crate::pace::Pace;
use auto_zone::{Ended, Zone};
use az_base::{NoMemory, Options, ThreadNo};
use heap_script::{Line, Script};
use play_core::{Recording, play, threads_of};
use std::alloc::Global;
use std::sync::Wait;
use std::thread;
use std::thread::Threads;

/// Each job by a worker of its own.
fn run_jobs<R: Threads + Wait + Sync, P: Pace + Sync>(
    rt: &R,
    alloc: Global,
    zone: &Zone,
    jobs: Vec<Job>,
    pace: &P,
) -> Result<Vec<Result<Ended, NoMemory>>, NoMemory>
    requires jobs { All (CanDo zone.now) jobs.items }
    ensures { IfOk result (λ rs. EachDoes jobs.items rs.items) }
{
    let worker = |job: Job| -> Result<Ended, NoMemory>
        requires { CanDo zone.now job }
        ensures { Does job result }
    { do_job(rt, alloc, zone, job, pace) };
    match thread::map_vec(rt, jobs, &worker) {
        Ok(results) => Ok(results),
        Err(_) => Err(NoMemory),
    }
}

/// What ended, where no worker was refused.
fn ended_of(alloc: Global, results: Vec<Result<Ended, NoMemory>>) -> Result<Vec<Ended>, NoMemory>
    ensures { IfOk result (λ ended. results.items ≡ map Ok ended.items) }
{
    let mut all = Vec::new(alloc);
    for result in results {
        let ended = result?;
        all.push(ended)?;
    }
    Ok(all)
}

/// The threads do their lines beside each other, and leave.
fn run_threads<R: Threads + Wait + Sync, P: Pace + Sync>(
    rt: &R,
    alloc: Global,
    options: Options,
    threads: &[ThreadNo],
    lines: &[Line],
    pace: &P,
) -> Result<Recording, NoMemory>
    requires options { IsValid options }
    requires named { AllNamed lines.now }
    requires within { AllThreads lines.now }
    requires threads { threads.now ≡ asked_threads (requests lines.now) }
    requires some { 0 < length threads.now }
    ensures { IfOk result (λ p. IsHistoryOf options (requests lines.now) p.entries.items p.stats) }
{
    let (zone, sessions) = Zone::create(alloc, options, threads)?;
    let jobs = jobs_of(alloc, sessions, lines)?;
    let results = run_jobs(rt, alloc, &zone, jobs, pace)?;
    let ended = ended_of(alloc, results)?;
    match zone.close(alloc, ended) {
        Ok(closed) => Ok(Recording {
            entries: closed.journal.into_vec(),
            stats: closed.stats,
        }),
        Err(_) => Err(NoMemory),
    }
}

/// The history of a script whose threads work beside each other, and the statistics of its end. Each thread that has a line
/// does its lines in order, by a worker of its own, and then leaves; `pace` is called round each line. Where no worker can be
/// started, the lines are done by the caller. The history is one of those that the script has; which one depends on the
/// schedule. NoMemory where any worker met it. The cost of the calls, and O(16) for each line.
pub fn run<R: Threads + Wait + Sync, P: Pace + Sync>(
    rt: &R,
    alloc: Global,
    script: &Script,
    pace: &P,
) -> Result<Recording, NoMemory>
    requires options { IsValid script.now.options }
    requires named { AllNamed script.now.lines }
    requires within { AllThreads script.now.lines }
    ensures { IfOk result (λ p. IsHistoryOf script.now.options (requests_of script.now) p.entries.items p.stats) }
{
    let lines = script.lines.as_slice();
    let threads = threads_of(alloc, lines)?;
    if threads.is_empty() {
        return play(alloc, script);
    }
    run_threads(rt, alloc, script.options, &threads, lines, pace)
}
