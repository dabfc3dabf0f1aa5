//! One worker for each job, and what they leave.
ghost use Rattle.std.specs.Prelude.{◌≡◌, ◌<◌, ℕ, length, map, All, AllPairs, Contains, IfOk, Ok, vec_len};
ghost use Rattle.zone_model.specs.Bare.{bare_entry};
ghost use Rattle.zone_gate.specs.Shown.{IsSeatOf};
ghost use Rattle.gate_workers.specs.Workers.{Does, EachDoes, HoldsLines};

use crate::diary::Diary;
use crate::worker::{Job, work};
use az_base::{NoMemory, Options, ThreadNo};
use std::alloc::Global;
use std::sync::Wait;
use std::thread;
use std::thread::Threads;
use zone_gate::{Gate, Seat};

// Each job in a thread of its own.
fn run_jobs<R: Threads + Wait + Sync>(
    rt: &R,
    gate: &Gate<Diary>,
    jobs: Vec<Job>,
) -> Result<Vec<Result<Seat, NoMemory>>, NoMemory>
    requires { All (λ j. IsSeatOf gate.now j.seat) jobs.items }
    ensures { IfOk result (λ rs. EachDoes gate.now jobs.items rs.items) }
{
    let worker = |job: Job| -> Result<Seat, NoMemory>
        requires { IsSeatOf gate.now job.seat }
        ensures { Does gate.entry.now job result }
    { work(rt, gate, job) };
    match thread::map_vec(rt, jobs, &worker) {
        Ok(results) => Ok(results),
        Err(_) => Err(NoMemory),
    }
}

// The seats, where no worker was refused.
fn seats_of(alloc: Global, results: Vec<Result<Seat, NoMemory>>) -> Result<Vec<Seat>, NoMemory>
    ensures { IfOk result (λ seats. results.items ≡ map Ok seats.items) }
{
    let mut seats = Vec::new(alloc);
    for result in results {
        let Ok(seat) = result else {
            return Err(NoMemory);
        };
        let Ok(()) = seats.push(seat) else {
            return Err(NoMemory);
        };
    }
    Ok(seats)
}

// A job for each seat, with the lines at its place.
fn jobs_of(alloc: Global, seats: Vec<Seat>, lines: Vec<Vec<u64>>) -> Result<Vec<Job>, NoMemory>
    requires { vec_len seats ≡ vec_len lines }
    ensures seats { IfOk result (λ jobs. map (λ j. j.seat) jobs.items ≡ seats.items) }
    ensures lines { IfOk result (λ jobs. map (λ j. j.lines) jobs.items ≡ lines.items) }
{
    let mut jobs = Vec::new(alloc);
    let mut rest = lines.into_iter();
    for seat in seats {
        let Some(lines) = rest.next() else {
            unreachable!()
        };
        let Ok(()) = jobs.push(Job { seat, lines }) else {
            return Err(NoMemory);
        };
    }
    Ok(jobs)
}

/// Each thread writes its lines, beside the others. NoMemory where a worker met it, or no room for the jobs was there.
pub fn run<R: Threads + Wait + Sync>(
    rt: &R,
    alloc: Global,
    options: Options,
    threads: &[ThreadNo],
    lines: Vec<Vec<u64>>,
) -> Result<Diary, NoMemory>
    requires some { 0 < length threads.now }
    requires ascending { AllPairs (λ t u. t < u) threads.now }
    requires each { vec_len lines ≡ length threads.now }
    ensures options { IfOk result (λ d. d.options ≡ options) }
    ensures lines { IfOk result (λ d. HoldsLines (λ l. l.items) threads.now lines.items (map bare_entry d.entries.items)) }
    ensures others { IfOk result (λ d. All (λ e. Contains threads.now e.thread) (map bare_entry d.entries.items)) }
{
    let (gate, seats) = Gate::new(alloc, Diary::new(alloc, options), threads)?;
    let jobs = jobs_of(alloc, seats, lines)?;
    let results = run_jobs(rt, &gate, jobs)?;
    let seats = seats_of(alloc, results)?;
    Ok(gate.close(seats))
}
