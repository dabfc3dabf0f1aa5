//! Turns of threads at a gate, or at std's mutex, to be timed from outside: `gate_bench gate 4 25000` has four threads
//! write 25,000 entries each, one a turn, beside each other, and prints how many entries there are then.
#![tactic(auto)]

use at_mutex::run_at_mutex;
use az_base::{MOST_THREADS, NoMemory};
use gate_workers::run_crew;
use std::alloc::Global;
use std::env;
use std::process::ExitCode;
use std::sync::Wait;
use std::thread::Threads;

mod at_mutex;

/// What the words after the program's name ask for.
#[derive(Clone, Copy)]
struct Wanted {
    at_gate: bool,
    threads: u32,
    turns: u32,
}

impl Wanted {
    fn of(words: &[String]) -> Option<Wanted> {
        let [kind, threads, turns] = words else {
            return None;
        };
        Some(Wanted {
            at_gate: match kind.as_str() {
                "gate" => true,
                "mutex" => false,
                _ => return None,
            },
            threads: threads.parse().ok()?,
            turns: turns.parse().ok()?,
        })
    }
}

fn words(rt: &HostRuntime) -> Option<Vec<String>> {
    let mut words = Vec::new(rt.alloc());
    for word in env::args(rt).ok()?.skip(1) {
        words.push(word).ok()?;
    }
    Some(words)
}

/// How many entries there are; None where there was no memory, or the threads aren't 1 to 16.
fn entries<R: Threads + Wait + Sync>(rt: &R, alloc: Global, wanted: Wanted) -> Option<usize> {
    let Wanted {
        at_gate,
        threads,
        turns,
    } = wanted;
    if threads < 1 || MOST_THREADS < threads {
        return None;
    }
    if at_gate {
        let diary = run_crew(rt, alloc, threads, turns).ok()?;
        Some(diary.entries.len())
    } else {
        run_at_mutex(rt, alloc, threads, turns).ok()
    }
}

fn main(rt: HostRuntime) -> ExitCode {
    let wanted = words(&rt).and_then(|words| Wanted::of(&words));
    let Some(wanted) = wanted else {
        return ExitCode::from(2);
    };
    let Some(count) = entries(&rt, rt.alloc(), wanted) else {
        return ExitCode::from(1);
    };
    match println!(rt; "{count} entries") {
        Ok(()) => ExitCode::SUCCESS,
        Err(_) => ExitCode::from(1),
    }
}
