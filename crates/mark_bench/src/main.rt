//! How fast the marker is over blocks in a space, and over the tables of a heap.
//!
//! Each line of standard input says what has the blocks (space or heap), a graph (chain, trees or random), a number of
//! blocks, and for how many milliseconds it is marked again and again. A line of the output says how many blocks were marked in a pass; and for a number of
//! milliseconds other than 0 the least nanoseconds of processor time that a begin, the slices of 1,000 blocks, and a finish
//! took.
#![tactic(auto)]

ghost use Rattle.std.specs.Prelude.{◌≡◌, ◌<◌};
ghost use Rattle.gen_marker.specs.Marking.{Shut, Tracks};

mod filled;
mod graphs;

use crate::filled::Filled;
use crate::graphs::{Ways, chain, random, trees};
use az_base::{BlockId, Mode, Steps, ThreadNo};
use gen_marker::{Marker, Progress};
use heap_tables::Tables;
use space_graph::SpaceGraph;
use std::alloc::{AllocError, Global};
use std::io;
use std::marker::Brand;
use std::sync::ledger::{Blank, Ledger};
use std::time::CpuClock;

/// The blocks of a slice.
const SLICE: u32 = 1_000;

/// The least times of a pass, in nanoseconds, and how many blocks the last one condemned.
#[derive(Clone, Copy)]
struct Best {
    begin: u64,
    mark: u64,
    finish: u64,
    condemned: usize,
}

/// The graph that has these ends.
fn make<G: Filled>(
    alloc: Global,
    graph: &mut G,
    ways: &Ways,
    thread: ThreadNo,
) -> Result<(), AllocError> {
    let Ok(count) = u32::try_from(ways.ends.len()) else {
        return Err(AllocError);
    };
    for serial in 0..count {
        graph.put(alloc, BlockId { thread, serial })?;
    }
    let mut serial = 0u32;
    for ends in ways.ends.iter() {
        graph.link(BlockId { thread, serial }, *ends);
        serial = serial.wrapping_add(1);
    }
    graph.hold(BlockId {
        thread,
        serial: ways.root,
    })
}

/// The processor time of this thread in nanoseconds; 0 where it can't be told.
fn now(rt: &HostRuntime) -> u64 {
    match rt.thread_cpu_time() {
        Ok(time) => u64::try_from(time.as_nanos()).unwrap_or(u64::MAX),
        Err(_) => 0,
    }
}

/// Slices to the end. It is a call, so that its loop has the registers to itself.
#[inline(never)]
fn slices<G: Filled, L: Ledger>(marker: &mut Marker, graph: &mut G, steps: &mut Steps<L>)
    requires tracks { Tracks marker.old (G.Graph.shape graph.old).blocks (G.Graph.shades graph.old) }
    requires shut { Shut marker.old.mode (G.Graph.shape graph.old) (G.Graph.shades graph.old) }
    ensures tracks { Tracks marker.new (G.Graph.shape graph.new).blocks (G.Graph.shades graph.new) }
    ensures shut { Shut marker.new.mode (G.Graph.shape graph.new) (G.Graph.shades graph.new) }
{
    for _ in 0..u64::MAX {
        if marker.slice(graph, SLICE, steps) == Progress::Done {
            break;
        }
    }
}

/// A cycle from begin to finish.
fn cycle<G: Filled, L: Ledger>(rt: &HostRuntime, graph: &mut G, best: &mut Best, blank: Blank)
    requires name { blank.name ≡ L.name }
    requires parts { blank.parts ≡ L.parts }
    requires some { 0 < L.parts }
{
    let mut steps = Steps::<L>::new(blank);
    let start = now(rt);
    let Ok(mut marker) = Marker::begin(rt.alloc(), graph, Mode::Full) else {
        return;
    };
    let begun = now(rt);
    slices(&mut marker, graph, &mut steps);
    let marked = now(rt);
    let condemned = marker.finish(graph, &mut steps);
    let end = now(rt);
    best.begin = best.begin.min(begun.saturating_sub(start));
    best.mark = best.mark.min(marked.saturating_sub(begun));
    best.finish = best.finish.min(end.saturating_sub(marked));
    best.condemned = condemned.ids.len();
}

fn pass<G: Filled>(rt: &HostRuntime, graph: &mut G, best: &mut Best) {
    cycle::<G, Brand>(rt, graph, best, Blank::new(1));
}

/// Passes for so many milliseconds, at least one.
fn time<G: Filled>(rt: &HostRuntime, graph: &mut G, millis: u64) -> Best {
    let mut best = Best {
        begin: u64::MAX,
        mark: u64::MAX,
        finish: u64::MAX,
        condemned: 0,
    };
    let first = now(rt);
    for _ in 0..u64::MAX {
        pass(rt, graph, &mut best);
        if now(rt).saturating_sub(first) > millis.saturating_mul(1_000_000) {
            break;
        }
    }
    best
}

/// The ends of a graph by its name.
fn ways_of(alloc: Global, name: &str, count: u32) -> Result<Ways, AllocError> {
    if name == "trees" {
        trees(alloc, count)
    } else if name == "random" {
        random(alloc, count)
    } else {
        chain(alloc, count)
    }
}

/// The blocks of a graph come.
fn fill<G: Filled>(
    alloc: Global,
    graph: &mut G,
    name: &str,
    count: u32,
    thread: ThreadNo,
) -> Result<(), AllocError> {
    let ways = ways_of(alloc, name, count)?;
    let made = make(alloc, graph, &ways, thread);
    graph.open();
    made
}

/// What a line asks for; None for want of memory.
fn work<G: Filled>(
    rt: &HostRuntime,
    graph: &mut G,
    name: &str,
    count: u32,
    millis: u64,
) -> Option<Best> {
    let thread = ThreadNo::new(1)?;
    match fill(rt.alloc(), graph, name, count, thread) {
        Ok(()) => Some(time(rt, graph, millis)),
        Err(_) => None,
    }
}

/// The graph is not needed any more.
fn end<G: Drop>(_graph: G) {}

/// Marks the graph in a space of its own.
fn play_space(rt: &HostRuntime, name: &str, count: u32, millis: u64) -> Option<Best> {
    let mut graph = SpaceGraph::new(rt.alloc());
    let best = work(rt, &mut graph, name, count, millis);
    end(graph);
    best
}

/// Marks the graph in the tables of a heap.
fn play_heap(rt: &HostRuntime, name: &str, count: u32, millis: u64) -> Option<Best> {
    let Ok(mut tables) = Tables::new(rt.alloc()) else {
        return None;
    };
    let best = work(rt, &mut tables, name, count, millis);
    end(tables);
    best
}

/// Marks the graph in what has this name.
fn play(rt: &HostRuntime, over: &str, name: &str, count: u32, millis: u64) -> Option<Best> {
    if over == "heap" {
        play_heap(rt, name, count, millis)
    } else {
        play_space(rt, name, count, millis)
    }
}

fn main(rt: HostRuntime) -> io::Result<()> {
    for line in rt.lines(rt.alloc()) {
        let line = line?;
        let mut words = line.as_str().split(' ');
        let over = words.next().unwrap_or("");
        let name = words.next().unwrap_or("");
        let count = words.next().unwrap_or("").parse::<u32>().unwrap_or(0);
        let millis = words.next().unwrap_or("").parse::<u64>().unwrap_or(0);
        if let Some(best) = play(&rt, over, name, count, millis) {
            let marked = (count as usize).saturating_sub(best.condemned);
            if millis == 0 {
                println!(rt; "{marked}")?;
            } else {
                println!(rt; "{marked} {} {} {}", best.begin, best.mark, best.finish)?;
            }
        }
    }
    Ok(())
}
