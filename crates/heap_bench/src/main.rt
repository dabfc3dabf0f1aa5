//! Fills a heap, and collects it as far as it is told, so that time and memory can be measured from outside.
//!
//! Each line of standard input has a number of blocks, of how many words each, and where the work ends: behind `fill`,
//! `begin`, `mark`, `condemn` or `reclaim`, in this order. A block refers to the one before the last, and a root to the
//! block that was born last: so every other block is reached, and the others go. A line of the output says how many blocks
//! there are at the end, and how many quanta they take.
#![tactic(auto)]

ghost use Rattle.std.specs.Prelude.{◌≡◌, ◌<◌, IsTrue};
ghost use Rattle.shared_heap.specs.Cycles.{IsMarking, IsSettling};

use anyhow::Result;
use az_base::{BlockId, Mode, NoMemory, Options, RootNo, Steps, ThreadNo};
use block_layouts::Layout;
use gen_marker::Progress;
use shared_heap::Heap;
use std::alloc::Global;
use std::marker::Brand;
use std::sync::ledger::{Blank, Ledger};
use zone_model::{ActionList, Stats};

/// How many blocks a slice scans at most.
const SLICE: u32 = 1_000;

/// Where the work ends.
#[derive(Clone, Copy, PartialEq, Eq, PartialOrd, Ord)]
enum End {
    Fill,
    Begin,
    Mark,
    Condemn,
    Reclaim,
}

/// A line of the input.
#[derive(Clone, Copy)]
struct Case {
    blocks: u32,
    words: u32,
    end: End,
}

/// A block is born, if it isn't there.
fn bear(
    alloc: Global,
    heap: &mut Heap,
    thread: ThreadNo,
    id: BlockId,
    words: u32,
) -> Result<(), NoMemory> {
    let Ok(layout) = Layout::scanned(words) else {
        return Err(NoMemory);
    };
    heap.unreserve();
    if !heap.has(id) {
        heap.new_shared(alloc, thread, Some(id), &layout, &ActionList::new())?;
    }
    Ok(())
}

/// The first word of a block refers to another, where both are there.
fn link(heap: &mut Heap, thread: ThreadNo, id: BlockId, to: BlockId) {
    if heap.has(id) && heap.has(to) {
        let _ = heap.store(thread, Some(id), 0, Some(to));
    }
}

/// The thread doesn't hold the block any more.
fn let_go(heap: &mut Heap, thread: ThreadNo, id: BlockId) {
    if heap.has(id) {
        let _ = heap.hold_count(thread, id, 0);
    }
}

/// The root has the block, if that is there.
fn hold(heap: &mut Heap, thread: ThreadNo, id: BlockId) {
    if heap.has(id) {
        heap.set_root(thread, RootNo(0), Some(id));
    }
}

/// The blocks come, each of which refers to the one before the last.
fn fill(alloc: Global, heap: &mut Heap, thread: ThreadNo, case: Case) -> Result<(), NoMemory> {
    for serial in 0..case.blocks {
        let id = BlockId { thread, serial };
        bear(alloc, heap, thread, id, case.words)?;
        let_go(heap, thread, id);
        if let Some(serial) = serial.checked_sub(2) {
            link(heap, thread, id, BlockId { thread, serial });
        }
    }
    let serial = case.blocks.saturating_sub(1);
    hold(heap, thread, BlockId { thread, serial });
    Ok(())
}

/// A full cycle opens, where none is open.
fn begin(alloc: Global, heap: &mut Heap, thread: ThreadNo) -> Result<(), NoMemory> {
    if heap.cycle().is_none() {
        heap.begin(alloc, thread, Mode::Full)?;
    }
    Ok(())
}

/// Whether the thread's cycle is open and marks.
fn is_marking(heap: &Heap, thread: ThreadNo) -> bool
    ensures { IsTrue result → IsMarking heap.now thread }
{
    match heap.cycle() {
        Some(cycle) => cycle.0 == thread && !cycle.1,
        None => false,
    }
}

/// Whether the thread's cycle is open and condemned.
fn is_settling(heap: &Heap, thread: ThreadNo) -> bool
    ensures { IsTrue result → IsSettling heap.now thread }
{
    match heap.cycle() {
        Some(cycle) => cycle.0 == thread && cycle.1,
        None => false,
    }
}

/// Slices, until nothing is grey.
fn mark<L: Ledger>(heap: &mut Heap, thread: ThreadNo, blank: Blank)
    requires name { blank.name ≡ L.name }
    requires parts { blank.parts ≡ L.parts }
    requires some { 0 < L.parts }
{
    let mut steps = Steps::<L>::new(blank);
    for _ in 0..u32::MAX {
        if !is_marking(heap, thread)
            || heap.mark_slice(thread, SLICE, &mut steps) == Progress::Done
        {
            break;
        }
    }
}

/// The cycle condemns.
fn condemn(heap: &mut Heap, thread: ThreadNo) {
    if is_marking(heap, thread) {
        heap.condemn(thread);
    }
}

/// The cycle reclaims, where no finaliser waits.
fn reclaim(heap: &mut Heap, thread: ThreadNo) {
    if is_settling(heap, thread) {
        if heap.to_finalise() == 0 {
            heap.reclaim(thread);
        }
    }
}

/// What a line asks for.
fn work(alloc: Global, heap: &mut Heap, thread: ThreadNo, case: Case) -> Result<(), NoMemory> {
    fill(alloc, heap, thread, case)?;
    if case.end >= End::Begin {
        begin(alloc, heap, thread)?;
    }
    if case.end >= End::Mark {
        mark::<Brand>(heap, thread, Blank::new(1));
    }
    if case.end >= End::Condemn {
        condemn(heap, thread);
    }
    if case.end >= End::Reclaim {
        reclaim(heap, thread);
    }
    Ok(())
}

/// Where a word says that the work ends.
fn end_of(word: &str) -> End {
    match word {
        "begin" => End::Begin,
        "mark" => End::Mark,
        "condemn" => End::Condemn,
        "reclaim" => End::Reclaim,
        _ => End::Fill,
    }
}

/// The case that a line tells; 0 for a number that is missing.
fn case_of(line: &str) -> Case {
    let mut words = line.split(' ');
    let blocks = words.next().unwrap_or("").parse::<u32>().unwrap_or(0);
    let each = words.next().unwrap_or("").parse::<u32>().unwrap_or(0);
    Case {
        blocks,
        words: each,
        end: end_of(words.next().unwrap_or("")),
    }
}

/// The heap is not needed any more.
fn drop_heap(_heap: Heap) {}

/// The statistics of a heap at the end of the work; None for want of memory.
fn play(alloc: Global, case: Case) -> Option<Stats> {
    let thread = ThreadNo::new(1)?;
    let Ok(mut heap) = Heap::new(alloc, Options::usual()) else {
        return None;
    };
    let done = work(alloc, &mut heap, thread, case).ok();
    let stats = heap.stats();
    drop_heap(heap);
    done.map(|_| stats)
}

fn main(rt: HostRuntime) -> Result<()> {
    for line in rt.lines(rt.alloc()) {
        let case = case_of(line?.as_str());
        if let Some(stats) = play(rt.alloc(), case) {
            println!(rt; "blocks {} quanta {}", stats.blocks, stats.quanta)?;
        }
    }
    Ok(())
}
