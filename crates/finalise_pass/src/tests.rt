//! Rows of marking, finalising and settling over graphs in memory.
ghost use Rattle.std.specs.Prelude.{◌≡◌, ◌<◌, IfOk, length};
ghost use Rattle.gen_marker.specs.Marking.{Shut, Tracks};

use super::*;
use crate::small_finals::SmallFinals;
use crate::small_graph::SmallGraph;
use az_base::{Action, BlockId, Mode, NoMemory, RootNo, Steps, ThreadNo};
use gen_marker::{Condemned, Marker, Progress, enlivened_stores_keep_the_tricolour_fact};
use quantum_space::{Graph, Shade};
use std::alloc::{AllocError, Global};
use std::marker::Brand;
use std::sync::ledger::{Blank, Ledger};
use std::test::*;
use zone_model::{ActionList, IdList};

/// What a cycle came to: how many slices left something to do, and what was condemned.
#[derive(Drop)]
struct CycleEnd {
    more: u32,
    condemned: Condemned,
}

/// One slice; whether it left grey blocks.
fn leaves_more<L: Ledger>(
    marker: &mut Marker,
    graph: &mut SmallGraph,
    budget: u32,
    steps: &mut Steps<L>,
) -> bool
    requires tracks { Tracks marker.old (⟦<SmallGraph as Graph>⟧.shape graph.old).blocks (⟦<SmallGraph as Graph>⟧.shades graph.old) }
    requires shut { Shut marker.old.mode (⟦<SmallGraph as Graph>⟧.shape graph.old) (⟦<SmallGraph as Graph>⟧.shades graph.old) }
    ensures tracks { Tracks marker.new (⟦<SmallGraph as Graph>⟧.shape graph.new).blocks (⟦<SmallGraph as Graph>⟧.shades graph.new) }
    ensures shut { Shut marker.new.mode (⟦<SmallGraph as Graph>⟧.shape graph.new) (⟦<SmallGraph as Graph>⟧.shades graph.new) }
{
    match marker.slice(graph, budget, steps) {
        Progress::Done => false,
        Progress::More => true,
    }
}

/// A whole cycle in slices of this budget.
fn cycle<L: Ledger>(
    alloc: Global,
    graph: &mut SmallGraph,
    mode: Mode,
    budget: u32,
    steps: &mut Steps<L>,
) -> Result<CycleEnd, NoMemory> {
    let mut marker = Marker::begin(alloc, graph, mode)?;
    let mut more = 0;
    for n in 0..20_000 {
        if !leaves_more(&mut marker, graph, budget, steps) {
            break;
        }
        more = n + 1;
    }
    Ok(CycleEnd {
        more,
        condemned: marker.finish(graph, steps),
    })
}

/// The same with steps of its own.
fn run_cycle(
    alloc: Global,
    graph: &mut SmallGraph,
    mode: Mode,
    budget: u32,
) -> Result<CycleEnd, NoMemory> {
    with_blank::<Brand>(alloc, graph, mode, budget, Blank::new(1))
}

fn with_blank<L: Ledger>(
    alloc: Global,
    graph: &mut SmallGraph,
    mode: Mode,
    budget: u32,
    blank: Blank,
) -> Result<CycleEnd, NoMemory>
    requires name { blank.name ≡ L.name }
    requires parts { blank.parts ≡ L.parts }
    requires some { 0 < L.parts }
{
    let mut steps = Steps::<L>::new(blank);
    cycle(alloc, graph, mode, budget, &mut steps)
}

/// A store of b into a between a slice of one scan and the finish, with b enlivened; gives what is condemned.
fn store_between<L: Ledger>(
    alloc: Global,
    graph: &mut SmallGraph,
    a: BlockId,
    b: BlockId,
    blank: Blank,
) -> Result<IdList, Fail>
    requires name { blank.name ≡ L.name }
    requires parts { blank.parts ≡ L.parts }
    requires some { 0 < L.parts }
{
    let b = &b;
    let mut steps = Steps::<L>::new(blank);
    enlivened_stores_keep_the_tricolour_fact();
    let mut marker = Marker::begin(alloc, graph, Mode::Full)?;
    let _ = marker.slice(graph, 1, &mut steps);
    let stored = graph.store(a, *b);
    marker.enliven(graph, *b);
    stored?;
    Ok(marker.finish(graph, &mut steps).ids)
}

fn run_store(
    alloc: Global,
    graph: &mut SmallGraph,
    a: BlockId,
    b: BlockId,
) -> Result<IdList, Fail> {
    store_between::<Brand>(alloc, graph, a, b, Blank::new(1))
}

/// Settles condemned blocks over a graph in which every block is remembered.
fn settle(graph: &mut SmallGraph, pass: Pass) -> Settled {
    graph.remember_all();
    pass.settle(graph)
}

/// Runs finalisers until none is next; gives how many ran.
fn finalise(pass: &mut Pass, finals: &mut SmallFinals) -> u32 {
    let mut ran = 0;
    for n in 0..1_000 {
        if !finalises_one(pass, finals) {
            break;
        }
        ran = n + 1;
    }
    ran
}

/// Runs the finaliser that is next; false where none is.
fn finalises_one(pass: &mut Pass, finals: &mut SmallFinals) -> bool {
    match pass.next(finals) {
        Some(id) => {
            pass.apply(id, finals);
            true
        }
        None => false,
    }
}

/// The first thread.
fn first_thread() -> Result<ThreadNo, Fail> {
    Ok(ThreadNo::new(1).ok_or("thread 1")?)
}

/// The blocks with these serials.
fn ids(alloc: Global, thread: ThreadNo, serials: &[u32]) -> Result<Vec<BlockId>, AllocError>
    ensures { IfOk result (λ ids. length ids.items ≡ length serials.now) }
{
    let mut ids = Vec::with_capacity(alloc, serials.len())?;
    for serial in serials {
        ids.push(BlockId {
            thread,
            serial: *serial,
        })?;
    }
    Ok(ids)
}

/// So many blocks, with these edges, anchors and remembered blocks; those from a serial on are young.
fn linked(
    alloc: Global,
    count: u32,
    edges: Vec<Vec<BlockId>>,
    anchors: &[u32],
    remembered: &[u32],
    young_from: u32,
) -> Result<SmallGraph, Fail>
    requires { length remembered.now < 1000 }
{
    let thread = first_thread()?;
    let anchors = ids(alloc, thread, anchors)?;
    let some_remembered = ids(alloc, thread, remembered)?;
    let shades = vec![in alloc; Shade::Black; count as usize]?;
    Ok(SmallGraph {
        thread,
        shades,
        edges,
        young_from,
        anchors,
        all_remembered: false,
        some_remembered,
    })
}

/// A graph by the serials of the edges of each block, of the anchors and of the remembered blocks; the blocks from the
/// last number on are young.
fn graph_of(
    alloc: Global,
    rows: &[&[u32]],
    anchors: &[u32],
    remembered: &[u32],
    young_from: u32,
) -> Result<SmallGraph, Fail> {
    if rows.len() >= 1_000 || remembered.len() >= 1_000 {
        return Err(Fail::new("too many"));
    }
    let count = rows.len() as u32;
    let thread = first_thread()?;
    let mut edges = Vec::with_capacity(alloc, rows.len())?;
    for row in rows {
        edges.push(ids(alloc, thread, row)?)?;
    }
    linked(alloc, count, edges, anchors, remembered, young_from)
}

/// These are the blocks with these serials.
fn are(list: &IdList, serials: &[u32]) -> bool {
    list.len() == serials.len()
        && list
            .as_slice()
            .iter()
            .zip(serials.iter())
            .all(|(id, serial)| id.serial == *serial)
}

/// A pass over these condemned blocks.
fn pass_over(alloc: Global, condemned: Condemned) -> Result<Pass, NoMemory> {
    let room = IdList::with_room(alloc, condemned.ids.len())?;
    Ok(Pass::new(condemned, room))
}

/// The finalisers of so many blocks: the actions of each, and the blocks that the words of each refer to.
fn finals_of(alloc: Global, rows: &[&[Action]], words: &[u32]) -> Result<SmallFinals, Fail> {
    let thread = first_thread()?;
    let mut actions = Vec::with_capacity(alloc, rows.len())?;
    for row in rows {
        actions.push(ActionList::from_slice(row).ok_or("at most two actions")?)?;
    }
    let done = vec![in alloc; false; actions.len()]?;
    Ok(SmallFinals {
        thread,
        roots: vec![in alloc; None; 256]?,
        actions,
        words: ids(alloc, thread, words)?,
        done,
    })
}

/// A full cycle, in slices of one scan, over a graph of old blocks.
fn full_cycle(alloc: Global, rows: &[&[u32]], anchors: &[u32]) -> Result<CycleEnd, Fail> {
    let mut graph = graph_of(alloc, rows, anchors, &[], 0)?;
    Ok(run_cycle(alloc, &mut graph, Mode::Full, 1)?)
}

#[test]
fn condemns_the_white_blocks(rt: HostRuntime) -> Result<(), Fail> {
    let cases: [(&[&[u32]], &[u32], u32, &[u32]); 4] = [
        (&[&[1], &[], &[]], &[0], 1, &[2]),
        (&[], &[], 0, &[]),
        // Blocks that refer to themselves.
        (&[&[0], &[1]], &[0], 0, &[1]),
        // Edges and anchors that aren't there.
        (&[&[7, 1], &[9]], &[0, 8], 1, &[]),
    ];
    for (rows, anchors, more, condemned) in &cases {
        let end = full_cycle(rt.alloc(), rows, anchors)?;
        assert_eq!(rt; end.more, *more);
        assert!(rt; are(&end.condemned.ids, condemned));
    }
    Ok(())
}

#[test]
fn young_cycles_take_young_blocks(rt: HostRuntime) -> Result<(), Fail> {
    let alloc = rt.alloc();
    let mut graph = graph_of(alloc, &[&[], &[2], &[], &[], &[5], &[]], &[4], &[1], 2)?;
    let end = run_cycle(alloc, &mut graph, Mode::Young, 100)?;
    assert_eq!(rt; end.more, 0);
    assert!(rt;
        are(&end.condemned.ids, &[3]),
        "a young block that neither an anchor nor a remembered block keeps"
    );
    Ok(())
}

#[test]
fn walks_a_long_chain_one_by_one(rt: HostRuntime) -> Result<(), Fail> {
    let alloc = rt.alloc();
    let thread = first_thread()?;
    let mut edges = Vec::with_capacity(alloc, 9_999)?;
    for serial in 1..10_000u32 {
        edges.push(ids(alloc, thread, &[serial])?)?;
    }
    let mut graph = linked(alloc, 10_001, edges, &[0], &[], 0)?;
    let end = run_cycle(alloc, &mut graph, Mode::Full, 1)?;
    assert_eq!(rt; end.more, 9_999);
    assert!(rt;
        are(&end.condemned.ids, &[10_000]),
        "the block that isn't in the chain"
    );
    Ok(())
}

#[test]
fn marks_a_large_graph(rt: HostRuntime) -> Result<(), Fail> {
    let alloc = rt.alloc();
    let thread = first_thread()?;
    let mut edges = Vec::with_capacity(alloc, 100_001)?;
    for serial in 0..100_000u32 {
        let ends = [
            (serial + 1) % 100_000,
            (serial * 2) % 100_000,
            (serial * 3 + 1) % 100_000,
            (serial * 5 + 2) % 100_000,
        ];
        edges.push(ids(alloc, thread, &ends)?)?;
    }
    let mut hub = Vec::with_capacity(alloc, 4_096)?;
    for n in 0..4_096u32 {
        hub.push(BlockId {
            thread,
            serial: n * 24,
        })?;
    }
    edges.push(hub)?;
    let mut graph = linked(alloc, 100_002, edges, &[100_000], &[], 0)?;
    let end = run_cycle(alloc, &mut graph, Mode::Full, 1_000)?;
    assert_eq!(rt; end.more, 100);
    assert!(rt; are(&end.condemned.ids, &[100_001]));
    Ok(())
}

#[test]
fn an_enlivened_store_is_seen(rt: HostRuntime) -> Result<(), Fail> {
    let alloc = rt.alloc();
    let thread = first_thread()?;
    let rows: [&[u32]; 5] = [&[1], &[], &[3], &[], &[]];
    let mut graph = graph_of(alloc, &rows, &[0], &[], 0)?;
    let end = run_cycle(alloc, &mut graph, Mode::Full, 1)?;
    assert!(rt; are(&end.condemned.ids, &[2, 3, 4]), "without a store");
    let left = run_store(
        alloc,
        &mut graph,
        BlockId { thread, serial: 0 },
        BlockId { thread, serial: 2 },
    )?;
    assert!(rt;
        are(&left, &[4]),
        "with a store of block 2 into block 0, when that was black"
    );
    Ok(())
}

#[test]
fn finalised_blocks_are_kept_with_what_they_reach(rt: HostRuntime) -> Result<(), Fail> {
    let alloc = rt.alloc();
    let thread = first_thread()?;
    let mut graph = graph_of(alloc, &[&[], &[2], &[], &[], &[]], &[], &[], 0)?;
    let end = run_cycle(alloc, &mut graph, Mode::Full, 10)?;
    let condemned = are(&end.condemned.ids, &[0, 1, 2, 3, 4]);
    let keeps = [Action::Keep(RootNo(6)), Action::Keep(RootNo(5))];
    let passes = [Action::Pass(RootNo(6), 0)];
    let mut finals = finals_of(alloc, &[&[], &keeps, &[], &passes, &[]], &[0])?;
    let mut pass = pass_over(alloc, end.condemned)?;
    let finalised = finalise(&mut pass, &mut finals) == 2;
    // Block 1 is kept, and block 0 is passed on, after block 1 had kept itself there.
    let rooted = finals.roots.get(5).copied() == Some(Some(BlockId { thread, serial: 1 }))
        && finals.roots.get(6).copied() == Some(Some(BlockId { thread, serial: 0 }));
    graph.set_anchors(ids(alloc, thread, &[1, 0])?);
    let settled = settle(&mut graph, pass);
    let settled = are(&settled.kept, &[0, 1, 2]) && are(&settled.reclaimed, &[3, 4]);
    assert!(rt; condemned && finalised && rooted && settled);
    Ok(())
}

#[test]
fn a_dead_block_outside_keeps_what_it_refers_to(rt: HostRuntime) -> Result<(), Fail> {
    let alloc = rt.alloc();
    let thread = first_thread()?;
    let mut graph = graph_of(alloc, &[&[], &[2], &[], &[]], &[0], &[], 0)?;
    let end = run_cycle(alloc, &mut graph, Mode::Full, 10)?;
    let condemned = are(&end.condemned.ids, &[1, 2, 3]);
    let pass = pass_over(alloc, end.condemned)?;
    graph.set_anchors(Vec::new(alloc));
    graph.store(BlockId { thread, serial: 0 }, BlockId { thread, serial: 1 })?;
    let settled = settle(&mut graph, pass);
    let settled = are(&settled.kept, &[1, 2]) && are(&settled.reclaimed, &[3]);
    assert!(rt; condemned && settled);
    Ok(())
}

#[test]
fn ids_that_are_no_blocks_are_not_settled(rt: HostRuntime) -> Result<(), Fail> {
    let alloc = rt.alloc();
    let mut graph = graph_of(alloc, &[&[], &[], &[], &[], &[]], &[0], &[], 0)?;
    let end = run_cycle(alloc, &mut graph, Mode::Full, 10)?;
    let condemned = are(&end.condemned.ids, &[1, 2, 3, 4]);
    let pass = pass_over(alloc, end.condemned)?;
    let mut smaller = graph_of(alloc, &[&[2], &[], &[]], &[], &[], 0)?;
    let settled = settle(&mut smaller, pass);
    // What block 0 refers to is kept; 3 and 4 are in neither list.
    let settled = are(&settled.kept, &[2]) && are(&settled.reclaimed, &[1]);
    assert!(rt; condemned && settled);
    Ok(())
}

#[test]
fn a_pass_goes_on_where_it_is(rt: HostRuntime) -> Result<(), Fail> {
    let alloc = rt.alloc();
    let thread = first_thread()?;
    let mut graph = graph_of(alloc, &[&[], &[]], &[], &[], 0)?;
    let end = run_cycle(alloc, &mut graph, Mode::Full, 10)?;
    let mut finals = finals_of(
        alloc,
        &[&[Action::Keep(RootNo(1))], &[Action::Keep(RootNo(2))]],
        &[],
    )?;
    let mut pass = pass_over(alloc, end.condemned)?;
    let first = Some(BlockId { thread, serial: 0 });
    // Asking changes nothing.
    let found = pass.next(&finals) == first && pass.next(&finals) == first;
    let finalised = finalise(&mut pass, &mut finals) == 2;
    assert!(rt; found && finalised && pass.next(&finals).is_none());
    Ok(())
}
