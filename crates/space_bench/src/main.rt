//! Fills a space, frees every other block and fills it again, so that the time can be measured from outside.
//!
//! Each line of standard input has four numbers: how many blocks to place, of how many words each, how often every other
//! block is then freed and others are placed, and how often all are made white and one older. A line of the output says
//! how many blocks were placed, and how many quanta are in use at the end.
#![tactic(auto)]

use anyhow::Result;
use az_base::{BlockId, ThreadNo};
use block_layouts::Layout;
use block_space::Space;
use quantum_space::Place;
use std::alloc::{AllocError, Global};

/// How many blocks room is taken for at a time.
const BATCH: u32 = 1_000;

/// A line of the input.
#[derive(Clone, Copy)]
struct Case {
    blocks: u32,
    words: u32,
    rounds: u32,
    walks: u32,
}

/// Places a block, where its length is the first of those that are to come.
fn place(space: &mut Space, id: BlockId, words: u32) -> Option<Place> {
    let Ok(layout) = Layout::scanned(words) else {
        return None;
    };
    if space.next_length() == Some(words) {
        Some(space.place(id, layout))
    } else {
        None
    }
}

/// Room for blocks of these lengths.
fn reserve(space: &mut Space, lengths: &[u32]) -> Result<(), AllocError> {
    if space.may_reserve(lengths) && space.reserve(lengths).is_ok() {
        Ok(())
    } else {
        Err(AllocError)
    }
}

/// So many blocks more, whose places go to the end of the list.
fn fill(
    space: &mut Space,
    thread: ThreadNo,
    lengths: &[u32],
    words: u32,
    batches: u32,
    places: &mut Vec<Place>,
) -> Result<(), AllocError> {
    for _ in 0..batches {
        reserve(space, lengths)?;
        for serial in 0..BATCH {
            let Some(place) = place(space, BlockId { thread, serial }, words) else {
                return Err(AllocError);
            };
            places.push(place)?;
        }
    }
    Ok(())
}

/// Frees every other block, and gives the places of those that are left.
fn thin(alloc: Global, space: &mut Space, places: &[Place]) -> Result<Vec<Place>, AllocError> {
    let mut left = Vec::new(alloc);
    let mut freed = Vec::new(alloc);
    for (at, place) in places.iter().enumerate() {
        if at % 2 == 0 {
            freed.push(*place)?;
        } else {
            left.push(*place)?;
        }
    }
    if space.knows_no_place() {
        space.free_all(&freed);
    }
    Ok(left)
}

/// Makes all blocks white and one older.
fn walk(space: &mut Space, walks: u32) {
    for _ in 0..walks {
        space.whiten_all();
        space.age_all();
    }
}

/// What a line asks for.
fn work(alloc: Global, space: &mut Space, thread: ThreadNo, case: Case) -> Result<u64, AllocError> {
    let mut lengths = Vec::new(alloc);
    for _ in 0..BATCH {
        lengths.push(case.words)?;
    }
    let batches = case.blocks / BATCH;
    let mut places = Vec::new(alloc);
    let mut placed = batches as u64;
    fill(space, thread, &lengths, case.words, batches, &mut places)?;
    for _ in 0..case.rounds {
        places = thin(alloc, space, &places)?;
        fill(
            space,
            thread,
            &lengths,
            case.words,
            batches / 2,
            &mut places,
        )?;
        placed = placed.wrapping_add(batches as u64 / 2);
    }
    walk(space, case.walks);
    Ok(placed.wrapping_mul(BATCH as u64))
}

/// The case that a line tells; 0 for a number that is missing.
fn case_of(line: &str) -> Case {
    let mut counts = [0; 4];
    for (at, word) in line.split(' ').take(4).enumerate() {
        if let (Some(count), Ok(number)) = (counts.get_mut(at), word.parse::<u32>()) {
            *count = number;
        }
    }
    Case {
        blocks: counts[0],
        words: counts[1],
        rounds: counts[2],
        walks: counts[3],
    }
}

/// How many blocks were placed, and how many quanta are in use then.
fn play(alloc: Global, thread: ThreadNo, case: Case) -> (Option<u64>, u32) {
    let mut space = Space::new(alloc);
    let placed = work(alloc, &mut space, thread, case).ok();
    (placed, space.used())
}

fn main(rt: HostRuntime) -> Result<()> {
    for line in rt.lines(rt.alloc()) {
        let case = case_of(line?.as_str());
        if let Some(thread) = ThreadNo::new(1)
            && let (Some(placed), used) = play(rt.alloc(), thread, case)
        {
            println!(rt; "placed {placed} quanta {used}")?;
        }
    }
    Ok(())
}
