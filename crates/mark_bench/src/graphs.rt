//! The graphs that are marked: for each block the two blocks to which it refers.
use std::alloc::{AllocError, Global};

/// The ends of a block's two words.
#[derive(Clone, Copy)]
pub struct Ends {
    pub first: Option<u32>,
    pub second: Option<u32>,
}

/// The ends of each block's words, and the block from which all are reached.
#[derive(Drop)]
pub struct Ways {
    pub ends: Vec<Ends>,
    pub root: u32,
}

/// Numbers that look random, the same in each run.
#[derive(Clone, Copy)]
struct Seed {
    state: u64,
}

impl Seed {
    /// The next one below a bound.
    fn next(&mut self, bound: u32) -> u32 {
        self.state = self
            .state
            .wrapping_mul(6_364_136_223_846_793_005)
            .wrapping_add(1_442_695_040_888_963_407);
        ((self.state >> 33).wrapping_mul(bound as u64) >> 31) as u32
    }
}

/// The next block after one, and the first after the last.
fn next_of(block: u32, count: u32) -> u32 {
    let next = block.wrapping_add(1);
    if next < count { next } else { 0 }
}

/// Each block refers to the next.
pub fn chain(alloc: Global, count: u32) -> Result<Ways, AllocError> {
    let mut ends = Vec::with_capacity(alloc, count as usize)?;
    for block in 0..count {
        ends.push(Ends {
            first: None,
            second: Some(next_of(block, count)),
        })?;
    }
    Ok(Ways { ends, root: 0 })
}

/// Each block refers to a random one and to the next.
pub fn random(alloc: Global, count: u32) -> Result<Ways, AllocError> {
    let mut seed = Seed { state: 12345 };
    let mut ends = Vec::with_capacity(alloc, count as usize)?;
    for block in 0..count {
        ends.push(Ends {
            first: Some(seed.next(count)),
            second: Some(next_of(block, count)),
        })?;
    }
    Ok(Ways { ends, root: 0 })
}

/// The block that comes next in a tree that is made bottom up, left to right: it takes the two subtrees that were made
/// last, where these are equally high.
fn join(stack: &mut Vec<(u32, u32)>, block: u32) -> Result<Ends, AllocError> {
    let right = stack.pop();
    let left = stack.pop();
    let mut ends = Ends {
        first: None,
        second: None,
    };
    let mut height = 0;
    match (left, right) {
        (Some(left), Some(right)) if left.1 == right.1 => {
            ends = Ends {
                first: Some(left.0),
                second: Some(right.0),
            };
            height = right.1.wrapping_add(1);
        }
        (Some(left), Some(right)) => {
            stack.push(left)?;
            stack.push(right)?;
        }
        (None, Some(right)) => stack.push(right)?,
        _ => {}
    }
    stack.push((block, height))?;
    Ok(ends)
}

/// A list of binary trees of 1,023 blocks; blocks that are left over refer to none.
pub fn trees(alloc: Global, count: u32) -> Result<Ways, AllocError> {
    let mut ends = Vec::with_capacity(alloc, count as usize)?;
    let mut list = None;
    let mut stack = Vec::with_capacity(alloc, 32)?;
    for tree in 0..count / 1024 {
        let base = tree.wrapping_mul(1024);
        for block in 0..1023 {
            ends.push(join(&mut stack, base.wrapping_add(block))?)?;
        }
        let top = stack.pop().map(|top: (u32, u32)| top.0);
        ends.push(Ends {
            first: top,
            second: list,
        })?;
        list = Some(base.wrapping_add(1023));
    }
    for _ in ends.len()..count as usize {
        ends.push(Ends {
            first: None,
            second: None,
        })?;
    }
    Ok(Ways {
        ends,
        root: list.unwrap_or(0),
    })
}
