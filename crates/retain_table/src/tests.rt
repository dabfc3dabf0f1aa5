//! Counts rise and fall, and the walks over the counted blocks.
use super::*;
use az_base::{BlockId, ThreadNo};
use std::test::*;

fn block(serial: u32) -> BlockId {
    let Some(thread) = ThreadNo::new(1) else {
        unreachable!()
    };
    BlockId { thread, serial }
}

fn rises_and_falls(counts: &mut Counts, id: BlockId) -> bool {
    counts.reserve_one() == Ok(())
        && counts.raise(id, 2) == Ok(1)
        && counts.raise(id, 2) == Ok(2)
        && counts.raise(id, 2) == Err(Raise::CountFull)
        && counts.count(id) == 2
        && counts.lower(id) == Ok(1)
        && counts.len() == 1
        && counts.lower(id) == Ok(0)
        && counts.lower(id) == Err(OverRelease)
        && counts.len() == 0
}

#[test]
fn rises_to_the_limit_and_falls_to_nothing(rt: HostRuntime) -> Result<(), Fail> {
    let mut counts = Counts::new(rt.alloc());
    assert!(rt; rises_and_falls(&mut counts, block(0)));
    Ok(())
}

fn walks(counts: &mut Counts, a: BlockId, b: BlockId, c: BlockId) -> bool {
    counts.raise(a, 9) == Ok(1)
        && counts.raise(b, 9) == Ok(1)
        && counts.raise(c, 9) == Ok(1)
        && counts.next_held(b) == Some(b)
        && counts.next_held(block(4)) == Some(c)
        && counts.next_held(block(8)) == None
        && counts.lower(a) == Ok(0)
        && counts.next_held(a) == None
        && counts.nth(0).is_some()
        && counts.nth(1).is_some()
        && counts.nth(2).is_none()
}

#[test]
fn walks_over_the_counted_blocks(rt: HostRuntime) -> Result<(), Fail> {
    let mut counts = Counts::new(rt.alloc());
    assert!(rt; walks(&mut counts, block(7), block(3), block(5)));
    Ok(())
}
