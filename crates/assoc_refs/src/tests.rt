//! Values come, change and go.
use super::*;
use az_base::{BlockId, Key, ThreadNo};
use std::test::*;

fn block(serial: u32) -> BlockId {
    let Some(thread) = ThreadNo::new(1) else {
        unreachable!()
    };
    BlockId { thread, serial }
}

fn tells_what_was(assocs: &mut Assocs, object: BlockId) -> bool {
    assocs.reserve_one(object) == Ok(())
        && assocs.set(object, Key(2), Some(block(1))) == Ok(None)
        && assocs.set(object, Key(2), Some(block(2))) == Ok(Some(block(1)))
        && assocs.get(object, Key(2)) == Some(block(2))
        && assocs.len() == 1
        && assocs.set(object, Key(2), None) == Ok(Some(block(2)))
        && assocs.set(object, Key(2), None) == Ok(None)
        && assocs.len() == 0
}

#[test]
fn answers_the_value_before(rt: HostRuntime) -> Result<(), Fail> {
    let mut assocs = Assocs::new(rt.alloc());
    assert!(rt; tells_what_was(&mut assocs, block(0)));
    Ok(())
}

/// Each key gets a value of its own.
fn fills(assocs: &mut Assocs, object: BlockId) -> bool {
    for i in 0..256_u32 {
        // 89 and 256 have no common factor, so each key comes once.
        let key = i.wrapping_mul(89) % 256;
        if assocs.set(object, Key(key as u8), Some(block(key))) != Ok(None) {
            return false;
        }
    }
    true
}

fn is_ascending(assocs: &Assocs, object: BlockId) -> bool {
    for n in 0..256_usize {
        if assocs.nth_of(object, n) != Some((Key(n as u8), block(n as u32))) {
            return false;
        }
    }
    assocs.nth_of(object, 256) == None
}

fn is_erased(assocs: &mut Assocs, object: BlockId) -> bool {
    assocs.erase(object);
    assocs.nth_of(object, 0) == None
}

fn walks(assocs: &mut Assocs, object: BlockId, other: BlockId) -> bool {
    assocs.set(other, Key(0), Some(other)) == Ok(None)
        && fills(assocs, object)
        && assocs.len() == 257
        && is_ascending(assocs, object)
        && is_erased(assocs, object)
        && assocs.get(other, Key(0)) == Some(other)
        && assocs.len() == 1
}

#[test]
fn walks_in_ascending_keys(rt: HostRuntime) -> Result<(), Fail> {
    let mut assocs = Assocs::new(rt.alloc());
    assert!(rt; walks(&mut assocs, block(7), block(8)));
    Ok(())
}

fn has_one(assocs: &mut Assocs, object: BlockId) -> bool {
    assocs.set(object, Key(0), Some(object)) == Ok(None) && assocs.may_have(object)
}

/// How many of the blocks with these serials may have values.
fn how_many(assocs: &Assocs, from: u32, to: u32) -> u32 {
    let mut count = 0_u32;
    for serial in from..to {
        if assocs.may_have(block(serial)) {
            count = count.wrapping_add(1);
        }
    }
    count
}

fn tells_apart(assocs: &mut Assocs) -> bool {
    for serial in 0..1_000_u32 {
        if !has_one(assocs, block(serial)) {
            return false;
        }
    }
    how_many(assocs, 0, 1_000) == 1_000 && how_many(assocs, 1_000, 11_000) <= 2_500
}

fn is_empty_again(assocs: &mut Assocs) -> bool {
    for serial in 0..1_000_u32 {
        assocs.erase(block(serial));
    }
    how_many(assocs, 0, 11_000) == 0
}

#[test]
fn tells_most_objects_without_values(rt: HostRuntime) -> Result<(), Fail> {
    let mut assocs = Assocs::new(rt.alloc());
    assert!(rt; tells_apart(&mut assocs) && is_empty_again(&mut assocs));
    Ok(())
}
