//! Locations show blocks, and turn null.
use super::*;
use az_base::{BlockId, NoMemory, ThreadNo, WeakLoc, WeakNo};
use std::test::*;

fn block(serial: u32) -> BlockId {
    let Some(thread) = ThreadNo::new(1) else {
        unreachable!()
    };
    BlockId { thread, serial }
}

fn root(number: u8) -> WeakLoc {
    WeakLoc::Root(WeakNo(number))
}

fn word(of: u32, at: u32) -> WeakLoc {
    WeakLoc::Word(block(of), at)
}

fn show(weak: &mut Weak, loc: WeakLoc, value: BlockId) -> Result<(), NoMemory> {
    weak.reserve_one(value)?;
    weak.assign(loc, Some(value));
    Ok(())
}

fn shows(weak: &mut Weak, loc: WeakLoc, value: BlockId) -> bool {
    show(weak, loc, value) == Ok(())
}

fn condemns(weak: &mut Weak) -> bool {
    weak.condemn(&[block(0)]);
    weak.read(root(0)) == None && weak.read(root(1)) == None && weak.read(root(2)) == Some(block(1))
}

fn nulls(weak: &mut Weak) -> bool {
    weak.assign(root(2), None);
    weak.registered() == 0
}

fn turns_null(weak: &mut Weak) -> bool {
    shows(weak, root(0), block(0))
        && shows(weak, root(1), block(0))
        && shows(weak, root(2), block(1))
        && weak.registered() == 3
        && condemns(weak)
        && nulls(weak)
}

#[test]
fn condemned_blocks_are_shown_no_more(rt: HostRuntime) -> Result<(), Fail> {
    let mut weak = Weak::new(rt.alloc());
    assert!(rt; turns_null(&mut weak));
    Ok(())
}

fn changes(weak: &mut Weak) -> bool {
    shows(weak, root(0), block(0))
        && shows(weak, root(1), block(0))
        && shows(weak, root(0), block(0))
        && shows(weak, root(0), block(1))
        && weak.read(root(0)) == Some(block(1))
        && weak.read(root(1)) == Some(block(0))
        && weak.registered() == 2
}

#[test]
fn a_location_shows_what_was_assigned_last(rt: HostRuntime) -> Result<(), Fail> {
    let mut weak = Weak::new(rt.alloc());
    assert!(rt; changes(&mut weak));
    Ok(())
}

fn forgets(weak: &mut Weak) -> bool {
    weak.forget_in(block(0));
    weak.read(word(0, 0)) == None
        && weak.read(word(0, 7)) == None
        && weak.read(word(1, 0)) == Some(block(0))
        && weak.registered() == 1
}

fn goes(weak: &mut Weak) -> bool {
    shows(weak, word(0, 0), block(0))
        && shows(weak, word(0, 7), block(1))
        && shows(weak, word(1, 0), block(0))
        && forgets(weak)
}

#[test]
fn a_block_goes_with_its_words(rt: HostRuntime) -> Result<(), Fail> {
    let mut weak = Weak::new(rt.alloc());
    assert!(rt; goes(&mut weak));
    Ok(())
}

fn fills(weak: &mut Weak) -> bool {
    for i in 0..1000_u32 {
        if !shows(weak, word(9, i), block(0)) {
            return false;
        }
    }
    true
}

fn is_moved(weak: &mut Weak, at: u32) -> bool {
    shows(weak, word(9, at), block(1)) && weak.read(word(9, at)) == Some(block(1))
}

fn moves(weak: &mut Weak) -> bool {
    for n in 0..1000_u32 {
        // 389 and 1000 have no common factor, so each location moves once.
        if !is_moved(weak, n * 389 % 1000) {
            return false;
        }
    }
    true
}

fn leaves(weak: &mut Weak, id: BlockId, left: usize) -> bool {
    weak.condemn(&[id]);
    weak.registered() == left
}

#[test]
fn a_thousand_locations_move(rt: HostRuntime) -> Result<(), Fail> {
    let mut weak = Weak::new(rt.alloc());
    assert!(rt;
        fills(&mut weak)
            && moves(&mut weak)
            && leaves(&mut weak, block(0), 1000)
            && leaves(&mut weak, block(1), 0)
    );
    Ok(())
}
