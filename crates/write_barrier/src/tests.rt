//! Cards in their order, and the effects of each call in each phase.
use super::*;
use az_base::{BlockId, Mode, ThreadNo};
use std::test::*;

fn block(serial: u32) -> BlockId {
    let Some(thread) = ThreadNo::new(1) else {
        unreachable!()
    };
    BlockId { thread, serial }
}

fn has(cards: &Cards, serials: &[u32]) -> bool {
    let list = cards.list();
    list.len() == serials.len() && list.iter().zip(serials).all(|(b, n)| b.serial == *n)
}

fn remembers(cards: &mut Cards) -> bool {
    if cards.reserve(2).is_err() {
        return false;
    }
    cards.remember(block(1));
    cards.remember(block(0));
    has(cards, &[0, 1])
}

#[test]
fn two_blocks_in_their_order(rt: HostRuntime) -> Result<(), Fail> {
    let mut cards = Cards::new(rt.alloc());
    assert!(rt; remembers(&mut cards));
    Ok(())
}

// The block that is there again takes no room, and the one that goes gives it back.
fn forgets(cards: &mut Cards) -> bool {
    if cards.reserve(4).is_err() {
        return false;
    }
    cards.remember(block(5));
    cards.remember(block(2));
    cards.remember(block(9));
    cards.remember(block(5));
    cards.forget(block(5));
    cards.forget(block(7));
    has(cards, &[2, 9])
}

#[test]
fn one_of_three_blocks_is_forgotten(rt: HostRuntime) -> Result<(), Fail> {
    let mut cards = Cards::new(rt.alloc());
    assert!(rt; forgets(&mut cards));
    Ok(())
}

#[test]
fn many_at_once_stand_in_order_and_once(rt: HostRuntime) -> Result<(), Fail> {
    let ids = vec![in rt.alloc(); block(5), block(3), block(5), block(1)]?;
    let cards = Cards::from_vec(ids);
    assert!(rt; has(&cards, &[1, 3, 5]));
    assert!(rt; cards.into_vec().len() == 3);
    Ok(())
}

fn gives(effect: Effect, remember: bool, enliven: bool) -> bool {
    effect.remember == remember && effect.enliven == enliven
}

fn stores() -> bool {
    let full = Phase::Marking(Mode::Full);
    let young = Phase::Marking(Mode::Young);
    gives(on_store(Phase::Idle, false, false, false), false, false)
        && gives(on_store(Phase::Idle, true, false, false), true, false)
        && gives(on_store(Phase::Idle, true, true, false), false, false)
        && gives(on_store(full, false, true, false), false, true)
        && gives(on_store(young, true, false, false), true, true)
        && gives(on_store(Phase::Settling, false, false, true), true, false)
        && gives(on_store(Phase::Settling, true, true, false), false, false)
}

fn others(phase: Phase, enliven: bool) -> bool {
    gives(on_escape(phase), false, enliven)
        && gives(on_root(phase), false, enliven)
        && gives(on_weak_read(phase), false, enliven)
}

#[test]
fn each_call_has_its_effects(rt: HostRuntime) -> Result<(), Fail> {
    let phases = others(Phase::Idle, false)
        && others(Phase::Marking(Mode::Full), true)
        && others(Phase::Settling, false);
    assert!(rt; stores() && phases);
    Ok(())
}
