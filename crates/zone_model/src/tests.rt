use super::*;
use az_base::{Action, BlockId, NoMemory, RootNo, ThreadNo};
use std::alloc::Global;
use std::test::*;

/// Whether a reply with a list of this id, twice, is copied with it.
fn is_copied(alloc: Global, id: BlockId) -> Result<bool, NoMemory> {
    let mut ids = IdList::with_room(alloc, 1)?;
    ids.push(id);
    let one = ids.len() == 1;
    let reply = Reply::Settled {
        reclaimed: ids.try_copy(alloc)?,
        kept: ids,
    };
    let Reply::Settled { reclaimed, kept } = reply.try_copy(alloc)? else {
        return Ok(false);
    };
    Ok(one && reclaimed.as_slice() == [id].as_slice() && kept.get(0) == Some(id))
}

#[test]
fn lists_and_copies(rt: HostRuntime) -> Result<(), Fail> {
    let thread = ThreadNo::new(1).expect(&rt, "a thread");
    let copied = is_copied(rt.alloc(), BlockId { thread, serial: 2 }).expect(&rt, "memory");
    let keep = Action::Keep(RootNo(3));
    let eight = ActionList::from_slice(&[keep; 8]).map(|list| list.len()) == Some(8);
    assert!(rt; copied && eight && ActionList::from_slice(&[keep; 9]).is_none());
    Ok(())
}
