ghost use Rattle.std.specs.Prelude.{◌≡◌, [], None, Some, IfSome, IsSome, IsTrue, ◌↔◌};
ghost use Rattle.std.specs.FinMap.{get};
ghost use Rattle.shared_heap.specs.Weak.{IsPlaced};

use az_base::{BlockId, Key, NoMemory, Options, RootNo, ThreadNo, WeakLoc};
use block_layouts::Layout;
use shared_heap::Heap;
use std::alloc::Global;
use std::test::*;
use zone_model::{ActionList, Reply};

/// Whether null, or a block of the heap.
fn is_known(heap: &Heap, id: &Option<BlockId>) -> bool
    ensures { IsTrue result ↔ IfSome id.now (λ b. IsSome (get heap.now.blocks b)) }
{
    match id {
        Some(id) => heap.has(*id),
        None => true,
    }
}

/// Whether a weak root, or at a place of a block of the heap.
fn is_placed(heap: &Heap, loc: WeakLoc) -> bool
    ensures { IsTrue result → IsPlaced heap.now loc }
{
    match loc {
        WeakLoc::Root(_) => true,
        WeakLoc::Word(id, _) => heap.has(id),
    }
}

/// Whether the reply is this block, or null.
fn is_block(reply: Result<Reply, NoMemory>, id: &Option<BlockId>) -> bool {
    match &reply {
        Ok(Reply::Block(found)) => *found == *id,
        _ => false,
    }
}

/// Whether the reply is this number.
fn is_number(reply: Result<Reply, NoMemory>, number: u64) -> bool {
    match &reply {
        Ok(Reply::Number(found)) => *found == number,
        _ => false,
    }
}

/// Whether the reply is Done.
fn is_done(reply: Result<Reply, NoMemory>) -> bool {
    matches!(reply, Ok(Reply::Done))
}

/// A block of a Strong, a Plain and a Weak word is born in the heap.
fn is_born(alloc: Global, heap: &mut Heap, t: ThreadNo, id: &BlockId) -> bool {
    let Ok(layout) = Layout::parse(alloc, "SPW") else {
        return false;
    };
    heap.unreserve();
    !heap.has(*id)
        && is_block(
            heap.new_shared(alloc, t, Some(*id), &layout, &ActionList::new()),
            &Some(*id),
        )
}

/// The block is stored in its own Strong word, and loaded.
fn is_stored(heap: &mut Heap, t: ThreadNo, id: &Option<BlockId>) -> bool {
    is_known(heap, id)
        && is_done(heap.store(t, *id, 0, *id))
        && is_known(heap, id)
        && is_block(heap.load(t, *id, 0), id)
}

/// A number is put into the Plain word, and got.
fn is_put(heap: &mut Heap, t: ThreadNo, id: &Option<BlockId>) -> bool {
    is_known(heap, id)
        && is_done(Ok(heap.put(t, *id, 1, 7)))
        && is_known(heap, id)
        && is_number(Ok(heap.get(t, *id, 1)), 7)
}

/// The root holds the block.
fn is_rooted(heap: &mut Heap, t: ThreadNo, root: RootNo, id: &Option<BlockId>) -> bool {
    is_known(heap, id)
        && is_done(Ok(heap.set_root(t, root, *id)))
        && is_block(heap.get_root(t, root), id)
}

/// The count of the block rises to 1, and it is taken by its id.
fn is_retained(heap: &mut Heap, t: ThreadNo, id: &BlockId) -> bool {
    let known = Some(*id);
    is_known(heap, &known)
        && is_number(heap.retain(t, known), 1)
        && is_block(heap.take_held(t, *id), &known)
}

/// The block becomes its own value under the key.
fn is_associated(heap: &mut Heap, t: ThreadNo, id: &Option<BlockId>, key: Key) -> bool {
    is_known(heap, id)
        && is_block(heap.set_assoc(t, *id, key, *id), &None)
        && is_block(heap.get_assoc(t, *id, key), id)
}

/// The location shows the block.
fn is_shown(heap: &mut Heap, t: ThreadNo, loc: &WeakLoc, id: &Option<BlockId>) -> bool {
    is_placed(heap, *loc)
        && is_known(heap, id)
        && is_block(heap.assign_weak(t, *loc, *id), id)
        && is_placed(heap, *loc)
        && is_block(heap.read_weak(t, *loc), id)
}

/// Room is taken for the calls to come and for an escape.
fn is_ready(heap: &mut Heap, alloc: Global, t: ThreadNo, id: &Option<BlockId>) -> bool {
    heap.unreserve();
    heap.ready(t, *id, *id).is_ok() && heap.reserve_admit(alloc, &[1, 2]).is_ok()
}

/// The thread holds the block three times.
fn is_held(heap: &mut Heap, t: ThreadNo, id: &BlockId) -> bool {
    heap.has(*id) && heap.hold_count(t, *id, 3).is_ok()
}

/// Each call answers what was written before.
fn works(alloc: Global, heap: &mut Heap, t: ThreadNo, id: &BlockId) -> bool {
    let known = &Some(*id);
    is_born(alloc, heap, t, id)
        && is_stored(heap, t, known)
        && is_put(heap, t, known)
        && is_rooted(heap, t, RootNo(255), known)
        && is_ready(heap, alloc, t, known)
        && is_retained(heap, t, id)
        && is_associated(heap, t, known, Key(2))
        && is_shown(heap, t, &WeakLoc::Word(*id, 2), known)
        && is_held(heap, t, id)
}

#[test]
fn each_call_finds_its_memory(rt: HostRuntime) -> Result<(), Fail> {
    let t = ThreadNo::new(16).expect(&rt, "a thread");
    let id = &BlockId {
        thread: t,
        serial: 0,
    };
    let mut heap = Heap::new(rt.alloc(), Options::usual()).expect(&rt, "memory");
    let worked = works(rt.alloc(), &mut heap, t, id);
    assert!(rt; worked);
    Ok(())
}
