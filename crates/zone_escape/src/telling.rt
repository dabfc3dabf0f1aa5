//! The heap is told how often a thread holds its blocks.
ghost use Rattle.std.specs.Prelude.{◌≡◌, length};
ghost use Rattle.az_base.specs.Ids.{same_id, among};
ghost use Rattle.zone_model.specs.Holds.{is_block};
ghost use Rattle.zone_model.specs.State.{State};
ghost use Rattle.escape_plan.specs.Moving.{Told, CanTell};
ghost use Rattle.escape_plan.specs.Together.{Belongs, IsHeapOf};
ghost use Rattle.zone_escape.specs.Telling.{CanTellAll, moved_at, below, is_noted};

use az_base::{BlockId, Reg};
use local_set::Local;
use shared_heap::Heap;

/// Tells the heap how often the thread holds the block, if it is one of the heap's.
fn tell_block(local: &Local, heap: &mut Heap, id: BlockId)
    requires { CanTell local.now heap.old (same_id id) }
    ensures { Told local.now heap.old heap.new (same_id id) }
{
    let id = &id;
    if !heap.has(*id) {
        return;
    }
    let holds = local.holds_of(*id);
    let Ok(()) = heap.hold_count(local.thread(), *id, holds) else {
        unreachable!()
    };
}

/// Tells the heap how often the thread holds the block, where it is one and one of the heap's.
fn tell_held(local: &Local, heap: &mut Heap, held: Option<BlockId>)
    requires { CanTell local.now heap.old (λ q. is_block q held) }
    ensures { Told local.now heap.old heap.new (λ q. is_block q held) }
{
    match held {
        None => {}
        Some(id) => tell_block(local, heap, id),
    }
}

/// Tells the heap how often the thread holds the block that the register held when the thread's holds were last published,
/// and the one that it holds now; nothing, where these are one.
fn tell_register(local: &Local, heap: &mut Heap, reg: Reg)
    requires { CanTellAll local.now heap.old }
    ensures told { Told local.now heap.old heap.new (moved_at local.now reg) }
    ensures sixteen { length local.now.published ≡ 16 }
{
    let before = &local.published(reg);
    let now = &local.register(reg);
    if *before == *now {
        return;
    }
    tell_held(local, heap, *before);
    tell_held(local, heap, *now);
}

/// Tells the heap how often the thread holds the blocks that came into a register since then, or left it.
fn tell_registers(local: &Local, heap: &mut Heap)
    requires { CanTellAll local.now heap.old }
    ensures told { Told local.now heap.old heap.new (below (moved_at local.now) 16) }
    ensures sixteen { length local.now.published ≡ 16 }
{
    for n in 0..16 {
        let Some(reg) = Reg::new(n) else {
            unreachable!()
        };
        tell_register(local, heap, reg);
    }
}

/// Tells the heap how often the thread holds each of these blocks that is one of the heap's.
fn tell_blocks(local: &Local, heap: &mut Heap, ids: &[BlockId])
    requires { CanTell local.now heap.old (among ids.now) }
    ensures { Told local.now heap.old heap.new (among ids.now) }
{
    for id in ids {
        tell_block(local, heap, *id);
    }
}

/// Tells the heap how often the thread holds each of the heap's blocks of which the number may have changed since its holds
/// were last published. O(what changed) expected; it takes no memory.
pub(crate) fn tell(local: &Local, heap: &mut Heap)
    requires { (z : State) × Belongs local.now z × IsHeapOf heap.old z }
    ensures { Told local.now heap.old heap.new (is_noted local.now) }
{
    tell_registers(local, heap);
    tell_blocks(local, heap, local.changed());
}
