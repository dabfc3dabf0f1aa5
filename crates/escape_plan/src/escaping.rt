//! Both stages of an escape, for the blocks of one call.
ghost use Rattle.std.specs.Prelude.{◌≡◌, [], OnOk, OnErr, IfOk};
ghost use Rattle.escape_plan.specs.Together.{AreTogether, StayTogether};
ghost use Rattle.escape_plan.specs.Planning.{Plans, firsts, lengths_of};
ghost use Rattle.escape_plan.specs.Escapes.{Escapes, HasRoom, KeepsCycle, KeepsRest};
ghost use Rattle.local_set.specs.LocalSets.{part_in};

use crate::committing::commit;
use crate::plan::EscapePlan;
use crate::preparing::{abandon, fits, prepare};
use az_base::{BlockId, NoMemory};
use local_set::Local;
use shared_heap::Heap;
use std::alloc::Global;

/// The plan for what the two blocks lead to, as far as they are there.
fn plan_both(
    alloc: Global,
    local: &Local,
    heap: &mut Heap,
    object: Option<BlockId>,
    value: Option<BlockId>,
) -> Result<EscapePlan, NoMemory>
    requires room { heap.old.room ≡ [] }
    ensures plan { IfOk result (Plans (part_in local.now) (firsts object value) heap.old) }
    ensures room { IfOk result (λ plan. heap.new ≡ record heap.old { room = lengths_of (part_in local.now).blocks plan.ids }) }
    ensures err { OnErr result (heap.new ≡ heap.old) }
{
    match (object, value) {
        (Some(object), Some(value)) => prepare(alloc, local, heap, &[object, value]),
        (Some(one), None) | (None, Some(one)) => prepare(alloc, local, heap, &[one]),
        (None, None) => prepare(alloc, local, heap, &[]),
    }
}

/// What the two blocks lead to escapes, where it fits into the zone; whether it did. Before it, room is taken for one call
/// of the heap that follows it: a `store`, `retain`, `set_assoc` or `assign_weak`, with this object and this value. Where
/// it is refused, nothing has escaped. O(words of the blocks that fit) expected, and the order of these blocks.
pub fn escape(
    alloc: Global,
    local: &mut Local,
    heap: &mut Heap,
    object: Option<BlockId>,
    value: Option<BlockId>,
) -> Result<bool, NoMemory>
    requires together { AreTogether local.old heap.old }
    requires out { local.old.waiting ≡ [] }
    ensures ok { IfOk result (λ fit. Escapes local.old local.new heap.old heap.new object value fit) }
    ensures rest { KeepsRest local.old local.new }
    ensures ready { OnOk result (HasRoom heap.new.ready object value) }
    ensures cycle { KeepsCycle heap.old heap.new }
    ensures err { OnErr result (StayTogether local.old local.new heap.old heap.new) }
{
    let (object, value) = (&object, &value);
    heap.ready(local.thread(), *object, *value)?;
    let plan = plan_both(alloc, local, heap, *object, *value)?;
    if !fits(&plan, heap) {
        abandon(plan, heap);
        return Ok(false);
    }
    commit(plan, local, heap);
    Ok(true)
}
