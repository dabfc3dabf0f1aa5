//! The first stage of an escape: what escapes is planned, and room is taken for it.
ghost use Rattle.std.specs.Prelude.{◌≡◌, ◌≤◌, ◌+◌, [], All, map, IfOk, OnErr, IsTrue, ◌↔◌};
ghost use Rattle.std.specs.List.Sorted.{IsPermutation, IsSorted};
ghost use Rattle.std.specs.Map.{keys_of, values_of};
ghost use Rattle.az_base.specs.Ids.{id_cmp};
ghost use Rattle.local_set.specs.LocalSets.{part_in};
ghost use Rattle.escape_plan.specs.Planning.{Plans, PlanFits, lengths_of};

use crate::plan::EscapePlan;
use crate::search::follow_all;
use az_base::{BlockId, NoMemory};
use local_set::Local;
use shared_heap::Heap;
use std::alloc::Global;

/// Ids, and lengths in the same order.
#[derive(Drop)]
struct Lengths {
    ids: Vec<BlockId>,
    lengths: Vec<u32>,
}

impl Lengths {
    /// Those of these blocks, in their order.
    fn of(alloc: Global, blocks: &[(BlockId, u32)]) -> Result<Lengths, NoMemory>
        ensures ids { IfOk result (λ l. l.ids.items ≡ keys_of blocks.now) }
        ensures lengths { IfOk result (λ l. l.lengths.items ≡ values_of blocks.now) }
    {
        let mut ids = Vec::new(alloc);
        let mut lengths = Vec::new(alloc);
        for block in blocks {
            let Ok(()) = ids.push(block.0) else {
                return Err(NoMemory);
            };
            let Ok(()) = lengths.push(block.1) else {
                return Err(NoMemory);
            };
        }
        Ok(Lengths { ids, lengths })
    }
}

/// Plans the escape of all unescaped blocks of the thread to which these blocks lead, and takes room in the heap for each.
/// Where they don't fit into what is left of the option heap, the plan has some of them that don't. Where it is refused,
/// nothing has changed. O(words of the blocks that fit) expected, and the order of the plan's blocks.
pub fn prepare(
    alloc: Global,
    local: &Local,
    heap: &mut Heap,
    ids: &[BlockId],
) -> Result<EscapePlan, NoMemory>
    requires room { heap.old.room ≡ [] }
    ensures plan { IfOk result (Plans (part_in local.now) ids.now heap.old) }
    ensures room { IfOk result (λ plan. heap.new ≡ record heap.old { room = lengths_of (part_in local.now).blocks plan.ids }) }
    ensures err { OnErr result (heap.new ≡ heap.old) }
{
    let room = heap.options().heap_quanta - heap.used();
    let mut search = follow_all(alloc, local, ids, u64::from(room))?;
    search.followed.sort_unstable();
    let planned = Lengths::of(alloc, &search.followed)?;
    heap.reserve_admit(alloc, &planned.lengths)?;
    Ok(EscapePlan::new(planned.ids, search.quanta))
}

/// Whether the quanta of the plan's blocks fit into what is left of the option heap. O(1).
pub fn fits(plan: &EscapePlan, heap: &Heap) -> bool
    ensures { IsTrue result ↔ PlanFits plan.now heap.now }
{
    plan.quanta() <= u64::from(heap.options().heap_quanta - heap.used())
}

/// The plan's blocks don't escape, and its room is given back.
pub fn abandon(_plan: EscapePlan, heap: &mut Heap)
    ensures { heap.new ≡ record heap.old { room = [] } }
{
    heap.unreserve();
}
