//! What others are to see.
ghost use Rattle.std.specs.Prelude.{◌≡◌, [], None, false, IfOk, OnErr};
ghost use Rattle.std.specs.Option.{option_map_or};
ghost use Rattle.zone_model.specs.Part.{is_in};
ghost use Rattle.local_set.specs.LocalSets.{part_in};
ghost use Rattle.escape_plan.specs.Escapes.{Escapes, KeepsCycle, KeepsRest};
ghost use Rattle.escape_plan.specs.Together.{AreTogether, StayTogether};

use az_base::{BlockId, NoMemory};
use escape_plan::escape;
use local_set::Local;
use shared_heap::Heap;
use std::alloc::Global;

/// Whether it is an unescaped block of the thread. O(1) expected.
pub fn is_own(local: &Local, value: Option<BlockId>) -> bool
    ensures { result ≡ option_map_or (is_in (part_in local.now)) value false }
{
    match value {
        Some(id) => local.is_own(id),
        None => false,
    }
}

/// What the value leads to escapes, where it fits into the zone; whether it did. Null, and a block that has escaped, may be
/// seen as they are. NoMemory leaves all as it was. O(words of the blocks that fit) expected, and the order of these blocks;
/// O(1) expected where nothing escapes.
pub fn expose(
    alloc: Global,
    local: &mut Local,
    heap: &mut Heap,
    value: Option<BlockId>,
) -> Result<bool, NoMemory>
    requires together { AreTogether local.old heap.old }
    requires out { local.old.waiting ≡ [] }
    ensures ok { IfOk result (λ fit. Escapes local.old local.new heap.old heap.new None value fit) }
    ensures rest { KeepsRest local.old local.new }
    ensures cycle { KeepsCycle heap.old heap.new }
    ensures err { OnErr result (StayTogether local.old local.new heap.old heap.new) }
{
    let value = &value;
    if !is_own(local, *value) {
        return Ok(true);
    }
    escape(alloc, local, heap, None, *value)
}
