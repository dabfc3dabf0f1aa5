//! The calls on roots.
ghost use Rattle.std.specs.Prelude.{◌≡◌, IfOk, OnErr};
ghost use Rattle.zone_model.specs.declared.call.Call.TheVariants as call;
ghost use Rattle.escape_plan.specs.Escapes.{KeepsCycle};
ghost use Rattle.zone_escape.specs.Making.{CanMake, Makes, Stays};

use crate::exposing::expose;
use crate::receiving::receive;
use az_base::{Misuse, NoMemory, Reg, RootNo};
use local_set::Local;
use shared_heap::Heap;
use std::alloc::Global;
use zone_model::Reply;

/// The call `getroot`: the register gets what the root holds. NoMemory leaves all as it was. O(1) expected, and O(threads
/// that hold the blocks that the register gets and held).
pub fn get_root(
    local: &mut Local,
    heap: &mut Heap,
    to: Reg,
    root: RootNo,
) -> Result<Reply, NoMemory>
    requires { CanMake local.old heap.old (call.GetRoot to root) }
    ensures ok { IfOk result (λ reply. Makes local.old local.new heap.old heap.new (call.GetRoot to root) reply) }
    ensures err { OnErr result (Stays local.old local.new heap.old heap.new) }
    ensures cycle { KeepsCycle heap.old heap.new }
{
    let reply = heap.get_root(local.thread(), root)?;
    receive(local, heap, to, &reply);
    Ok(reply)
}

/// The call `setroot`: the root gets what the register holds, which escapes with all that it leads to. ZoneFull or NoMemory,
/// after which nothing has changed. O(1) expected, and O(words of the blocks that escape) expected.
pub fn set_root(
    alloc: Global,
    local: &mut Local,
    heap: &mut Heap,
    root: RootNo,
    from: Reg,
) -> Result<Reply, NoMemory>
    requires { CanMake local.old heap.old (call.SetRoot root from) }
    ensures ok { IfOk result (λ reply. Makes local.old local.new heap.old heap.new (call.SetRoot root from) reply) }
    ensures err { OnErr result (Stays local.old local.new heap.old heap.new) }
    ensures cycle { KeepsCycle heap.old heap.new }
{
    let value = &local.register(from);
    if !expose(alloc, local, heap, *value)? {
        return Ok(Reply::Misuse(Misuse::ZoneFull));
    }
    Ok(heap.set_root(local.thread(), root, *value))
}
