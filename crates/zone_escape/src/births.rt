//! New blocks that aren't their thread's own: one with a finaliser, or one too many for the option local.
ghost use Rattle.std.specs.Prelude.{◌≡◌, IfOk, OnErr};
ghost use Rattle.zone_model.specs.declared.call.Call.TheVariants as call;
ghost use Rattle.escape_plan.specs.Escapes.{KeepsCycle};
ghost use Rattle.zone_escape.specs.Making.{CanMake, Makes, Stays};

use crate::receiving::receive;
use az_base::{NoMemory, Reg};
use block_layouts::Layout;
use local_set::Local;
use shared_heap::Heap;
use std::alloc::Global;
use zone_model::{ActionList, Reply};

/// The call `new` of a block that is born escaped: the register gets the new block. NoWord, WrongClass, SerialsUsed or
/// ZoneFull, after which nothing has changed. O(words + actions) expected, and O(threads that hold the block that the
/// register held).
pub fn make_block(
    alloc: Global,
    local: &mut Local,
    heap: &mut Heap,
    to: Reg,
    layout: &Layout,
    actions: &ActionList,
) -> Result<Reply, NoMemory>
    requires { CanMake local.old heap.old (call.New to layout.now actions.now) }
    ensures ok { IfOk result (λ reply. Makes local.old local.new heap.old heap.new (call.New to layout.now actions.now) reply) }
    ensures err { OnErr result (Stays local.old local.new heap.old heap.new) }
    ensures cycle { KeepsCycle heap.old heap.new }
{
    let id = &local.next_id();
    let reply = heap.new_shared(alloc, local.thread(), *id, layout, actions)?;
    let Reply::Block(_) = reply else {
        return Ok(reply);
    };
    local.use_serial();
    receive(local, heap, to, &reply);
    Ok(reply)
}
