//! The calls on associations.
ghost use Rattle.std.specs.Prelude.{◌≡◌, IfOk, OnErr};
ghost use Rattle.zone_model.specs.declared.call.Call.TheVariants as call;
ghost use Rattle.escape_plan.specs.Escapes.{KeepsCycle};
ghost use Rattle.zone_escape.specs.Making.{CanMake, Makes, Stays};

use crate::receiving::receive;
use az_base::{Key, Misuse, NoMemory, Reg};
use escape_plan::escape;
use local_set::Local;
use shared_heap::Heap;
use std::alloc::Global;
use zone_model::Reply;

/// The call `setassoc`: the object's value under the key becomes what the register `value` holds, or goes where that is
/// null; the reply is what it was before. Object and value escape with all that they lead to. NullBlock or ZoneFull, after
/// which nothing has changed. O(values of the object), and O(words of the blocks that escape) expected.
pub fn set_assoc(
    alloc: Global,
    local: &mut Local,
    heap: &mut Heap,
    object: Reg,
    key: Key,
    value: Reg,
) -> Result<Reply, NoMemory>
    requires { CanMake local.old heap.old (call.SetAssoc object key value) }
    ensures ok { IfOk result (λ reply. Makes local.old local.new heap.old heap.new (call.SetAssoc object key value) reply) }
    ensures err { OnErr result (Stays local.old local.new heap.old heap.new) }
    ensures cycle { KeepsCycle heap.old heap.new }
{
    let Some(id) = local.register(object) else {
        return Ok(Reply::Misuse(Misuse::NullBlock));
    };
    let id = &id;
    let new = &local.register(value);
    if !escape(alloc, local, heap, Some(*id), *new)? {
        return Ok(Reply::Misuse(Misuse::ZoneFull));
    }
    let Ok(reply) = heap.set_assoc(local.thread(), Some(*id), key, *new) else {
        unreachable!()
    };
    Ok(reply)
}

/// The call `getassoc`: the register gets the object's value under the key, or the reply is NullBlock. NoMemory leaves all
/// as it was. O(log values of the object), and O(threads that hold the blocks that the register gets and held).
pub fn get_assoc(
    local: &mut Local,
    heap: &mut Heap,
    to: Reg,
    object: Reg,
    key: Key,
) -> Result<Reply, NoMemory>
    requires { CanMake local.old heap.old (call.GetAssoc to object key) }
    ensures ok { IfOk result (λ reply. Makes local.old local.new heap.old heap.new (call.GetAssoc to object key) reply) }
    ensures err { OnErr result (Stays local.old local.new heap.old heap.new) }
    ensures cycle { KeepsCycle heap.old heap.new }
{
    let id = local.register(object);
    let reply = heap.get_assoc(local.thread(), id, key)?;
    receive(local, heap, to, &reply);
    Ok(reply)
}
