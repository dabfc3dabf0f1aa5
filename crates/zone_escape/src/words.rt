//! The calls on words of escaped blocks.
ghost use Rattle.std.specs.Prelude.{◌≡◌, false, IfOk, OnErr};
ghost use Rattle.std.specs.Option.{option_map_or};
ghost use Rattle.zone_model.specs.Part.{is_in};
ghost use Rattle.local_set.specs.LocalSets.{part_in};
ghost use Rattle.zone_model.specs.declared.call.Call.TheVariants as call;
ghost use Rattle.escape_plan.specs.Escapes.{KeepsCycle};
ghost use Rattle.zone_escape.specs.Making.{CanMake, Makes, Stays};

use crate::exposing::{expose, is_own};
use crate::receiving::receive;
use az_base::{Class, Misuse, NoMemory, Reg};
use local_set::Local;
use shared_heap::Heap;
use std::alloc::Global;
use zone_model::Reply;

/// The call `load`: the register gets what a Strong word of the block holds, or NoWord or WrongClass, after which nothing has
/// changed, as after NoMemory. O(1) expected, and O(threads that hold the blocks that the register gets and held).
pub fn load(
    local: &mut Local,
    heap: &mut Heap,
    to: Reg,
    from: Reg,
    at: u32,
) -> Result<Reply, NoMemory>
    requires { CanMake local.old heap.old (call.Load to from at) }
    ensures ok { IfOk result (λ reply. Makes local.old local.new heap.old heap.new (call.Load to from at) reply) }
    ensures err { OnErr result (Stays local.old local.new heap.old heap.new) }
    ensures cycle { KeepsCycle heap.old heap.new }
{
    let holder = local.register(from);
    let reply = heap.load(local.thread(), holder, at)?;
    receive(local, heap, to, &reply);
    Ok(reply)
}

/// The call `store`: a Strong word of the block gets what the register holds, which escapes with all that it leads to. NoWord,
/// WrongClass, ZoneFull or NoMemory, after which nothing has changed. O(1) expected, and O(words of the blocks that escape)
/// expected.
pub fn store(
    alloc: Global,
    local: &mut Local,
    heap: &mut Heap,
    into: Reg,
    at: u32,
    from: Reg,
) -> Result<Reply, NoMemory>
    requires { CanMake local.old heap.old (call.Store into at from) }
    ensures ok { IfOk result (λ reply. Makes local.old local.new heap.old heap.new (call.Store into at from) reply) }
    ensures err { OnErr result (Stays local.old local.new heap.old heap.new) }
    ensures cycle { KeepsCycle heap.old heap.new }
{
    if is_own(local, local.register(from)) {
        store_own(alloc, local, heap, into, at, from)
    } else {
        Ok(store_seen(local, heap, into, at, from))
    }
}

/// A store of null or of a block that has escaped: nothing escapes, and the heap finds what is wrong.
fn store_seen(local: &Local, heap: &mut Heap, into: Reg, at: u32, from: Reg) -> Reply
    requires can { CanMake local.now heap.old (call.Store into at from) }
    requires seen { option_map_or (is_in (part_in local.now)) ((part_in local.now).registers from) false ≡ false }
    ensures makes { Makes local.now local.now heap.old heap.new (call.Store into at from) result }
    ensures cycle { KeepsCycle heap.old heap.new }
{
    let holder = local.register(into);
    let value = local.register(from);
    let Ok(reply) = heap.store(local.thread(), holder, at, value) else {
        unreachable!()
    };
    reply
}

/// A store of a block of the thread's own, which escapes with all that it leads to once nothing is wrong.
fn store_own(
    alloc: Global,
    local: &mut Local,
    heap: &mut Heap,
    into: Reg,
    at: u32,
    from: Reg,
) -> Result<Reply, NoMemory>
    requires { CanMake local.old heap.old (call.Store into at from) }
    ensures ok { IfOk result (λ reply. Makes local.old local.new heap.old heap.new (call.Store into at from) reply) }
    ensures err { OnErr result (Stays local.old local.new heap.old heap.new) }
    ensures cycle { KeepsCycle heap.old heap.new }
{
    let holder = &local.register(into);
    if let Some(misuse) = heap.word_misuse(*holder, at, Class::Strong) {
        return Ok(Reply::Misuse(misuse));
    }
    let value = &local.register(from);
    if !expose(alloc, local, heap, *value)? {
        return Ok(Reply::Misuse(Misuse::ZoneFull));
    }
    let Ok(reply) = heap.store(local.thread(), *holder, at, *value) else {
        unreachable!()
    };
    Ok(reply)
}

/// The call `put`: a Plain word of the block gets a number, or NoWord or WrongClass, after which nothing has changed. O(1)
/// expected.
pub fn put(local: &Local, heap: &mut Heap, into: Reg, at: u32, number: u64) -> Reply
    requires { CanMake local.now heap.old (call.Put into at number) }
    ensures makes { Makes local.now local.now heap.old heap.new (call.Put into at number) result }
    ensures cycle { KeepsCycle heap.old heap.new }
{
    let holder = local.register(into);
    heap.put(local.thread(), holder, at, number)
}

/// The call `get`: the number in a Plain word of the block, or NoWord or WrongClass. O(1) expected.
pub fn get(local: &Local, heap: &Heap, from: Reg, at: u32) -> Reply
    requires { CanMake local.now heap.now (call.Get from at) }
    ensures { Makes local.now local.now heap.now heap.now (call.Get from at) result }
{
    let holder = local.register(from);
    heap.get(local.thread(), holder, at)
}
