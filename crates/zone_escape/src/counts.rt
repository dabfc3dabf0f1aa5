//! The calls on retain counts. What is counted has escaped, so an unescaped block has count 0.
ghost use Rattle.std.specs.Prelude.{◌≡◌, true, false, IfOk, OnErr};
ghost use Rattle.std.specs.Option.{option_map_or};
ghost use Rattle.zone_model.specs.declared.call.Call.TheVariants as call;
ghost use Rattle.zone_model.specs.Part.{is_in};
ghost use Rattle.local_set.specs.LocalSets.{part_in};
ghost use Rattle.escape_plan.specs.Escapes.{KeepsCycle};
ghost use Rattle.zone_escape.specs.Making.{CanMake, Makes, Stays};

use crate::exposing::is_own;
use crate::receiving::receive;
use az_base::{BlockId, Misuse, NoMemory, Reg};
use escape_plan::escape;
use local_set::Local;
use shared_heap::Heap;
use std::alloc::Global;
use zone_model::Reply;

/// The call `retain`: the count of the block rises by one, or NullBlock, or CountFull at the option `counts`. An unescaped
/// block escapes with all that it leads to, or ZoneFull. After a misuse and after NoMemory nothing has changed. O(1)
/// expected, O(words of the blocks that escape) expected, and O(counted blocks) where their table grows.
pub fn retain(
    alloc: Global,
    local: &mut Local,
    heap: &mut Heap,
    reg: Reg,
) -> Result<Reply, NoMemory>
    requires { CanMake local.old heap.old (call.Retain reg) }
    ensures ok { IfOk result (λ reply. Makes local.old local.new heap.old heap.new (call.Retain reg) reply) }
    ensures err { OnErr result (Stays local.old local.new heap.old heap.new) }
    ensures cycle { KeepsCycle heap.old heap.new }
{
    let value = &local.register(reg);
    if is_own(local, *value) {
        return retain_own(alloc, local, heap, reg);
    }
    let reply = heap.retain(local.thread(), *value)?;
    Ok(reply)
}

/// Retains an unescaped block, which has count 0: CountFull where no count may be positive; else it escapes first, or ZoneFull.
fn retain_own(
    alloc: Global,
    local: &mut Local,
    heap: &mut Heap,
    reg: Reg,
) -> Result<Reply, NoMemory>
    requires can { CanMake local.old heap.old (call.Retain reg) }
    requires own { option_map_or (is_in (part_in local.old)) ((part_in local.old).registers reg) false ≡ true }
    ensures ok { IfOk result (λ reply. Makes local.old local.new heap.old heap.new (call.Retain reg) reply) }
    ensures err { OnErr result (Stays local.old local.new heap.old heap.new) }
    ensures cycle { KeepsCycle heap.old heap.new }
{
    if heap.options().counts == 0 {
        return Ok(Reply::Misuse(Misuse::CountFull));
    }
    let value = &local.register(reg);
    if !escape(alloc, local, heap, None, *value)? {
        return Ok(Reply::Misuse(Misuse::ZoneFull));
    }
    let Ok(reply) = heap.retain(local.thread(), *value) else {
        unreachable!()
    };
    Ok(reply)
}

/// The call `release`: the count of the block falls by one, or NullBlock, or OverRelease at 0, after which nothing has
/// changed. O(1) expected.
pub fn release(local: &Local, heap: &mut Heap, reg: Reg) -> Reply
    requires { CanMake local.now heap.old (call.Release reg) }
    ensures makes { Makes local.now local.now heap.old heap.new (call.Release reg) result }
    ensures cycle { KeepsCycle heap.old heap.new }
{
    let value = &local.register(reg);
    if is_own(local, *value) {
        return Reply::Misuse(Misuse::OverRelease);
    }
    heap.release(local.thread(), *value)
}

/// The call `count`: the count of the block, or NullBlock. O(1) expected.
pub fn count(local: &Local, heap: &Heap, reg: Reg) -> Reply
    requires { CanMake local.now heap.now (call.Count reg) }
    ensures { Makes local.now local.now heap.now heap.now (call.Count reg) result }
{
    let value = &local.register(reg);
    if is_own(local, *value) {
        return Reply::Number(0);
    }
    heap.count(local.thread(), *value)
}

/// The call `take`: the register gets the block of this id, or NotHeld where that has no positive count, after which nothing
/// has changed, as after NoMemory. O(1) expected, and O(threads that hold the blocks that the register gets and held).
pub fn take(local: &mut Local, heap: &mut Heap, to: Reg, id: BlockId) -> Result<Reply, NoMemory>
    requires { CanMake local.old heap.old (call.Take to id) }
    ensures ok { IfOk result (λ reply. Makes local.old local.new heap.old heap.new (call.Take to id) reply) }
    ensures err { OnErr result (Stays local.old local.new heap.old heap.new) }
    ensures cycle { KeepsCycle heap.old heap.new }
{
    let reply = heap.take_held(local.thread(), id)?;
    receive(local, heap, to, &reply);
    Ok(reply)
}
