//! The associations.
ghost use Rattle.std.specs.Prelude.{◌≡◌, ◌+◌, ℕ, IfOk, IfSome, IsOk, IsSome, OnErr, OnOk, None, Some, ◌==◌, ◌&&◌, if◌then◌else◌};
ghost use Rattle.std.specs.FinMap.{get};
ghost use Rattle.az_base.specs.declared.block_id.BlockId.{BlockId};
ghost use Rattle.zone_model.specs.declared.call.Call.TheVariants as call;
ghost use Rattle.zone_model.specs.State.{State};
ghost use Rattle.shared_heap.specs.Cycles.{AfterBarrier};
ghost use Rattle.heap_cycle.specs.Livening.{of_option};
ghost use Rattle.shared_heap.specs.Assocs.{assoc_reply, associated};
ghost use Rattle.shared_heap.specs.Shared.{held, with_gc};
ghost use Rattle.shared_heap.specs.Stands.{EscapedClosed};
ghost use Rattle.shared_heap.specs.Holding.{HoldsMore};
ghost use Rattle.shared_heap.specs.Steps.{Runs, Stepped, after_read, names};

use crate::heap::Heap;
use assoc_refs::Assocs;
use az_base::{BlockId, Key, Misuse, NoMemory, ThreadNo};
use heap_cycle::tell_store;
use zone_model::Reply;

impl Heap {
    /// The object's value under the key becomes this block, or goes where it is null: the reply is the value before, or
    /// NullBlock. It goes to no register, so nobody holds it for that. The room that was ready for an association is
    /// used up, even where this call is for another object. While a cycle marks, the value is enlivened; the object is
    /// remembered where it is old and the value young, or where the value is condemned. O(values of the object), and
    /// O(cards) where the object is remembered.
    pub fn set_assoc(
        &mut self,
        t: ThreadNo,
        object: Option<BlockId>,
        key: Key,
        value: Option<BlockId>,
    ) -> Result<Reply, NoMemory>
        requires given { IfSome object (λ b. IsSome (get self.old.blocks b)) }
        requires escaped { IfSome value (λ b. IsSome (get self.old.blocks b)) }
        ensures sure { IfSome object (λ b. self.old.ready.object ≡ Some b) → IsOk result }
        ensures taken { value ≡ None → IsOk result }
        ensures reply { IfOk result (λ r. r ≡ assoc_reply self.old object key.0) }
        ensures value { IfOk result (λ r. self.new ≡ with_gc (associated self.old object key.0 value) self.new.gc) }
        ensures gc { IfOk result (λ r. AfterBarrier self.old.gc self.new.gc r (of_option value) (of_option object)) }
        ensures step { IfOk result (λ r. (z : State) (reg from : ℕ) → Runs self.old z t → EscapedClosed z → z.registers t reg ≡ object → z.registers t from ≡ value → Stepped self.new z t (call.SetAssoc reg key from) r) }
        ensures err { OnErr result (self.new ≡ self.old) }
    {
        let Some(object) = object else {
            return Ok(Reply::Misuse(Misuse::NullBlock));
        };
        reserve_value(&mut self.tables.assocs, object, &value)?;
        self.tables.are_tables();
        tell_store(&mut self.tables, &mut self.open_cycle, object, value, 0);
        let Ok(before) = self.tables.assocs.set(object, key, value) else {
            unreachable!()
        };
        Ok(Reply::Block(before))
    }

    /// Reads the object's value under the key into a register of the thread: the thread holds what it gets once more.
    /// NoMemory too where it holds that 4,294,967,295 times. The object need not be a block of the heap. O(log values of
    /// the object), and O(threads that hold the block).
    pub fn get_assoc(
        &mut self,
        t: ThreadNo,
        object: Option<BlockId>,
        key: Key,
    ) -> Result<Reply, NoMemory>
        ensures reply { IfOk result (λ r. r ≡ assoc_reply self.old object key.0) }
        ensures value { IfOk result (λ r. self.new ≡ after_read self.old t r) }
        ensures held { IfOk result (λ r. HoldsMore self.old self.new t r) }
        ensures step { IfOk result (λ r. (z : State) (to reg : ℕ) → Runs self.old z t → z.registers t reg ≡ object → Stepped self.new z t (call.GetAssoc to reg key) r) }
        ensures err { OnErr result (self.new ≡ self.old) }
    {
        let Some(object) = object else {
            return Ok(Reply::Misuse(Misuse::NullBlock));
        };
        let value = self.tables.assocs.get(object, key);
        self.hold_more(t, &value)?;
        Ok(Reply::Block(value))
    }
}

/// Room for the value, if there is one, so that it comes in without memory.
fn reserve_value(
    assocs: &mut Assocs,
    object: BlockId,
    value: &Option<BlockId>,
) -> Result<(), NoMemory>
    ensures pairs { assocs.new.pairs ≡ assocs.old.pairs }
    ensures ready { OnOk result (IfSome value.now (λ b. assocs.new.ready ≡ Some object)) }
    ensures sure { assocs.old.ready ≡ Some object → IsOk result }
    ensures taken { value.now ≡ None → IsOk result }
    ensures err { OnErr result (assocs.new ≡ assocs.old) }
{
    match value {
        Some(_) => assocs.reserve_one(object),
        None => Ok(()),
    }
}
