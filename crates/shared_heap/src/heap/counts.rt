//! The external retain counts.
ghost use Rattle.std.specs.Prelude.{◌≡◌, ◌<◌, ◌≤◌, ◌+◌, ◌-◌, ◌⊎◌, ℕ, Some, IsOk, IfOk, IfSome, IsSome, OnErr, ◌==◌, ◌&&◌, if◌then◌else◌};
ghost use Rattle.std.specs.FinMap.{get};
ghost use Rattle.az_base.specs.declared.block_id.BlockId.{BlockId};
ghost use Rattle.zone_model.specs.declared.call.Call.TheVariants as call;
ghost use Rattle.zone_model.specs.declared.entry.Reply.TheVariants as reply;
ghost use Rattle.zone_model.specs.State.{State};
ghost use Rattle.block_table.specs.Table.{used_by};
ghost use Rattle.shared_heap.specs.Shared.{held};
ghost use Rattle.shared_heap.specs.Stands.{EscapedClosed};
ghost use Rattle.shared_heap.specs.Holding.{HoldsMore};
ghost use Rattle.shared_heap.specs.Steps.{Runs, Stepped, after_read, names};
ghost use Rattle.shared_heap.specs.Retained.{count_at, retain_misuse, release_misuse, count_misuse, take_misuse, after_retain, after_release};
ghost use Rattle.shared_heap.specs.Words.{reply_or};

use crate::heap::Heap;
use az_base::{BlockId, Misuse, NoMemory, ThreadNo};
use retain_table::Raise;
use zone_model::Reply;

impl Heap {
    /// The count of the block rises by one: the new count, or NullBlock, or CountFull at the option `counts`. NoMemory
    /// only for a block without a count, where `ready` took no room. O(1), and O(counted blocks) where the table grows.
    pub fn retain(&mut self, t: ThreadNo, id: Option<BlockId>) -> Result<Reply, NoMemory>
        requires given { IfSome id (λ b. IsSome (get self.old.blocks b)) }
        ensures reply { IfOk result (λ r. r ≡ reply_or (retain_misuse self.old id) (reply.Number (count_at self.old id + 1))) }
        ensures value { IfOk result (λ r. self.new ≡ after_retain self.old id self.new.ready.counts r) }
        ensures ready { self.old.ready.counts ≤ self.new.ready.counts + 1 }
        ensures step { IfOk result (λ r. (z : State) (reg : ℕ) → Runs self.old z t → EscapedClosed z → z.registers t reg ≡ id → Stepped self.new z t (call.Retain reg) r) }
        ensures err { OnErr result (self.new ≡ self.old) }
        ensures sure { (0 < self.old.ready.counts) ⊎ ((0 < count_at self.old id) ⊎ IsSome (retain_misuse self.old id)) → IsOk result }
    {
        self.raise_count(id)
    }

    /// The count of the block falls by one: the new count, or NullBlock, or OverRelease at 0. O(1).
    pub fn release(&mut self, t: ThreadNo, id: Option<BlockId>) -> Reply
        requires given { IfSome id (λ b. IsSome (get self.old.blocks b)) }
        ensures reply { result ≡ reply_or (release_misuse self.old id) (reply.Number (count_at self.old id - 1)) }
        ensures value { self.new ≡ after_release self.old id result }
        ensures step { (z : State) (reg : ℕ) → Runs self.old z t → z.registers t reg ≡ id → Stepped self.new z t (call.Release reg) result }
    {
        self.lower_count(id)
    }

    /// The count of the block, or NullBlock. O(1).
    pub fn count(&self, t: ThreadNo, id: Option<BlockId>) -> Reply
        requires given { IfSome id (λ b. IsSome (get self.now.blocks b)) }
        ensures reply { result ≡ reply_or (count_misuse id) (reply.Number (count_at self.now id)) }
        ensures step { (z : State) (reg : ℕ) → Runs self.now z t → z.registers t reg ≡ id → Stepped self.now z t (call.Count reg) result }
    {
        match id {
            Some(id) => Reply::Number(u64::from(self.tables.counts.count(id))),
            None => Reply::Misuse(Misuse::NullBlock),
        }
    }

    /// Takes a block by its id, which needn't be one of the heap's, into a register of the thread: the thread holds it
    /// once more, or NotHeld where it has no positive count. NoMemory too where the thread holds it 4,294,967,295 times.
    /// O(1) expected, and O(threads that hold the block).
    pub fn take_held(&mut self, t: ThreadNo, id: BlockId) -> Result<Reply, NoMemory>
        ensures reply { IfOk result (λ r. r ≡ reply_or (take_misuse self.old id) (reply.Block (Some id))) }
        ensures value { IfOk result (λ r. self.new ≡ after_read self.old t r) }
        ensures held { IfOk result (λ r. HoldsMore self.old self.new t r) }
        ensures step { IfOk result (λ r. (z : State) (to : ℕ) → Runs self.old z t → Stepped self.new z t (call.Take to id) r) }
        ensures err { OnErr result (self.new ≡ self.old) }
    {
        let id = &id;
        if self.tables.counts.count(*id) == 0 {
            return Ok(Reply::Misuse(Misuse::NotHeld));
        }
        let value = Some(*id);
        self.hold_more(t, &value)?;
        Ok(Reply::Block(value))
    }
    /// The reply of a `retain`, and the count afterwards.
    fn raise_count(&mut self, id: Option<BlockId>) -> Result<Reply, NoMemory>
        ensures reply { IfOk result (λ r. r ≡ reply_or (retain_misuse self.old id) (reply.Number (count_at self.old id + 1))) }
        ensures value { IfOk result (λ r. self.new ≡ after_retain self.old id self.new.ready.counts r) }
        ensures ready { self.old.ready.counts ≤ self.new.ready.counts + 1 }
        ensures err { OnErr result (self.new ≡ self.old) }
        ensures sure { (0 < self.old.ready.counts) ⊎ ((0 < count_at self.old id) ⊎ IsSome (retain_misuse self.old id)) → IsOk result }
        ensures fits { used_by self.old.blocks ≤ self.old.options.heap_quanta }
    {
        let limit = self.options.counts;
        let Some(id) = id else {
            return Ok(Reply::Misuse(Misuse::NullBlock));
        };
        match self.tables.counts.raise(id, limit) {
            Ok(count) => Ok(Reply::Number(u64::from(count))),
            Err(Raise::CountFull) => Ok(Reply::Misuse(Misuse::CountFull)),
            Err(Raise::NoMemory) => Err(NoMemory),
        }
    }

    /// The reply of a `release`, and the count afterwards.
    fn lower_count(&mut self, id: Option<BlockId>) -> Reply
        ensures reply { result ≡ reply_or (release_misuse self.old id) (reply.Number (count_at self.old id - 1)) }
        ensures value { self.new ≡ after_release self.old id result }
    {
        let Some(id) = id else {
            return Reply::Misuse(Misuse::NullBlock);
        };
        match self.tables.counts.lower(id) {
            Ok(count) => Reply::Number(u64::from(count)),
            Err(_) => Reply::Misuse(Misuse::OverRelease),
        }
    }
}
