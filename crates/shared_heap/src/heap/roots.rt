//! The roots.
ghost use Rattle.std.specs.Prelude.{◌≡◌, ◌+◌, ℕ, IfOk, IfSome, IsSome, OnOk, OnErr, ◌==◌, ◌&&◌, if◌then◌else◌, get_or, None, []};
ghost use Rattle.std.specs.FinMap.{get};
ghost use Rattle.az_base.specs.declared.block_id.BlockId.{BlockId};
ghost use Rattle.zone_model.specs.declared.call.Call.TheVariants as call;
ghost use Rattle.zone_model.specs.declared.entry.Reply.TheVariants as reply;
ghost use Rattle.zone_model.specs.State.{State};
ghost use Rattle.shared_heap.specs.Shared.{root_in, rooted, holding_more, with_gc};
ghost use Rattle.heap_cycle.specs.Livening.{Livens, of_option};
ghost use Rattle.shared_heap.specs.Stands.{EscapedClosed};
ghost use Rattle.shared_heap.specs.Holding.{HoldsMore};
ghost use Rattle.shared_heap.specs.Steps.{Runs, Stepped, after_read, names};

use crate::heap::Heap;
use az_base::{BlockId, NoMemory, RootNo, ThreadNo};
use zone_model::Reply;

impl Heap {
    /// The root gets a block, or null. While a cycle marks, the block is enlivened. It takes no memory. O(1).
    pub fn set_root(&mut self, t: ThreadNo, root: RootNo, value: Option<BlockId>) -> Reply
        requires escaped { IfSome value (λ b. IsSome (get self.old.blocks b)) }
        ensures reply { result ≡ reply.Done }
        ensures value { self.new ≡ with_gc (rooted self.old root.0 value) self.new.gc }
        ensures gc { Livens self.old.gc self.new.gc (of_option value) [] }
        ensures step { (z : State) (from : ℕ) → Runs self.old z t → EscapedClosed z → z.registers t from ≡ value → Stepped self.new z t (call.SetRoot root from) result }
    {
        let _roots = self.tables.roots.as_slice();
        let value = &value;
        self.tell(*value);
        self.tables.roots.set(root, *value);
        Reply::Done
    }

    /// Reads a root into a register of the thread: the thread holds what it gets once more. NoMemory too where it holds
    /// that 4,294,967,295 times. O(1) expected, and O(threads that hold the block).
    pub fn get_root(&mut self, t: ThreadNo, root: RootNo) -> Result<Reply, NoMemory>
        ensures reply { IfOk result (λ r. r ≡ reply.Block (root_in self.old root.0)) }
        ensures value { IfOk result (λ r. self.new ≡ after_read self.old t r) }
        ensures held { IfOk result (λ r. HoldsMore self.old self.new t r) }
        ensures step { IfOk result (λ r. (z : State) (to : ℕ) → Runs self.old z t → Stepped self.new z t (call.GetRoot to root) r) }
        ensures err { OnErr result (self.new ≡ self.old) }
    {
        let value = self.tables.roots.get(root);
        self.hold_more(t, &value)?;
        Ok(Reply::Block(value))
    }

    /// The thread holds the block, if there is one, once more; NoMemory too where its number is used up.
    pub(crate) fn hold_more(&mut self, t: ThreadNo, value: &Option<BlockId>) -> Result<(), NoMemory>
        ensures ok { OnOk result (self.new ≡ holding_more self.old t value.now) }
        ensures held { OnOk result (HoldsMore self.old self.new t (reply.Block value.now)) }
        ensures err { OnErr result (self.new ≡ self.old) }
    {
        let Some(id) = value else {
            return Ok(());
        };
        let Some(times) = self.tables.blocks.times(t, *id).checked_add(1) else {
            return Err(NoMemory);
        };
        self.tables.blocks.set_times(t, *id, times)
    }
}
