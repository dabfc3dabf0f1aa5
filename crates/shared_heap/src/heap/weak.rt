//! The weak locations.
ghost use Rattle.std.specs.Prelude.{◌≡◌, ◌≤◌, ◌+◌, ℕ, IsOk, IfOk, IfSome, IsSome, Some, OnOk, OnErr, ◌==◌, ◌&&◌, if◌then◌else◌, []};
ghost use Rattle.std.specs.FinMap.{get};
ghost use Rattle.az_base.specs.declared.block_id.BlockId.{BlockId};
ghost use Rattle.zone_model.specs.declared.call.Call.TheVariants as call;
ghost use Rattle.zone_model.specs.declared.call.Loc.{Loc};
ghost use Rattle.zone_model.specs.declared.entry.Reply.TheVariants as reply;
ghost use Rattle.zone_model.specs.Effect.{weak_loc};
ghost use Rattle.zone_model.specs.State.{State};
ghost use Rattle.block_table.specs.Table.{used_by};
ghost use Rattle.shared_heap.specs.Shared.{held, with_gc};
ghost use Rattle.shared_heap.specs.Stands.{EscapedClosed};
ghost use Rattle.shared_heap.specs.Holding.{HoldsMore};
ghost use Rattle.shared_heap.specs.Steps.{Runs, Stepped, after_read, names};
ghost use Rattle.shared_heap.specs.Weak.{IsPlaced, loc_misuse, showing, shown_in, after_assign};
ghost use Rattle.shared_heap.specs.Cycles.{AfterBarrier};
ghost use Rattle.heap_cycle.specs.Livening.{of_option};
ghost use Rattle.shared_heap.specs.Words.{reply_or};

use crate::heap::Heap;
use az_base::{BlockId, Class, Misuse, NoMemory, ThreadNo, WeakLoc};
use heap_cycle::is_condemned;
use zone_model::Reply;

impl Heap {
    /// The location shows the block, or null, and null too where the open cycle has condemned the block, as the reply
    /// says; for a word NoWord, or WrongClass where it isn't a Weak one. Nothing is enlivened. It takes no
    /// memory for null, nor where room for the value is ready, and then that room is gone. O(1) expected, and
    /// O(locations) where a table grows.
    pub fn assign_weak(
        &mut self,
        t: ThreadNo,
        loc: WeakLoc,
        value: Option<BlockId>,
    ) -> Result<Reply, NoMemory>
        requires given { IsPlaced self.old loc }
        requires escaped { IfSome value (λ b. IsSome (get self.old.blocks b)) }
        ensures sure { IfSome value (λ b. self.old.ready.value ≡ Some b) → IsOk result }
        ensures reply { IfOk result (λ r. r ≡ reply_or (loc_misuse self.old loc) (reply.Block (shown_in self.old value))) }
        ensures value { IfOk result (λ r. self.new ≡ after_assign self.old loc r) }
        ensures step { IfOk result (λ r. (z : State) (l : Loc) (from : ℕ) → Runs self.old z t → EscapedClosed z → weak_loc z t l ≡ Some loc → z.registers t from ≡ value → Stepped self.new z t (call.SetWeak l from) r) }
        ensures err { OnErr result (self.new ≡ self.old) }
    {
        let (loc, value) = (&loc, &value);
        match self.loc_misuse(*loc) {
            Some(misuse) => Ok(Reply::Misuse(misuse)),
            None => {
                let shown = &self.shown(*value);
                self.show(*loc, *shown)?;
                Ok(Reply::Block(*shown))
            }
        }
    }

    /// Reads a weak location into a register of the thread: the thread holds what it gets once more, and while a cycle
    /// marks, that block is enlivened. For a word NoWord, or
    /// WrongClass where it isn't a Weak one. NoMemory too where the thread holds the block 4,294,967,295 times. O(1)
    /// expected, and O(threads that hold the block).
    pub fn read_weak(&mut self, t: ThreadNo, loc: WeakLoc) -> Result<Reply, NoMemory>
        requires given { IsPlaced self.old loc }
        ensures reply { IfOk result (λ r. r ≡ reply_or (loc_misuse self.old loc) (reply.Block (get self.old.weak loc))) }
        ensures value { IfOk result (λ r. self.new ≡ with_gc (after_read self.old t r) self.new.gc) }
        ensures gc { IfOk result (λ r. AfterBarrier self.old.gc self.new.gc r (of_option (get self.old.weak loc)) []) }
        ensures held { IfOk result (λ r. HoldsMore self.old self.new t r) }
        ensures step { IfOk result (λ r. (z : State) (to : ℕ) (l : Loc) → Runs self.old z t → weak_loc z t l ≡ Some loc → Stepped self.new z t (call.ReadWeak to l) r) }
        ensures err { OnErr result (self.new ≡ self.old) }
    {
        let loc = &loc;
        match self.loc_misuse(*loc) {
            Some(misuse) => Ok(Reply::Misuse(misuse)),
            None => {
                let value = self.weak.read(*loc);
                self.hold_more(t, &value)?;
                self.tell(value);
                Ok(Reply::Block(value))
            }
        }
    }

    /// What a location comes to show where the block is assigned to it: null where the block is condemned.
    fn shown(&self, value: Option<BlockId>) -> Option<BlockId>
        ensures value { result ≡ shown_in self.now value }
        ensures less { IfSome result (λ b. value ≡ Some b) }
    {
        let id = value?;
        if is_condemned(&self.open_cycle, id) {
            return None;
        }
        Some(id)
    }

    /// What is wrong with the location.
    fn loc_misuse(&self, loc: WeakLoc) -> Option<Misuse>
        requires { IsPlaced self.now loc }
        ensures { result ≡ loc_misuse self.now loc }
    {
        match loc {
            WeakLoc::Root(_) => None,
            WeakLoc::Word(id, at) => self.word_misuse(Some(id), at, Class::Weak),
        }
    }

    /// The location shows the block, or null.
    fn show(&mut self, loc: WeakLoc, value: Option<BlockId>) -> Result<(), NoMemory>
        ensures ok { OnOk result (self.new ≡ showing self.old loc value) }
        ensures err { OnErr result (self.new ≡ self.old) }
        ensures sure { IfSome value (λ b. self.old.ready.value ≡ Some b) → IsOk result }
        ensures fits { OnOk result (used_by self.old.blocks ≤ self.old.options.heap_quanta) }
    {
        let value = &value;
        self.ready_value(*value)?;
        self.weak.assign(loc, *value);
        Ok(())
    }
}
