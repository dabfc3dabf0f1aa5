//! Room for the calls that an escape makes way for.
ghost use Rattle.std.specs.Prelude.{◌≡◌, Some, IfSome, IsOk, OnOk, OnErr};
ghost use Rattle.std.specs.Option.{option_or};
ghost use Rattle.zone_model.specs.State.{State};
ghost use Rattle.shared_heap.specs.Shared.{readied};
ghost use Rattle.shared_heap.specs.Stands.{Stands};

use crate::heap::Heap;
use az_base::{BlockId, NoMemory, ThreadNo};

impl Heap {
    /// Room for one `store`, `retain`, `set_assoc` or `assign_weak` of the thread, before the blocks escape that it makes
    /// escape. The object is that of the association, or the block into which is stored; the value is the block that is
    /// stored, retained, associated or shown. Neither need be a block of the heap yet. Where it is refused, the room that
    /// was there for others may be gone, and nothing else has changed. O(1), and O(entries) where a table grows.
    pub fn ready(
        &mut self,
        t: ThreadNo,
        object: Option<BlockId>,
        value: Option<BlockId>,
    ) -> Result<(), NoMemory>
        ensures ok { OnOk result (self.new ≡ readied self.old object value) }
        ensures err { OnErr result (self.new ≡ record self.old { ready = self.new.ready }) }
        ensures stands { (z : State) → Stands self.old z → Stands self.new z }
    {
        self.tables.counts.reserve_one()?;
        self.ready_object(object)?;
        self.ready_value(value)
    }

    /// Room for one more association of the object, if there is one.
    fn ready_object(&mut self, object: Option<BlockId>) -> Result<(), NoMemory>
        ensures ok { OnOk result (self.new ≡ record self.old { ready = record self.old.ready { object = option_or object self.old.ready.object } }) }
        ensures err { OnErr result (self.new ≡ self.old) }
    {
        match object {
            Some(object) => self.tables.assocs.reserve_one(object),
            None => Ok(()),
        }
    }

    /// Room for one more weak location that shows the block, if there is one.
    pub(crate) fn ready_value(&mut self, value: Option<BlockId>) -> Result<(), NoMemory>
        ensures ok { OnOk result (self.new ≡ record self.old { ready = record self.old.ready { value = option_or value self.old.ready.value } }) }
        ensures err { OnErr result (self.new ≡ self.old) }
        ensures sure { IfSome value (λ b. self.old.ready.value ≡ Some b) → IsOk result }
    {
        match value {
            Some(value) => self.weak.reserve_one(value),
            None => Ok(()),
        }
    }
}
