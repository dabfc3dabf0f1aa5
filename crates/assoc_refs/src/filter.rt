//! Which objects may have values.
ghost use Rattle.std.specs.Prelude.{◌≡◌, false, IfOk};
ghost use Rattle.assoc_refs.specs.Filter.{slot_in, IsIn, HasAll};

use crate::pairs::Pairs;
use az_base::{BlockId, NoMemory};
use indexmap::IndexMap;
use std::alloc::Global;

// How many slots the first filter has.
const FIRST_SLOTS: usize = 64;

/// Slots that objects share: an object that comes in takes its own, and one whose slot isn't taken isn't in. At most one
/// slot in four is taken, where there was memory for enough of them.
#[derive(Drop)]
pub struct Filter {
    pub taken: Vec<bool>,
    // The slot of an object is its number under this mask.
    pub mask: usize,
    // How many more objects may come in before there are too few slots.
    pub left: usize,
}

impl Filter {
    /// No slot, so that each object may be in.
    pub fn new(alloc: Global) -> Filter
        ensures { (object : BlockId) → IsIn result.taken.items result.mask object }
    {
        Filter {
            taken: Vec::new(alloc),
            mask: 0,
            left: 0,
        }
    }

    /// Whether the object may be in. O(1), without a look-up.
    pub fn has(&self, object: BlockId) -> bool
        ensures { result ≡ false → ¬ IsIn self.now.taken.items self.now.mask object }
    {
        match self.taken.get(slot_of(object, self.mask)) {
            Some(taken) => *taken,
            None => true,
        }
    }

    /// The object is in from now on, as those that have a list are. O(1) over all calls, and O(lists) where the filter is
    /// made anew, which it isn't where there is no memory for more slots.
    pub fn admit(&mut self, lists: &IndexMap<BlockId, Pairs>, object: BlockId)
        requires { HasAll self.old.taken.items self.old.mask lists.now.entries }
        ensures all { HasAll self.new.taken.items self.new.mask lists.now.entries }
        ensures object { IsIn self.new.taken.items self.new.mask object }
    {
        if self.left == 0 {
            self.renew(lists);
        }
        self.left = self.left.saturating_sub(1);
        self.take(object);
    }

    // Only what has a list stays in, and there are more slots where it has an eighth of them.
    fn renew(&mut self, lists: &IndexMap<BlockId, Pairs>)
        requires { HasAll self.old.taken.items self.old.mask lists.now.entries }
        ensures { HasAll self.new.taken.items self.new.mask lists.now.entries }
    {
        let slots = self.taken.len();
        let wanted = if lists.len() >= slots / 8 {
            slots.saturating_mul(2)
        } else {
            slots
        };
        if let Ok(filter) = Filter::over(lists, wanted.max(FIRST_SLOTS)) {
            *self = filter;
        }
    }

    // A filter of so many slots, a power of two, that has what has a list.
    fn over(lists: &IndexMap<BlockId, Pairs>, slots: usize) -> Result<Filter, NoMemory>
        ensures { IfOk result (λ filter. HasAll filter.taken.items filter.mask lists.now.entries) }
    {
        let alloc = *lists.allocator();
        let mut filter = Filter {
            taken: vec![in alloc; false; slots]?,
            mask: slots.saturating_sub(1),
            left: slots / 8,
        };
        filter.take_all(lists);
        Ok(filter)
    }

    // What has a list takes its slot.
    fn take_all(&mut self, lists: &IndexMap<BlockId, Pairs>)
        ensures { HasAll self.new.taken.items self.new.mask lists.now.entries }
    {
        for n in 0..lists.len() {
            if let Some((object, _)) = lists.get_index(n) {
                self.take(*object);
            }
        }
    }

    // The object takes its slot.
    fn take(&mut self, object: BlockId)
        ensures object { IsIn self.new.taken.items self.new.mask object }
        ensures others { (q : BlockId) → IsIn self.old.taken.items self.old.mask q → IsIn self.new.taken.items self.new.mask q }
    {
        let slot = slot_of(object, self.mask);
        if slot < self.taken.len() {
            self.taken[slot] = true;
        }
    }
}

// The slot of an object under a mask: the blocks of a thread have one after the other.
fn slot_of(object: BlockId, mask: usize) -> usize
    ensures { result ≡ slot_in object mask }
{
    let thread = object.thread.get() as usize;
    (object.serial as usize + thread * 40_503) & mask
}
