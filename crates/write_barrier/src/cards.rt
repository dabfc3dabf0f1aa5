//! The blocks that are remembered.
ghost use Rattle.std.specs.Prelude.{◌≡◌, ◌⊎◌, ◌+◌, ◌<◌, ◌≤◌, [], length, IsTrue, IsFalse, OnOk, OnErr};
ghost use Rattle.std.specs.List.Sorted.{IsStrictlySortedBy};
ghost use Rattle.std.specs.Vec.{vec_capacity};
ghost use Rattle.az_base.specs.declared.block_id.BlockId.{BlockId};
ghost use Rattle.az_base.specs.Ids.{id_cmp, among};
ghost use Rattle.write_barrier.specs.Remembered.{with_block, without_block};

use az_base::{BlockId, NoMemory};
use std::alloc::Global;
use std::marker::Model;
use std::mem;

/// A set of blocks in ascending order, and room for more: for how many can be remembered without asking for memory.
#[derive(Drop)]
pub struct Cards {
    ids: Vec<BlockId>,
}

impl Model for Cards {
    ghost use Rattle.std.specs.Prelude.{◌-◌};
    ghost use Rattle.std.specs.List.Sorted.{IsStrictlySortedBy};
    ghost use Rattle.std.specs.Vec.{vec_capacity, vec_len};
    ghost use Rattle.az_base.specs.Ids.{id_cmp};
    ghost use Rattle.write_barrier.specs.Remembered.{Remembered, coded_remembered};

    ghost Value = { Remembered };

    ghost coded = { coded_remembered };

    ghost view = { λ c. record { list = c.ids.items; spare = vec_capacity c.ids - vec_len c.ids } };

    ghost invariant = { λ c. IsStrictlySortedBy id_cmp c.ids.items };
}

impl Cards {
    /// No block.
    pub fn new(alloc: Global) -> Cards
        ensures { result.list ≡ [] }
    {
        Cards {
            ids: Vec::new(alloc),
        }
    }

    /// These blocks, each once however often it stands in the list, with the list's room. It takes no memory.
    /// O(n log n).
    pub fn from_vec(ids: Vec<BlockId>) -> Cards
        ensures blocks { (b : BlockId) → among result.list b ≡ among ids.items b }
        ensures ascends { IsStrictlySortedBy id_cmp result.list }
        ensures room { length result.list + result.spare ≡ vec_capacity ids }
    {
        let mut ids = ids;
        ids.sort_unstable();
        ids.dedup();
        Cards { ids }
    }

    /// The blocks in ascending order, and the room. It takes no memory. Who has many to remember or to forget changes
    /// this list, in any order, and makes cards of it by `from_vec`: so n of them cost O(n log n). O(1).
    pub fn into_vec(self) -> Vec<BlockId>
        ensures list { result.items ≡ self.list }
        ensures ascends { IsStrictlySortedBy id_cmp result.items }
        ensures room { vec_capacity result ≡ length self.list + self.spare }
    {
        self.ids
    }

    /// None is remembered any more, and the list, which is empty, is for who remembers anew: cards are made of it by
    /// `from_vec`. It takes no memory. O(1).
    pub fn take_room(&mut self) -> Vec<BlockId>
        ensures none { self.new.list ≡ [] }
        ensures spent { self.new.spare ≡ 0 }
        ensures empty { result.items ≡ [] }
        ensures room { vec_capacity result ≡ length self.old.list + self.old.spare }
    {
        let alloc = *self.ids.allocator();
        let mut ids = mem::replace(&mut self.ids, Vec::new(alloc));
        ids.clear();
        ids
    }

    /// Takes room for this many more blocks. O(1), and O(blocks) where the list grows.
    pub fn reserve(&mut self, n: u32) -> Result<(), NoMemory>
        ensures list { self.new.list ≡ self.old.list }
        ensures ok { OnOk result (n ≤ self.new.spare) }
        ensures spare { self.old.spare ≤ self.new.spare }
        ensures err { OnErr result (self.new ≡ self.old) }
    {
        self.ids.reserve(n as usize)?;
        Ok(())
    }

    /// The block is one of them from now on; where it wasn't, there is room for it. It takes no memory. O(log blocks)
    /// to find its place, and those that are above it move, 8 bytes each: nothing where it is the greatest, 2 µs on
    /// average among 20,000 that come from the greatest down, 60 µs among 262,144. Where more are to come, see
    /// `into_vec`.
    pub fn remember(&mut self, id: BlockId)
        requires { (0 < self.old.spare) ⊎ IsTrue (among self.old.list id) }
        ensures list { self.new.list ≡ with_block id self.old.list }
        ensures added { IsFalse (among self.old.list id) → self.new.spare + 1 ≡ self.old.spare }
        ensures there { IsTrue (among self.old.list id) → self.new ≡ self.old }
        ensures room { self.old.spare ≤ self.new.spare + 1 }
    {
        if let Err(place) = self.ids.binary_search(&id) {
            let Ok(_) = self.ids.insert(place, id) else {
                unreachable!()
            };
        }
    }

    /// The block isn't one of them any more, and there is room for it again. It takes no memory. O(log blocks), and
    /// those that are above it move as in `remember`.
    pub fn forget(&mut self, id: BlockId)
        ensures list { self.new.list ≡ without_block id self.old.list }
        ensures room { length self.new.list + self.new.spare ≡ length self.old.list + self.old.spare }
    {
        if let Ok(place) = self.ids.binary_search(&id) {
            let _ = self.ids.remove(place);
        }
    }

    /// The blocks, in ascending order. O(1).
    pub fn list(&self) -> &[BlockId]
        ensures list { result.now ≡ self.now.list }
        ensures ascends { IsStrictlySortedBy id_cmp result.now }
    {
        self.ids.as_slice()
    }
}
