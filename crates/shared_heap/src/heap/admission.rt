//! How blocks escape into the heap: room is taken for all of them, and then each comes in.
ghost use Rattle.std.specs.Prelude.{◌≡◌, ◌<◌, ◌≤◌, ◌+◌, ◌⊎◌, ℕ, [], None, Some, IsOk, IsSome, OnOk, OnErr, ◌==◌, ◌&&◌, if◌then◌else◌, slice_get};
ghost use Rattle.std.specs.FinMap.{get};
ghost use Rattle.az_base.specs.declared.block_id.BlockId.{BlockId};
ghost use Rattle.az_base.specs.Ids.{same_id};
ghost use Rattle.block_layouts.specs.Layouts.{len_of, quanta};
ghost use Rattle.zone_model.specs.Reached.{OpenReached};
ghost use Rattle.zone_model.specs.State.{State};
ghost use Rattle.zone_model.specs.Escape.{with_escaped};
ghost use Rattle.shared_heap.specs.Holding.{HoldsAdmitted, HoldsSet};
ghost use Rattle.block_table.specs.Table.{used_by};
ghost use Rattle.shared_heap.specs.Shared.{held, holding, admitted, with_gc, IsFresh};
ghost use Rattle.heap_cycle.specs.Livening.{Livens, blocks_in};
ghost use Rattle.shared_heap.specs.Stands.{Stands};
ghost use Rattle.shared_heap.specs.Steps.{IsUnescaped};
ghost use Rattle.block_layouts.specs.Fitting.{Fits};

use crate::heap::Heap;
use az_base::{BlockId, NoMemory, ThreadNo, Word};
use block_layouts::Layout;
use heap_cycle::{enliven_words, reserve_cards};
use std::alloc::Global;

impl Heap {
    /// Room for blocks of these lengths, each to be admitted in its turn. O(lengths), and O(blocks) where the table
    /// grows.
    pub fn reserve_admit(&mut self, alloc: Global, lengths: &[u32]) -> Result<(), NoMemory>
        requires room { self.old.room ≡ [] }
        ensures ok { OnOk result (self.new ≡ record self.old { room = lengths.now }) }
        ensures err { OnErr result (self.new ≡ self.old) }
    {
        reserve_cards(&mut self.tables, lengths.len())?;
        self.tables.blocks.reserve(lengths)
    }

    /// Gives up the room that is left.
    pub fn unreserve(&mut self)
        ensures { self.new ≡ record self.old { room = [] } }
    {
        self.tables.blocks.unreserve();
    }

    /// An unescaped block, without actions, escapes: it is next in the room, and nobody holds it yet. While a cycle marks,
    /// the blocks to which its words refer are enlivened. It takes no memory. O(words) expected.
    pub fn admit(&mut self, id: BlockId, layout: Layout, words: Vec<Word>)
        requires room { slice_get self.old.room 0 ≡ Some (len_of layout) }
        requires absent { get self.old.blocks id ≡ None }
        requires whole { Fits layout words.items }
        requires fits { used_by self.old.blocks + quanta (len_of layout) ≤ self.old.options.heap_quanta }
        ensures value { self.new ≡ with_gc (admitted self.old id layout words.items) self.new.gc }
        ensures gc { Livens self.old.gc self.new.gc (blocks_in words.items) [] }
        ensures held { HoldsAdmitted self.old self.new id }
        ensures fresh { IsFresh self.new id }
        ensures used { used_by self.new.blocks ≡ used_by self.old.blocks + quanta (len_of layout) }
        ensures stands { (z : State) → Stands self.old z → OpenReached z → IsUnescaped z id layout words.items → Stands self.new (with_escaped z (same_id id)) }
    {
        enliven_words(&mut self.tables, &mut self.open_cycle, words.as_slice());
        self.tables.are_tables();
        let actions = Vec::new(*words.allocator());
        self.tables.blocks.insert(id, layout, words, actions, None);
    }

    /// From now on the thread holds the block `n` times. O(1) expected, and O(threads that hold the block).
    pub fn hold_count(&mut self, t: ThreadNo, id: BlockId, n: u32) -> Result<(), NoMemory>
        requires given { IsSome (get self.old.blocks id) }
        ensures ok { OnOk result (self.new ≡ holding self.old t id n) }
        ensures held { OnOk result (HoldsSet self.old self.new t id n) }
        ensures stands { (z : State) → Stands self.old z → Stands self.new z }
        ensures err { OnErr result (self.new ≡ self.old) }
        ensures sure { (n ≡ 0) ⊎ ((0 < held self.old t id) ⊎ IsFresh self.old id) → IsOk result }
    {
        self.tables.blocks.set_times(t, id, n)
    }
}
