//! What calls tell the open cycle.
ghost use Rattle.std.specs.Prelude.{◌≡◌, ◌≤◌, []};
ghost use Rattle.block_table.specs.Table.{used_by};
ghost use Rattle.heap_cycle.specs.Livening.{Livens, of_option};
ghost use Rattle.shared_heap.specs.Shared.{with_gc};

use crate::heap::Heap;
use az_base::BlockId;
use heap_cycle::enliven;

impl Heap {
    /// While a cycle marks, the block is enlivened.
    pub(crate) fn tell(&mut self, value: Option<BlockId>)
        ensures value { self.new ≡ with_gc self.old self.new.gc }
        ensures livens { Livens self.old.gc self.new.gc (of_option value) [] }
        ensures fits { used_by self.old.blocks ≤ self.old.options.heap_quanta }
    {
        enliven(&mut self.tables, &mut self.open_cycle, value);
    }
}
