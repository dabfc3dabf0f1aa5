//! What a publication and a shared call change.
ghost use Rattle.std.specs.Prelude.{◌≡◌, [], None, Some, true, length, slice_get};
ghost use Rattle.std.specs.FinMap.{get, empty};
ghost use Rattle.az_base.specs.Ids.{same_id};
ghost use Rattle.zone_model.specs.Part.{is_in, put_register, leave_part, own_block};
ghost use Rattle.block_layouts.specs.Fitting.{Fits};
ghost use Rattle.local_set.specs.LocalSets.{part_in, held_in};

use crate::local::Local;
use az_base::{BlockId, Reg, Word};
use block_layouts::Layout;

impl Local {
    /// What a register held when the thread's holds were last published. O(1).
    pub fn published(&self, reg: Reg) -> Option<BlockId>
        ensures value { result ≡ held_in self.now.published reg }
        ensures sixteen { length self.now.published ≡ 16 }
    {
        self.published[reg.get() as usize]
    }

    /// The blocks of which the number of words that refer to them may have changed since then, some of them more than
    /// once. O(1).
    pub fn changed(&self) -> &[BlockId]
        ensures { result.now ≡ self.now.changed }
    {
        self.blocks.changed()
    }

    /// The thread's holds count as published. O(changed).
    pub fn mark_published(&mut self)
        ensures { self.new ≡ record self.old { published = self.old.registers; changed = [] } }
    {
        self.published.copy_from_slice(&self.registers);
        self.blocks.forget_changes();
    }

    /// A shared call's result goes into a register. O(1).
    pub fn receive(&mut self, reg: Reg, id: Option<BlockId>)
        ensures part { part_in self.new ≡ put_register (part_in self.old) reg id }
        ensures rest { self.new ≡ record self.old { registers = self.new.registers } }
    {
        self.hold(reg, id);
    }

    /// An unescaped block leaves the part, since it escapes. O(1) expected where no word of it refers to a block; else one
    /// look at the table of references for each word, of which a block has at most 4,096. A block is taken out once at most,
    /// and `new_block` has written each of its words: so it is O(1) amortised, and all that a thread ever takes out costs no
    /// more than the words of the blocks that it made. It takes no memory.
    pub fn take_out(&mut self, id: BlockId) -> (Layout, Vec<Word>)
        requires { is_in (part_in self.old) id ≡ true }
        ensures block { get (part_in self.old).blocks id ≡ Some (record (own_block result.0) { words = result.1.items }) }
        ensures fit { Fits result.0 result.1.items }
        ensures part { part_in self.new ≡ leave_part (part_in self.old) (same_id id) }
        ensures rest { self.new ≡ record self.old { blocks = self.new.blocks } }
    {
        self.blocks.take(id)
    }

    /// The thread ends: its registers are null, its blocks are gone. O(words of its blocks) expected.
    pub fn clear(&mut self)
        ensures part { part_in self.new ≡ record (part_in self.old) { registers = λ r. None; blocks = empty; ended = true } }
        ensures rest { self.new ≡ record self.old { registers = self.new.registers; published = self.new.registers; blocks = []; changed = []; ended = true } }
    {
        self.registers.copy_from_slice(&[None; 16]);
        self.published.copy_from_slice(&self.registers);
        self.blocks.clear();
        self.ended = true;
    }
}
