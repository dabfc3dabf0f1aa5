//! What registers lead to.
ghost use Rattle.std.specs.Prelude.{◌≡◌, ◌<◌, Some, true, length, slice_get, OnOk, IfOk};
ghost use Rattle.std.specs.FinMap.{contains_key};
ghost use Rattle.az_base.specs.declared.block_id.BlockId.{BlockId as ABlockId};
ghost use Rattle.local_set.specs.LocalSets.{blocks_of};
ghost use Rattle.local_set.specs.Walks.{words_at, Visits, VisitsAll, IsReached, referents_of};

use crate::blocks::Blocks;
use crate::references::referent;
use az_base::{BlockId, NoMemory, Word};
use indexmap::IndexSet;
use std::alloc::Global;

/// The blocks that were found, each once, in the order in which they were found. Those before a place of the walk were
/// followed; where all were, nothing more is to be found.
#[derive(Drop)]
struct Trace {
    found: IndexSet<BlockId>,
}

impl Trace {
    /// Finds a block, where it is one of these.
    fn visit(&mut self, blocks: &Blocks, value: Option<BlockId>) -> Result<(), NoMemory>
        ensures { OnOk result (Visits (blocks_of blocks.now.list) self.old.found.keys self.new.found.keys value) }
    {
        let Some(id) = value else {
            return Ok(());
        };
        let id = &id;
        if !blocks.has(*id) {
            return Ok(());
        }
        let _ = self.found.insert(*id)?;
        Ok(())
    }

    /// Finds the blocks that the registers hold.
    fn begin(&mut self, blocks: &Blocks, registers: &[Option<BlockId>]) -> Result<(), NoMemory>
        ensures { OnOk result (VisitsAll (blocks_of blocks.now.list) self.old.found.keys self.new.found.keys registers.now) }
    {
        for held in registers {
            self.visit(blocks, *held)?;
        }
        Ok(())
    }

    /// Finds the blocks to which these words refer.
    fn follow(&mut self, blocks: &Blocks, words: &[Word]) -> Result<(), NoMemory>
        ensures { OnOk result (VisitsAll (blocks_of blocks.now.list) self.old.found.keys self.new.found.keys (referents_of words.now)) }
    {
        for word in words {
            self.visit(blocks, referent(*word))?;
        }
        Ok(())
    }

    /// Finds the blocks to which the block at a place of the walk refers.
    fn follow_found(&mut self, blocks: &Blocks, at: usize) -> Result<(), NoMemory>
        requires within { at < length self.old.found.keys }
        requires there { (q : ABlockId) → slice_get self.old.found.keys at ≡ Some q → contains_key (blocks_of blocks.now.list) q ≡ true }
        ensures { OnOk result ((q : ABlockId) → slice_get self.old.found.keys at ≡ Some q → VisitsAll (blocks_of blocks.now.list) self.old.found.keys self.new.found.keys (referents_of (words_at (blocks_of blocks.now.list) q))) }
    {
        let Some(id) = self.found.get_index(at).copied() else {
            unreachable!()
        };
        self.follow(blocks, blocks.words(id))
    }
}

/// The blocks that the registers lead to. O(words of these blocks) expected.
pub fn reached(
    alloc: Global,
    blocks: &Blocks,
    registers: &[Option<BlockId>],
) -> Result<IndexSet<BlockId>, NoMemory>
    ensures { IfOk result (λ found. IsReached (blocks_of blocks.now.list) registers.now found.keys) }
{
    let mut walk = Trace {
        found: IndexSet::new(alloc),
    };
    walk.begin(blocks, registers)?;
    let mut at = 0;
    while at < walk.found.len() {
        walk.follow_found(blocks, at)?;
        at += 1;
    }
    Ok(walk.found)
}
