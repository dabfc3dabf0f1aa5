//! What blocks lead to: a search along their references, which stops where what it followed doesn't fit.
ghost use Rattle.std.specs.Prelude.{◌≡◌, ◌<◌, ◌≤◌, ◌+◌, ◌++◌, ◌∷◌, ◌^◌, [], Some, true, OnOk, IfOk, IfSome, length, slice_get};
ghost use Rattle.az_base.specs.declared.block_id.BlockId.{BlockId as ABlockId};
ghost use Rattle.block_layouts.specs.Layouts.{len_of, quanta};
ghost use Rattle.zone_model.specs.Part.{is_in};
ghost use Rattle.zone_model.specs.State.{referent};
ghost use Rattle.local_set.specs.LocalSets.{part_in};
ghost use Rattle.local_set.specs.Walks.{Visits, VisitsAll, referents_of};
ghost use Rattle.escape_plan.specs.Searching.{each_of, with_length, IsNext, Follows, Found};
ghost use Rattle.escape_plan.specs.Planning.{quanta_at};

use az_base::{BlockId, NoMemory, Word};
use block_layouts::Layout;
use indexmap::IndexSet;
use local_set::Local;
use std::alloc::Global;

/// The unescaped blocks that were found, each once, in the order in which they were found. The first of them were
/// followed: what their words refer to was found, too.
#[derive(Drop)]
pub struct Search {
    found: IndexSet<BlockId>,
    /// Those that were followed, with their lengths in words.
    pub followed: Vec<(BlockId, u32)>,
    /// The small quanta of those.
    pub quanta: u64,
    /// Up to which quanta the search goes on.
    room: u64,
}

impl Search {
    fn new(alloc: Global, room: u64) -> Search
        ensures found { result.found.keys ≡ [] }
        ensures followed { result.followed.items ≡ [] }
        ensures quanta { result.quanta ≡ 0 }
        ensures room { result.room ≡ room }
    {
        Search {
            found: IndexSet::new(alloc),
            followed: Vec::new(alloc),
            quanta: 0,
            room,
        }
    }

    /// Finds a block, where it is an unescaped one of the thread.
    fn visit(&mut self, local: &Local, id: BlockId) -> Result<(), NoMemory>
        ensures visits { OnOk result (Visits (part_in local.now).blocks self.old.found.keys self.new.found.keys (Some id)) }
        ensures rest { self.new ≡ record self.old { found = self.new.found } }
    {
        let id = &id;
        if !local.is_own(*id) {
            return Ok(());
        }
        let Ok(_) = self.found.insert(*id) else {
            return Err(NoMemory);
        };
        Ok(())
    }

    /// Finds the block to which a word refers.
    fn visit_word(&mut self, local: &Local, word: Word) -> Result<(), NoMemory>
        ensures visits { OnOk result (Visits (part_in local.now).blocks self.old.found.keys self.new.found.keys (referent (Some word))) }
        ensures rest { self.new ≡ record self.old { found = self.new.found } }
    {
        match word {
            Word::Block(id) => self.visit(local, id),
            Word::Null | Word::Number(_) => Ok(()),
        }
    }

    /// Finds these blocks.
    fn begin(&mut self, local: &Local, first: &[BlockId]) -> Result<(), NoMemory>
        ensures visits { OnOk result (VisitsAll (part_in local.now).blocks self.old.found.keys self.new.found.keys (each_of first.now)) }
        ensures rest { self.new ≡ record self.old { found = self.new.found } }
    {
        for id in first {
            self.visit(local, *id)?;
        }
        Ok(())
    }

    /// Finds the blocks to which these words refer.
    fn visit_words(&mut self, local: &Local, words: &[Word]) -> Result<(), NoMemory>
        ensures visits { OnOk result (VisitsAll (part_in local.now).blocks self.old.found.keys self.new.found.keys (referents_of words.now)) }
        ensures rest { self.new ≡ record self.old { found = self.new.found } }
    {
        for word in words {
            self.visit_word(local, *word)?;
        }
        Ok(())
    }

    /// The next block to be followed; None where all were, or where those that were take too many quanta.
    fn next(&self) -> Option<BlockId>
        ensures { IsNext self.now result }
    {
        if self.quanta > self.room {
            return None;
        }
        self.found.get_index(self.followed.len()).copied()
    }

    /// A block with this layout was followed.
    fn count(&mut self, id: BlockId, layout: &Layout) -> Result<(), NoMemory>
        requires { self.old.quanta ≤ 2 ^ 32 }
        ensures followed { OnOk result (self.new.followed.items ≡ self.old.followed.items ++ (id, len_of layout.now) ∷ []) }
        ensures quanta { OnOk result (self.new.quanta ≡ self.old.quanta + quanta (len_of layout.now)) }
        ensures found { self.new.found ≡ self.old.found }
        ensures room { self.new.room ≡ self.old.room }
    {
        let Ok(()) = self.followed.push((id, layout.len())) else {
            return Err(NoMemory);
        };
        self.quanta += u64::from(layout.quanta());
        Ok(())
    }

    /// Follows a block.
    fn follow(&mut self, local: &Local, id: BlockId) -> Result<(), NoMemory>
        requires few { self.old.quanta ≤ 2 ^ 32 }
        requires own { is_in (part_in local.now) id ≡ true }
        ensures followed { OnOk result (self.new.followed.items ≡ self.old.followed.items ++ with_length (part_in local.now).blocks id ∷ []) }
        ensures quanta { OnOk result (self.new.quanta ≡ self.old.quanta + quanta_at (part_in local.now).blocks id) }
        ensures visits { OnOk result (Follows (part_in local.now).blocks self.old.found.keys self.new.found.keys id) }
        ensures room { self.new.room ≡ self.old.room }
    {
        let id = &id;
        let (layout, words) = local.block_of(*id);
        self.count(*id, layout)?;
        self.visit_words(local, words)
    }
}

/// All to which these blocks lead, among the thread's unescaped ones; or some of it that takes more quanta than the room.
/// O(words of the followed blocks) expected.
pub fn follow_all(
    alloc: Global,
    local: &Local,
    first: &[BlockId],
    room: u64,
) -> Result<Search, NoMemory>
    requires { room < 2 ^ 32 }
    ensures { IfOk result (λ s. Found (part_in local.now) first.now room s.followed.items s.quanta) }
{
    let mut search = Search::new(alloc, room);
    search.begin(local, first)?;
    while let Some(id) = search.next() {
        search.follow(local, id)?;
    }
    Ok(search)
}
