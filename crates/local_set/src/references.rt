//! How many words refer to each block.
ghost use Rattle.std.specs.Prelude.{◌≡◌, ◌≤◌, ◌<◌, ◌+◌, ◌++◌, [], List, Some, take, OnOk, OnErr};
ghost use Rattle.std.specs.FinMap as map;
ghost use Rattle.std.specs.Vec.{vec_len, vec_capacity};
ghost use Rattle.az_base.specs.declared.block_id.BlockId.{BlockId as ABlockId};
ghost use Rattle.az_base.specs.Ids.{among};
ghost use Rattle.retain_table.specs.Counted.{count_of};
ghost use Rattle.zone_model.specs.State.{referent as referent_of};
ghost use Rattle.zone_model.specs.Holds.{one_if, words_to};

use az_base::{BlockId, NoMemory, Word};
use retain_table::Counts;
use std::alloc::Global;

/// How many words refer to each block, and the blocks of which that number may have changed since they were last
/// published.
#[derive(Drop)]
pub struct References {
    counts: Counts,
    changed: Vec<BlockId>,
}

/// As many words as the unescaped blocks of a thread can have, and one more while a store is under way.
const MOST: u32 = 131_073;

impl References {
    ghost use Rattle.local_set.specs.Counting.{count_in, IsCounted, list_of, referents, SameCounts, Replaced, IsBounded};

    /// Nothing refers to any block.
    pub fn new(alloc: Global) -> References
        ensures counts { result.counts.counts ≡ map.empty }
        ensures changed { result.changed.items ≡ [] }
    {
        References {
            counts: Counts::new(alloc),
            changed: Vec::new(alloc),
        }
    }

    /// How many words refer to the block. O(1) expected.
    pub fn count(&self, id: BlockId) -> u32
        ensures { result ≡ count_in self.now id }
    {
        self.counts.count(id)
    }

    /// The blocks of which the number may have changed.
    pub fn changed(&self) -> &[BlockId]
        ensures { result.now ≡ self.now.changed.items }
    {
        self.changed.as_slice()
    }

    /// One word more refers to the block, if there is one.
    fn raise(&mut self, id: Option<BlockId>) -> Result<(), NoMemory>
        requires { IsBounded self.old }
        ensures ok { OnOk result ((q : ABlockId) → count_in self.new q ≡ count_in self.old q + one_if q id) }
        ensures bounded { OnOk result (IsBounded self.new) }
        ensures err { OnErr result (self.new.counts.counts ≡ self.old.counts.counts) }
        ensures changed { self.new.changed ≡ self.old.changed }
    {
        let Some(id) = id else {
            return Ok(());
        };
        match self.counts.raise(id, MOST) {
            Ok(_) => Ok(()),
            Err(_) => Err(NoMemory),
        }
    }

    /// One word less refers to the block, if there is one.
    fn lower(&mut self, id: Option<BlockId>)
        requires counted { IsCounted self.old id }
        requires bounded { IsBounded self.old }
        ensures counts { (q : ABlockId) → count_in self.new q + one_if q id ≡ count_in self.old q }
        ensures bounded { IsBounded self.new }
        ensures changed { self.new.changed ≡ self.old.changed }
    {
        let Some(id) = id else {
            return;
        };
        let Ok(_) = self.counts.lower(id) else {
            unreachable!()
        };
    }

    /// The number may have changed; there is room to note it.
    fn note(&mut self, id: Option<BlockId>)
        requires { vec_len self.old.changed < vec_capacity self.old.changed }
        ensures changed { self.new.changed.items ≡ self.old.changed.items ++ list_of id }
        ensures room { vec_capacity self.new.changed ≡ vec_capacity self.old.changed }
        ensures len { vec_len self.new.changed ≤ vec_len self.old.changed + 1 }
        ensures counts { self.new.counts ≡ self.old.counts }
    {
        let Some(id) = id else {
            return;
        };
        self.changed.push_reserved(id);
    }

    /// A word that referred to one block refers to the other. O(1) expected.
    pub fn replace(&mut self, from: Option<BlockId>, to: Option<BlockId>) -> Result<(), NoMemory>
        requires counted { IsCounted self.old from }
        requires bounded { IsBounded self.old }
        ensures ok { OnOk result (Replaced self.old self.new from to) }
        ensures err { OnErr result (SameCounts self.old self.new) }
        ensures bounded { IsBounded self.new }
    {
        let (from, to) = (&from, &to);
        self.changed.reserve(2)?;
        self.raise(*to)?;
        self.lower(*from);
        self.note(*from);
        self.note(*to);
        Ok(())
    }

    /// These words are gone. O(words) expected; it takes no memory.
    pub fn forget(&mut self, words: &[Word])
        requires counted { (q : ABlockId) → words_to q words.now ≤ count_in self.old q }
        requires bounded { IsBounded self.old }
        ensures counts { (q : ABlockId) → count_in self.new q + words_to q words.now ≡ count_in self.old q }
        ensures bounded { IsBounded self.new }
        ensures changed { self.new.changed ≡ self.old.changed }
    {
        for word in words {
            self.lower(referent(*word));
        }
    }

    /// The numbers of all blocks to which these words refer may change. O(words).
    pub fn note_words(&mut self, words: &[Word]) -> Result<(), NoMemory>
        ensures ok { OnOk result (self.new.changed.items ≡ self.old.changed.items ++ referents words.now) }
        ensures more { (more : List ABlockId) × (self.new.changed.items ≡ self.old.changed.items ++ more) }
        ensures counts { self.new.counts ≡ self.old.counts }
    {
        for word in words {
            self.note_more(referent(*word))?;
        }
        Ok(())
    }

    /// The number of the block, if there is one, may change.
    fn note_more(&mut self, id: Option<BlockId>) -> Result<(), NoMemory>
        ensures ok { OnOk result (self.new.changed.items ≡ self.old.changed.items ++ list_of id) }
        ensures err { OnErr result (self.new.changed.items ≡ self.old.changed.items) }
        ensures counts { self.new.counts ≡ self.old.counts }
    {
        let Some(id) = id else {
            return Ok(());
        };
        self.changed.push(id)?;
        Ok(())
    }

    /// The first `n` of the noted blocks stay noted.
    pub fn unnote(&mut self, n: usize)
        ensures changed { self.new.changed.items ≡ take n self.old.changed.items }
        ensures counts { self.new.counts ≡ self.old.counts }
    {
        self.changed.truncate(n);
    }
}

/// The block to which a word refers.
pub fn referent(word: Word) -> Option<BlockId>
    ensures { result ≡ referent_of (Some word) }
{
    match word {
        Word::Block(id) => Some(id),
        Word::Null | Word::Number(_) => None,
    }
}
