//! The blocks by id and by position.
ghost use Rattle.std.specs.Prelude.{List, ◌≡◌, ◌<◌, ◌≤◌, ◌+◌, ◌*◌, ◌⊎◌, ◌&&◌, ◌++◌, ◌^◌, ℕ, [], None, Some, true, false, is_some, not, length, map, IsOk, IsSome, IsTrue, IfSome, OnOk, OnErr, MatchOption, option_and_then, option_map, slice_get, slice_set};
ghost use Rattle.std.specs.Option.{option_map_or};
ghost use Rattle.std.specs.FinMap.{get, contains_key, empty};
ghost use Rattle.az_base.specs.declared.block_id.BlockId.{BlockId};
ghost use Rattle.az_base.specs.Ids.{among};
ghost use Rattle.block_layouts.specs.Fitting.{FitsAt, Fits};
ghost use Rattle.block_layouts.specs.Layouts.{class_at, len_of};
ghost use Rattle.zone_model.specs.State.{with_edit};
ghost use Rattle.block_table.specs.Holds.{times, with_times, held_once};
ghost use Rattle.block_table.specs.Places.{NextOf, PlaceOf, in_word};
ghost use Rattle.block_space.specs.Marking.{len_in};
ghost use Rattle.indexmap.specs.IndexMap.{spare};
ghost use Rattle.space_graph.specs.Graphs.{IsForgotten, spot_for};
ghost use Rattle.block_table.specs.Lying.{Kept' as AKept, AreLying, entries_of, HasLess, HasOneLess, IsPutWith, IsWrittenTo, lying_table};
ghost use Rattle.block_table.specs.Stored.{IsWhole, newly, older};
ghost use Rattle.block_table.specs.Table.{AreApart, AreRemoved, IsTable, is_held_in, is_young_at, no_blocks, used_by, with_block, words_in};

use crate::kept::Kept;
use crate::reading;
use az_base::{Action, BlockId, Class, NoMemory, ThreadNo, Word};
use block_layouts::Layout;
use indexmap::IndexMap;
use quantum_space::{Graph, Spot};
use space_graph::SpaceGraph;
use std::alloc::Global;
use std::marker::Model;

/// The blocks where they lie, with room for more, and what is kept of each beside.
#[derive(Drop)]
pub struct BlockTable {
    pub(crate) graph: SpaceGraph,
    kept: IndexMap<BlockId, Kept>,
    /// The quanta of all blocks.
    used: u64,
}

impl Model for BlockTable {
    ghost use Rattle.indexmap.specs.IndexMap.{spare};
    ghost use Rattle.block_table.specs.Codes.{coded_table};
    ghost use Rattle.block_table.specs.Table.{Table};
    ghost use Rattle.block_table.specs.Lying.{AreLying, lying_table};

    ghost Value = { Table };

    ghost coded = { coded_table };

    ghost view = { λ b. lying_table b.graph b.kept.entries };

    ghost invariant = { λ b. AreLying b.graph b.kept.entries b.used (spare b.kept) };
}

impl BlockTable {
    /// No block, and room for none.
    pub fn new(alloc: Global) -> BlockTable
        ensures { result ≡ no_blocks }
    {
        BlockTable {
            graph: SpaceGraph::new(alloc),
            kept: IndexMap::new(alloc),
            used: 0,
        }
    }

    /// Room for blocks of these lengths, which are to come after those for which there is room. O(lengths), and what the
    /// space and the table add.
    pub fn reserve(&mut self, lengths: &[u32]) -> Result<(), NoMemory>
        ensures ok { OnOk result (self.new ≡ record self.old { room = self.old.room ++ lengths.now }) }
        ensures err { OnErr result (self.new ≡ self.old) }
    {
        let more = self.graph.space().to_come().saturating_add(lengths.len());
        if (self.graph.len() as usize).saturating_add(more) > u32::MAX as usize {
            return Err(NoMemory);
        }
        if self.used > u64::MAX - 2048 * more as u64 {
            return Err(NoMemory);
        }
        self.kept.reserve(more)?;
        self.graph.reserve(lengths)
    }

    /// Gives up the room that is left.
    pub fn unreserve(&mut self)
        ensures { self.new ≡ record self.old { room = [] } }
    {
        self.graph.unreserve();
    }

    pub fn has(&self, id: BlockId) -> bool
        ensures { result ≡ contains_key self.now.blocks id }
    {
        self.graph.has(id)
    }

    /// How many blocks there are.
    pub fn len(&self) -> u32
        ensures value { result ≡ length self.now.order }
        ensures table { IsTable self.now }
    {
        self.graph.is_graph();
        self.graph.len()
    }

    /// The small quanta that the blocks take.
    pub fn used(&self) -> u64
        ensures { result ≡ used_by self.now.blocks }
    {
        self.used
    }

    /// The block at a position; None exactly from `len` on.
    pub fn nth(&self, n: u32) -> Option<BlockId>
        ensures { result ≡ slice_get self.now.order n }
    {
        self.graph.nth(n)
    }

    /// The position of a block; None exactly where it isn't there.
    pub fn position(&self, id: BlockId) -> Option<u32>
        ensures { PlaceOf self.now.order id result }
    {
        self.graph.is_graph();
        self.graph.position(id)
    }

    /// How many of the first positions were there at the last `begin`.
    pub fn began(&self) -> u32
        ensures { result ≡ self.now.began }
    {
        self.graph.began()
    }

    /// A cycle begins: the blocks that there are now are its blocks.
    pub fn begin(&mut self)
        ensures value { self.new ≡ record self.old { began = length self.old.order } }
        ensures table { IsTable self.new }
    {
        self.graph.is_graph();
        self.graph.begin();
    }

    /// The class of a word of a block, where both are there. The block isn't looked up where the hint is right.
    #[inline(always)]
    pub fn class_at(&self, id: BlockId, at: u32, hint: u32) -> Option<Class>
        ensures { result ≡ option_and_then (λ k. class_at k.layout at) (get self.now.blocks id) }
    {
        match self.graph.find_near(id, hint) {
            Some(spot) => reading::class_at(self.graph.space(), spot, at),
            None => None,
        }
    }

    /// A hint where the block at a position lies, for the calls that take one. O(1).
    pub fn hint(&self, n: u32) -> u32 {
        self.graph.hint(n)
    }

    /// A hint where a block lies, for several calls that take one: it is looked up once for all of them.
    pub fn hint_for(&self, id: BlockId) -> u32 {
        self.graph.hint_for(id)
    }

    /// How many words the block has, at most 4,096; 0 where it isn't there. It isn't looked up where the hint is right.
    pub fn words(&self, id: BlockId, hint: u32) -> u32
        ensures value { result ≡ length (words_in self.now.blocks id) }
        ensures range { result ≤ 4096 }
    {
        match self.graph.find_near(id, hint) {
            Some(spot) => self.graph.space().len_in(spot),
            None => 0,
        }
    }

    /// A word of a block, where both are there. The block isn't looked up where the hint is right.
    pub fn word(&self, id: BlockId, at: u32, hint: u32) -> Option<Word>
        ensures word { result ≡ option_and_then (λ k. slice_get k.words at) (get self.now.blocks id) }
        ensures whole { IfSome (get self.now.blocks id) IsWhole }
    {
        match self.graph.find_near(id, hint) {
            Some(spot) => reading::word_at(self.graph.space(), spot, at),
            None => None,
        }
    }

    /// Another word of a block. It isn't looked up where the hint is right.
    #[inline(always)]
    pub fn set_word(&mut self, id: BlockId, at: u32, word: Word, hint: u32)
        requires { MatchOption (get self.old.blocks id) ⊥ (λ k. FitsAt k.layout at word) }
        ensures { self.new ≡ record self.old { blocks = with_edit self.old.blocks id (λ k. record k { words = slice_set k.words at word }) } }
    {
        self.graph.is_graph();
        self.graph.space().is_sound();
        let Some(spot) = self.graph.find_near(id, hint) else {
            unreachable!()
        };
        self.graph.set_word(spot, at, word);
    }

    /// The first block that a word refers to, from a place on, and the place after it; None where there is none, or no
    /// such block. It looks at Strong words alone. The block isn't looked up where the hint is right.
    pub fn next_word(&self, id: BlockId, at: u32, hint: u32) -> Option<(BlockId, u32)>
        ensures next { NextOf (map in_word (words_in self.now.blocks id)) at result }
        ensures few { length (words_in self.now.blocks id) ≤ 4096 }
    {
        match self.graph.find_near(id, hint) {
            Some(spot) => reading::next_word(self.graph.space(), spot, at),
            None => None,
        }
    }

    /// The n-th action of a block, from 0; None exactly past the end. A block that isn't there has none.
    pub fn action(&self, id: BlockId, n: u32) -> Option<Action>
        ensures action { result ≡ option_and_then (λ k. slice_get k.actions n) (get self.now.blocks id) }
        ensures whole { IfSome (get self.now.blocks id) IsWhole }
    {
        match self.kept.get(&id) {
            Some(kept) => kept.action(n),
            None => None,
        }
    }

    /// Whether the block is there and its finaliser has run.
    pub fn is_finalised(&self, id: BlockId) -> bool
        ensures { result ≡ option_map_or (λ k. k.finalised) (get self.now.blocks id) false }
    {
        match self.kept.get(&id) {
            Some(kept) => kept.is_finalised(),
            None => false,
        }
    }

    /// The finaliser of a block has run, if it is there.
    pub fn set_finalised(&mut self, id: BlockId)
        ensures { self.new ≡ record self.old { blocks = with_edit self.old.blocks id (λ k. record k { finalised = true }) } }
    {
        let Some(kept) = self.kept.get_mut(&id) else {
            return;
        };
        kept.set_finalised();
    }

    /// Whether the block is there, and younger than 3.
    pub fn is_young(&self, id: BlockId) -> bool
        ensures { result ≡ is_young_at self.now.blocks id }
    {
        self.graph.is_young(id)
    }

    /// Whether the block is there, and of age 3. It isn't looked up where the hint is right.
    pub fn is_old(&self, id: BlockId, hint: u32) -> bool
        ensures { result ≡ contains_key self.now.blocks id && not (is_young_at self.now.blocks id) }
    {
        self.graph.is_old(id, hint)
    }

    /// The age of each block rises by one, to at most 3.
    pub fn age_all(&mut self)
        ensures blocks { (b : BlockId) → get self.new.blocks b ≡ option_map older (get self.old.blocks b) }
        ensures rest { self.new ≡ record self.old { blocks = self.new.blocks } }
    {
        self.graph.is_graph();
        self.graph.space().is_sound();
        self.graph.age_all();
    }

    /// How often the thread holds a block; 0 where it isn't there.
    pub fn times(&self, t: ThreadNo, id: BlockId) -> u32
        ensures { result ≡ option_map_or (λ m. times m t) (get self.now.holds id) 0 }
    {
        match self.kept.get(&id) {
            Some(kept) => kept.times(t),
            None => 0,
        }
    }

    /// From now on the thread holds the block `n` times, if it is there. Where no thread holds it, or this one does, it
    /// takes no memory.
    pub fn set_times(&mut self, t: ThreadNo, id: BlockId, n: u32) -> Result<(), NoMemory>
        ensures ok { OnOk result (self.new ≡ record self.old { holds = with_edit self.old.holds id (λ m. with_times m t n) }) }
        ensures err { OnErr result (self.new ≡ self.old) }
        ensures keys { is_some (get self.old.holds id) ≡ is_some (get self.old.blocks id) }
        ensures sure { MatchOption (get self.old.holds id) (IsOk result) (λ m. (n ≡ 0) ⊎ ((0 < times m t) ⊎ (m ≡ empty)) → IsOk result) }
    {
        let Some(kept) = self.kept.get_mut(&id) else {
            return Ok(());
        };
        kept.set_times(t, n)
    }

    /// Whether there is a block at a position, and a thread holds it.
    pub fn nth_is_held(&self, n: u32) -> bool
        ensures { result ≡ option_map_or (is_held_in self.now.holds) (slice_get self.now.order n) false }
    {
        match self.graph.nth(n) {
            Some(id) => self.is_held_near(id, n),
            None => false,
        }
    }

    /// Whether a thread holds the block. It isn't looked up where what is kept of it stands at the position.
    fn is_held_near(&self, id: BlockId, n: u32) -> bool
        ensures { result ≡ is_held_in self.now.holds id }
    {
        let Some((key, kept)) = self.kept.get_index(n as usize) else {
            return self.is_held(id);
        };
        if *key == id {
            kept.is_held()
        } else {
            self.is_held(id)
        }
    }

    /// Whether a thread holds the block.
    pub fn is_held(&self, id: BlockId) -> bool
        ensures { result ≡ is_held_in self.now.holds id }
    {
        match self.kept.get(&id) {
            Some(kept) => kept.is_held(),
            None => false,
        }
    }

    /// A block comes in, last of all: black, of age 0, not finalised, and held once by the thread, if there is one. It
    /// takes no memory.
    pub fn insert(
        &mut self,
        id: BlockId,
        layout: Layout,
        words: Vec<Word>,
        actions: Vec<Action>,
        holder: Option<ThreadNo>,
    )
        requires room { slice_get self.old.room 0 ≡ Some (len_of layout) }
        requires absent { get self.old.blocks id ≡ None }
        requires fits { Fits layout words.items }
        requires few { length actions.items ≤ 8 }
        ensures { self.new ≡ with_block self.old id (newly layout words.items actions.items) (held_once holder) }
    {
        let alloc = *words.allocator();
        self.graph.is_graph();
        self.used += u64::from(layout.quanta());
        put_words(&mut self.graph, id, layout, &words);
        let kept = born(alloc, actions, holder);
        let Ok(_) = self.kept.insert(id, kept) else {
            unreachable!()
        };
    }

    /// These blocks go, and with them the room that is left. The others may have other positions then, and all are blocks of
    /// the next cycle. O(words and quanta of the blocks that go) expected.
    pub fn remove_all(&mut self, ids: &[BlockId])
        requires there { (b : BlockId) → IsTrue (among ids.now b) → IsSome (get self.old.blocks b) }
        requires apart { AreApart self.old.blocks ids.now }
        ensures removed { AreRemoved self.old ids.now self.new }
        ensures table { IsTable self.new }
    {
        forget(&mut self.graph, ids);
        take_out_all(&mut self.graph, &mut self.kept, &mut self.used, ids);
        self.graph.is_graph();
    }
}

/// What is kept of a block that has just escaped, which the thread, if there is one, holds once. It takes no memory.
fn born(alloc: Global, actions: Vec<Action>, holder: Option<ThreadNo>) -> Kept
    requires { length actions.items ≤ 8 }
    ensures { result ≡ record { actions = actions.items; holds = held_once holder; finalised = false } }
{
    let mut kept = Kept::new(alloc, actions);
    if let Some(t) = holder {
        let Ok(()) = kept.set_times(t, 1) else {
            unreachable!()
        };
    }
    kept
}

/// A block comes, with these words.
fn put_words(graph: &mut SpaceGraph, id: BlockId, layout: Layout, words: &[Word])
    requires next { slice_get graph.old.space.spare 0 ≡ Some (len_of layout) }
    requires absent { spot_for graph.old.rows id ≡ None }
    requires fits { Fits layout words.now }
    ensures { IsPutWith graph.old id layout words.now graph.new }
{
    let spot = graph.put(id, layout);
    write_words(graph, spot, words);
}

/// These are the words of a block.
fn write_words(graph: &mut SpaceGraph, spot: Spot, words: &[Word])
    requires { length words.now ≡ len_in graph.old.space spot }
    ensures { IsWrittenTo graph.old spot words.now (length words.now) graph.new }
{
    let len = graph.space().len_in(spot);
    for n in 0..len {
        graph.space().is_sound();
        graph.set_word(spot, n, words[n as usize]);
    }
}

/// No word knows any more where these blocks lie, there is no room for others, and all blocks are those of the next cycle.
fn forget(graph: &mut SpaceGraph, ids: &[BlockId])
    ensures entries { (ks : List (BlockId × AKept)) → entries_of graph.new ks ≡ entries_of graph.old ks }
    ensures forgotten { (ks : List (BlockId × AKept)) → AreApart (lying_table graph.old ks).blocks ids.now → (b : BlockId) → IsTrue (among ids.now b) → IsForgotten graph.new b }
    ensures all { graph.new.began ≡ length graph.new.rows }
    ensures spare { graph.new.space.spare ≡ [] }
    ensures lying { (ks : List (BlockId × AKept)) (used room : ℕ) → AreLying graph.old ks used room → AreLying graph.new ks used room }
{
    graph.unreserve();
    graph.begin();
    graph.is_graph();
    graph.forget_all(ids);
}

/// These blocks go, of which no word knows where they lie.
fn take_out_all(
    graph: &mut SpaceGraph,
    kept: &mut IndexMap<BlockId, Kept>,
    used: &mut u64,
    ids: &[BlockId],
)
    requires forgotten { (b : BlockId) → IsTrue (among ids.now b) → IsForgotten graph.old b }
    requires all { graph.old.began ≡ length graph.old.rows }
    requires lying { AreLying graph.old kept.old.entries used.old (spare kept.old) }
    ensures lying { AreLying graph.new kept.new.entries used.new (spare kept.new) }
    ensures less { HasLess (lying_table graph.old kept.old.entries) ids.now (lying_table graph.new kept.new.entries) }
    ensures all { graph.new.began ≡ length graph.new.rows }
{
    for n in 0..ids.len() {
        take_out(graph, kept, used, ids[n]);
    }
}

/// A block goes, if it is there, of which no word knows where it lies.
fn take_out(graph: &mut SpaceGraph, kept: &mut IndexMap<BlockId, Kept>, used: &mut u64, id: BlockId)
    requires forgotten { IsForgotten graph.old id }
    requires all { graph.old.began ≡ length graph.old.rows }
    requires lying { AreLying graph.old kept.old.entries used.old (spare kept.old) }
    ensures lying { AreLying graph.new kept.new.entries used.new (spare kept.new) }
    ensures less { HasOneLess (lying_table graph.old kept.old.entries) id (lying_table graph.new kept.new.entries) }
    ensures all { graph.new.began ≡ length graph.new.rows }
    ensures forgotten { (b : BlockId) → IsForgotten graph.old b → IsForgotten graph.new b }
{
    let Some(spot) = graph.find(id) else {
        return;
    };
    graph.is_graph();
    let gone = u64::from(reading::quanta(graph.space(), spot));
    graph.remove(id);
    let _ = kept.swap_remove(&id);
    *used -= gone;
}
