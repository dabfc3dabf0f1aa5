//! The unescaped blocks of a thread.
ghost use Rattle.std.specs.Prelude.{◌≡◌, if◌then◌else◌, ◌≤◌, ◌+◌, ◌++◌, ◌∷◌, filter, IfOk, [], List, ℕ, Some, None, true, false, length, slice_get, slice_set, option_and_then, option_map, is_some, MatchOption, OnOk, OnErr, not};
ghost use Rattle.std.specs.List.{IsDistinct};
ghost use Rattle.std.specs.Map.{keys_of};
ghost use Rattle.std.specs.FinMap.{get, insert, contains_key, retain_keys};
ghost use Rattle.az_base.specs.declared.block_id.BlockId.{BlockId as ABlockId};
ghost use Rattle.az_base.specs.Ids.{same_id, among};
ghost use Rattle.az_base.specs.declared.word.Word.TheVariants as word;
ghost use Rattle.block_layouts.specs.Layouts.{len_of, quanta};
ghost use Rattle.zone_model.specs.State.{referent as referent_of, reference as reference_to, with_edit};
ghost use Rattle.zone_model.specs.Collection.{Lists};
ghost use Rattle.zone_model.specs.Quanta.{quanta_where};
ghost use Rattle.zone_model.specs.Part.{own_block};
ghost use Rattle.az_base.specs.declared.word.Class.TheVariants as class;
ghost use Rattle.block_layouts.specs.Fitting.{Fits, Suits};
ghost use Rattle.local_set.specs.LocalSets.{Table, blocks_of};
ghost use Rattle.local_set.specs.Counting.{count_in, IsBounded};
ghost use Rattle.zone_model.specs.Holds.{word_holds, words_to};
ghost use Rattle.local_set.specs.Calls.{MayHold, IsAt, word_misuse};
ghost use Rattle.local_set.specs.Tables.{AreThere, NotesChange, NotesReferents};

use crate::references::{References, referent};
use crate::stored::OwnBlock;
use az_base::{BlockId, Class, Misuse, NoMemory, Word};
use block_layouts::Layout;
use indexmap::{IndexMap, IndexSet};
use std::alloc::Global;
use std::marker::Model;
use zone_model::IdList;

/// The blocks by id, their quanta, and how many of their words refer to each block.
#[derive(Drop)]
pub struct Blocks {
    stored: IndexMap<BlockId, OwnBlock>,
    quanta: u32,
    references: References,
}

impl Model for Blocks {
    ghost use Rattle.local_set.specs.LocalSets.{Table};
    ghost use Rattle.local_set.specs.Counting.{IsTable};

    ghost Value = { Table };

    ghost view = { λ b. record { list = b.stored.entries; changed = b.references.changed.items } };

    ghost invariant = { IsTable };
}

impl Blocks {
    /// No block.
    pub fn new(alloc: Global) -> Blocks
        ensures list { result.list ≡ [] }
        ensures changed { result.changed ≡ [] }
    {
        Blocks {
            stored: IndexMap::new(alloc),
            quanta: 0,
            references: References::new(alloc),
        }
    }

    /// How many blocks there are. O(1).
    fn len(&self) -> usize
        ensures len { result ≡ length self.now.list }
        ensures unique { IsDistinct same_id (keys_of self.now.list) }
    {
        self.stored.len()
    }

    /// The quanta of the blocks. O(1).
    pub fn quanta(&self) -> u32
        ensures value { result ≡ quanta_where (λ id b. true) (blocks_of self.now.list) }
        ensures range { result ≤ 65536 }
    {
        self.quanta
    }

    /// In how many words the block stands. O(1) expected.
    pub fn holds(&self, id: BlockId) -> u32
        ensures value { result ≡ word_holds (blocks_of self.now.list) id }
        ensures range { result ≤ 131073 }
    {
        self.references.count(id)
    }

    /// The blocks of which that number may have changed.
    pub fn changed(&self) -> &[BlockId]
        ensures { result.now ≡ self.now.changed }
    {
        self.references.changed()
    }

    pub fn has(&self, id: BlockId) -> bool
        ensures { result ≡ contains_key (blocks_of self.now.list) id }
    {
        self.stored.contains_key(&id)
    }

    /// A hint where the block lies, for the calls that take one; None exactly where it isn't there. O(1) expected.
    pub fn hint(&self, id: BlockId) -> Option<usize>
        ensures { is_some result ≡ contains_key (blocks_of self.now.list) id }
    {
        self.stored.get_index_of(&id)
    }

    /// The least of NoWord and WrongClass where a word of this class of the block is needed. The block isn't looked up
    /// where the hint is right.
    pub fn misuse(&self, id: BlockId, at: u32, class: Class, hint: usize) -> Option<Misuse>
        requires { contains_key (blocks_of self.now.list) id ≡ true }
        ensures { result ≡ word_misuse false (get (blocks_of self.now.list) id) at class }
    {
        block_near(&self.stored, id, hint).misuse(at, class)
    }

    pub fn layout(&self, id: BlockId) -> &Layout
        requires { contains_key (blocks_of self.now.list) id ≡ true }
        ensures { option_map (λ b. b.layout) (get (blocks_of self.now.list) id) ≡ Some result.now }
    {
        let Some(block) = self.stored.get(&id) else {
            unreachable!()
        };
        block.layout()
    }

    /// The word at a place of a block.
    pub fn word(&self, id: BlockId, at: u32) -> Word
        requires { IsAt self.now.list id at }
        ensures { option_and_then (λ b. slice_get b.words at) (get (blocks_of self.now.list) id) ≡ Some result }
    {
        read(&self.stored, id, at, 0)
    }

    /// The reference in a Strong word of a block, which isn't looked up where the hint is right.
    pub fn reference(&self, id: BlockId, at: u32, hint: usize) -> Option<BlockId>
        requires { MayHold self.now.list id at word.Null }
        ensures { result ≡ referent_of (option_and_then (λ b. slice_get b.words at) (get (blocks_of self.now.list) id)) }
    {
        referent(read(&self.stored, id, at, hint))
    }

    /// The number in a Plain word of a block, which isn't looked up where the hint is right.
    pub fn number(&self, id: BlockId, at: u32, hint: usize) -> u64
        requires { MayHold self.now.list id at (word.Number 0) }
        ensures { option_and_then (λ b. slice_get b.words at) (get (blocks_of self.now.list) id) ≡ Some (word.Number result) }
    {
        number_in(read(&self.stored, id, at, hint))
    }

    /// The words of a block.
    pub fn words(&self, id: BlockId) -> &[Word]
        requires { contains_key (blocks_of self.now.list) id ≡ true }
        ensures words { option_map (λ b. b.words) (get (blocks_of self.now.list) id) ≡ Some result.now }
        ensures fit { MatchOption (get (blocks_of self.now.list) id) ⊥ (λ b. Fits b.layout b.words) }
    {
        let Some(block) = self.stored.get(&id) else {
            unreachable!()
        };
        block.words()
    }

    /// The layout and the words of a block.
    pub fn block(&self, id: BlockId) -> (&Layout, &[Word])
        requires { contains_key (blocks_of self.now.list) id ≡ true }
        ensures layout { option_map (λ b. b.layout) (get (blocks_of self.now.list) id) ≡ Some result.0.now }
        ensures words { option_map (λ b. b.words) (get (blocks_of self.now.list) id) ≡ Some result.1.now }
    {
        let Some(block) = self.stored.get(&id) else {
            unreachable!()
        };
        (block.layout(), block.words())
    }

    /// A Plain word gets a number. O(1) expected; it takes no memory.
    pub fn put(&mut self, id: BlockId, at: u32, number: u64)
        requires { MayHold self.old.list id at (word.Number number) }
        ensures blocks { blocks_of self.new.list ≡ with_edit (blocks_of self.old.list) id (λ b. record b { words = slice_set b.words at (word.Number number) }) }
        ensures changed { self.new.changed ≡ self.old.changed }
        ensures holds { (q : ABlockId) → word_holds (blocks_of self.new.list) q ≡ word_holds (blocks_of self.old.list) q }
    {
        let _ = write(&mut self.stored, id, at, Word::Number(number));
    }

    /// A Strong word gets a reference. O(1) expected; the hint saves one of two look-ups where it is right.
    pub fn store(
        &mut self,
        id: BlockId,
        at: u32,
        value: Option<BlockId>,
        hint: usize,
    ) -> Result<(), NoMemory>
        requires { MayHold self.old.list id at (reference_to value) }
        ensures blocks { OnOk result (blocks_of self.new.list ≡ with_edit (blocks_of self.old.list) id (λ b. record b { words = slice_set b.words at (reference_to value) })) }
        ensures notes { OnOk result (NotesChange self.old self.new) }
        ensures err { OnErr result (self.new ≡ self.old) }
    {
        let value = &value;
        let id = &id;
        let old = referent(read(&self.stored, *id, at, hint));
        self.references.replace(old, *value)?;
        let _ = write(&mut self.stored, *id, at, reference(*value));
        Ok(())
    }

    /// A new block, whose words refer to nothing. O(words).
    pub fn add(&mut self, alloc: Global, id: BlockId, layout: &Layout) -> Result<(), NoMemory>
        requires absent { get (blocks_of self.old.list) id ≡ None }
        requires fits { quanta_where (λ id b. true) (blocks_of self.old.list) + quanta (len_of layout.now) ≤ 65536 }
        ensures blocks { OnOk result (blocks_of self.new.list ≡ insert (blocks_of self.old.list) id (own_block layout.now)) }
        ensures holds { OnOk result ((q : ABlockId) → word_holds (blocks_of self.new.list) q ≡ word_holds (blocks_of self.old.list) q) }
        ensures changed { self.new.changed ≡ self.old.changed }
        ensures err { OnErr result (self.new ≡ self.old) }
    {
        let quanta = layout.quanta();
        let id = &id;
        let block = OwnBlock::new(alloc, layout)?;
        let _ = self.stored.insert(*id, block)?;
        self.quanta += quanta;
        Ok(())
    }

    /// A block is taken out. O(1) expected where none of its words refers to a block, and else O(words), of which each
    /// block has at most 4,096. It takes no memory.
    pub fn take(&mut self, id: BlockId) -> (Layout, Vec<Word>)
        requires { contains_key (blocks_of self.old.list) id ≡ true }
        ensures block { get (blocks_of self.old.list) id ≡ Some (record (own_block result.0) { words = result.1.items }) }
        ensures fit { Fits result.0 result.1.items }
        ensures blocks { blocks_of self.new.list ≡ retain_keys (blocks_of self.old.list) (λ q. not (same_id id q)) }
        ensures len { length self.new.list + 1 ≡ length self.old.list }
        ensures less { quanta_where (λ id b. true) (blocks_of self.new.list) ≤ quanta_where (λ id b. true) (blocks_of self.old.list) }
        ensures changed { self.new.changed ≡ self.old.changed }
    {
        let Some(block) = self.stored.swap_remove(&id) else {
            unreachable!()
        };
        self.quanta -= block.layout().quanta();
        forget_words(&mut self.references, &block);
        block.into_parts()
    }

    /// These blocks are taken out. O(their words) expected; it takes no memory.
    pub fn remove_all(&mut self, gone: &[BlockId])
        requires { AreThere self.old.list gone.now }
        ensures blocks { blocks_of self.new.list ≡ retain_keys (blocks_of self.old.list) (λ q. not (among gone.now q)) }
        ensures less { quanta_where (λ id b. true) (blocks_of self.new.list) ≤ quanta_where (λ id b. true) (blocks_of self.old.list) }
        ensures changed { self.new.changed ≡ self.old.changed }
    {
        for id in gone {
            let _ = self.take(*id);
        }
    }

    /// All blocks to which a word of these blocks refers are noted as changed.
    pub fn note_all(&mut self, gone: &[BlockId]) -> Result<(), NoMemory>
        requires { AreThere self.old.list gone.now }
        ensures list { self.new.list ≡ self.old.list }
        ensures ok { OnOk result (NotesReferents self.old self.new gone.now) }
        ensures err { OnErr result (self.new ≡ self.old) }
    {
        let before = self.references.changed().len();
        match self.note_each(gone) {
            Ok(()) => Ok(()),
            Err(NoMemory) => {
                self.references.unnote(before);
                Err(NoMemory)
            }
        }
    }

    /// Notes what each of these blocks refers to. What was noted before a refusal stays noted.
    fn note_each(&mut self, gone: &[BlockId]) -> Result<(), NoMemory>
        requires { AreThere self.old.list gone.now }
        ensures list { self.new.list ≡ self.old.list }
        ensures ok { OnOk result (NotesReferents self.old self.new gone.now) }
        ensures more { (more : List ABlockId) × (self.new.changed ≡ self.old.changed ++ more) }
    {
        for id in gone {
            self.note_one(*id)?;
        }
        Ok(())
    }

    /// All blocks to which a word of this block refers are noted as changed.
    fn note_one(&mut self, id: BlockId) -> Result<(), NoMemory>
        requires { contains_key (blocks_of self.old.list) id ≡ true }
        ensures list { self.new.list ≡ self.old.list }
        ensures ok { OnOk result (NotesReferents self.old self.new (id ∷ [])) }
        ensures more { (more : List ABlockId) × (self.new.changed ≡ self.old.changed ++ more) }
    {
        let Some(block) = self.stored.get(&id) else {
            unreachable!()
        };
        self.references.note_words(block.words())
    }

    /// From now on no block counts as changed. O(those that did).
    pub fn forget_changes(&mut self)
        ensures list { self.new.list ≡ self.old.list }
        ensures changed { self.new.changed ≡ [] }
    {
        self.references.unnote(0);
    }

    /// All blocks are gone, and none counts as changed. O(their words) expected.
    pub fn clear(&mut self)
        ensures list { self.new.list ≡ [] }
        ensures changed { self.new.changed ≡ [] }
    {
        while let Some(id) = self.nth(0) {
            let _ = self.take(id);
        }
        self.references.unnote(0);
    }

    /// The id at a position; None exactly from `len` on. O(1).
    fn nth(&self, n: usize) -> Option<BlockId>
        ensures { result ≡ slice_get (keys_of self.now.list) n }
    {
        match self.stored.get_index(n) {
            Some((id, _)) => Some(*id),
            None => None,
        }
    }

    /// The blocks that aren't among these, ascending. O(n log n) for n of them, and O(1) expected for each other block.
    pub fn ids_but(&self, alloc: Global, found: &IndexSet<BlockId>) -> Result<IdList, NoMemory>
        ensures { IfOk result (λ ids. Lists ids.list (λ b. (contains_key (blocks_of self.now.list) b ≡ true) × (among found.now.keys b ≡ false))) }
    {
        let mut ids = self.unsorted_but(alloc, found)?;
        ids.sort_unstable();
        Ok(IdList::from_vec(ids))
    }

    /// The blocks that aren't among these, in no special order.
    fn unsorted_but(
        &self,
        alloc: Global,
        found: &IndexSet<BlockId>,
    ) -> Result<Vec<BlockId>, NoMemory>
        ensures ids { IfOk result (λ ids. ids.items ≡ filter (λ b. not (among found.now.keys b)) (keys_of self.now.list)) }
        ensures unique { IsDistinct same_id (keys_of self.now.list) }
    {
        let mut ids = Vec::new(alloc);
        for n in 0..self.len() {
            let Some(id) = self.nth(n) else {
                unreachable!()
            };
            push_but(&mut ids, id, found)?;
        }
        Ok(ids)
    }
}

/// The words of the block, which is gone, count no more.
fn forget_words(references: &mut References, block: &OwnBlock)
    requires counted { (q : ABlockId) → words_to q block.now.words ≤ count_in references.old q }
    requires bounded { IsBounded references.old }
    ensures counts { (q : ABlockId) → count_in references.new q + words_to q block.now.words ≡ count_in references.old q }
    ensures bounded { IsBounded references.new }
    ensures changed { references.new.changed ≡ references.old.changed }
{
    if block.refers() {
        references.forget(block.words());
    }
}

/// The id is put behind the others, unless it is among the found ones.
fn push_but(ids: &mut Vec<BlockId>, id: BlockId, found: &IndexSet<BlockId>) -> Result<(), NoMemory>
    ensures { OnOk result (ids.new.items ≡ ids.old.items ++ (if among found.now.keys id then [] else id ∷ [])) }
{
    if found.contains(&id) {
        return Ok(());
    }
    ids.push(id)?;
    Ok(())
}

/// A block, which isn't looked up where the hint is right.
#[inline(always)]
fn block_near(stored: &IndexMap<BlockId, OwnBlock>, id: BlockId, hint: usize) -> &OwnBlock
    requires { contains_key (blocks_of stored.now.entries) id ≡ true }
    ensures { get (blocks_of stored.now.entries) id ≡ Some result.now }
{
    if let Some((key, block)) = stored.get_index(hint) {
        if *key == id {
            return block;
        }
    }
    let Some(block) = stored.get(&id) else {
        unreachable!()
    };
    block
}

/// The word at a place of a block, which isn't looked up where the hint is right.
#[inline(always)]
fn read(stored: &IndexMap<BlockId, OwnBlock>, id: BlockId, at: u32, hint: usize) -> Word
    requires { IsAt stored.now.entries id at }
    ensures word { option_and_then (λ b. slice_get b.words at) (get (blocks_of stored.now.entries) id) ≡ Some result }
    ensures fit { MayHold stored.now.entries id at result }
{
    block_near(stored, id, hint).words()[at as usize]
}

/// Another word at a place of a block; the answer is the word that stood there.
fn write(stored: &mut IndexMap<BlockId, OwnBlock>, id: BlockId, at: u32, word: Word) -> Word
    requires { MayHold stored.old.entries id at word }
    ensures blocks { blocks_of stored.new.entries ≡ with_edit (blocks_of stored.old.entries) id (λ b. record b { words = slice_set b.words at word }) }
    ensures old { option_and_then (λ b. slice_get b.words at) (get (blocks_of stored.old.entries) id) ≡ Some result }
    ensures fit { MayHold stored.old.entries id at result }
{
    let Some(block) = stored.get_mut(&id) else {
        unreachable!()
    };
    block.set_word(at, word)
}

/// The number in a word.
fn number_in(plain: Word) -> u64
    requires { Suits class.Plain plain }
    ensures { plain ≡ word.Number result }
{
    match plain {
        Word::Number(number) => number,
        Word::Null | Word::Block(_) => unreachable!(),
    }
}

/// The word that refers to a block, or to none.
fn reference(id: Option<BlockId>) -> Word
    ensures { result ≡ reference_to id }
{
    match id {
        None => Word::Null,
        Some(id) => Word::Block(id),
    }
}
