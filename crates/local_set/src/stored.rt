//! One unescaped block.
ghost use Rattle.std.specs.Prelude.{◌≡◌, ◌≤◌, [], ◌∷◌, Some, false, length, nat_lt, slice_get, slice_set, IfOk};
ghost use Rattle.az_base.specs.declared.word.Word.TheVariants as word;
ghost use Rattle.block_layouts.specs.Layouts.{class_at, same_class, len_of, quanta};
ghost use Rattle.zone_model.specs.Part.{own_block};
ghost use Rattle.block_layouts.specs.Fitting.{Fits, FitsAt};
ghost use Rattle.local_set.specs.Calls.{word_misuse};
ghost use Rattle.local_set.specs.WordReferences.{references_in};

use az_base::{Class, Misuse, NoMemory, Word};
use block_layouts::Layout;
use std::alloc::Global;
use std::marker::Model;
use std::mem;

/// Whether two classes are one.
fn is_same(one: Class, other: Class) -> bool
    ensures { result ≡ same_class one other }
{
    one == other
}

/// 1 where the word refers to a block, and else 0.
fn references_of(word: Word) -> usize
    ensures { result ≡ references_in (word ∷ []) }
{
    match word {
        Word::Block(_) => 1,
        Word::Null | Word::Number(_) => 0,
    }
}

/// A block's layout and words, which are as the layout says, and how many of the words refer to a block. It has no
/// finaliser.
#[derive(Drop)]
pub struct OwnBlock {
    layout: Layout,
    words: Vec<Word>,
    references: usize,
}

impl Model for OwnBlock {
    ghost use Rattle.std.specs.Prelude.{◌≡◌, [], false, None};
    ghost use Rattle.zone_model.specs.State.{Block};
    ghost use Rattle.block_layouts.specs.Fitting.{Fits};
    ghost use Rattle.local_set.specs.WordReferences.{references_in};

    ghost Value = { Block };

    ghost view = { λ s. record { layout = s.layout; words = s.words.items; actions = []; finalised = false; since = None } };

    ghost invariant = { λ s. Fits s.layout s.words.items × (s.references ≡ references_in s.words.items) };
}

impl OwnBlock {
    /// A new block. O(words).
    pub fn new(alloc: Global, layout: &Layout) -> Result<OwnBlock, NoMemory>
        ensures { IfOk result (λ b. b ≡ own_block layout.now) }
    {
        let words = layout.first_words(alloc)?;
        let layout = layout.try_copy(alloc)?;
        Ok(OwnBlock {
            layout,
            words,
            references: 0,
        })
    }

    /// The least of NoWord and WrongClass where a word of this class is needed at the place.
    pub fn misuse(&self, at: u32, class: Class) -> Option<Misuse>
        ensures { result ≡ word_misuse false (Some self.now) at class }
    {
        match self.layout.class_at(at) {
            None => Some(Misuse::NoWord),
            Some(found) if is_same(found, class) => None,
            Some(_) => Some(Misuse::WrongClass),
        }
    }

    pub fn layout(&self) -> &Layout
        ensures { result.now ≡ self.now.layout }
    {
        &self.layout
    }

    pub fn words(&self) -> &[Word]
        ensures words { result.now ≡ self.now.words }
        ensures fit { Fits self.now.layout self.now.words }
    {
        self.words.as_slice()
    }

    /// Whether a word refers to a block. O(1).
    pub fn refers(&self) -> bool
        ensures { result ≡ nat_lt 0 (references_in self.now.words) }
    {
        self.references > 0
    }

    /// Another word at a place; the answer is the word that stood there.
    pub fn set_word(&mut self, at: u32, word: Word) -> Word
        requires { FitsAt self.old.layout at word }
        ensures new { self.new ≡ record self.old { words = slice_set self.old.words at word } }
        ensures old { slice_get self.old.words at ≡ Some result }
        ensures fit { FitsAt self.old.layout at result }
    {
        let word = &word;
        let old = &mem::replace(&mut self.words[at as usize], *word);
        self.references -= references_of(*old);
        self.references += references_of(*word);
        *old
    }

    /// Its layout and its words. It takes no memory.
    pub fn into_parts(self) -> (Layout, Vec<Word>)
        ensures parts { self ≡ record (own_block result.0) { words = result.1.items } }
        ensures fit { Fits result.0 result.1.items }
    {
        (self.layout, self.words)
    }
}
