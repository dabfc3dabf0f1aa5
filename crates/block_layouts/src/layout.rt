//! Layouts, and the sizes of their blocks.
ghost use Rattle.std.specs.Prelude.{◌≡◌, ◌≤◌, ◌<◌, ◌↔◌, [], Err, IfOk, IfErr, IsTrue, MatchResult, MatchOption, length};
ghost use Rattle.block_layouts.specs.Layouts.{len_of, class_at, first_words, quanta, kind_number, IsStrongAt, NoStrongWithin};
ghost use Rattle.block_layouts.specs.Letters.{Parses, IsNoLetter};

use crate::class_list::ClassList;
use crate::classes::{object_kind, object_words, strong_from, words_of};
use crate::letters::{classes_of, first_other};
use az_base::{Class, NoMemory, Word};
use std::alloc::Global;
use std::marker::Model;
use thiserror::Error;

/// The most words of a block.
pub const MOST_WORDS: u32 = 4096;

/// The shapes of blocks: AUTO_MEMORY_SCANNED of so many words, AUTO_MEMORY_UNSCANNED of so many words, or an object
/// with words of these classes.
#[derive(Debug, Drop)]
pub enum Shape {
    Scanned(u32),
    Unscanned(u32),
    Object(ClassList),
}

/// A shape of at most 4,096 words; an object has at least one word. Contracts see its shape.
#[derive(Debug, Drop)]
pub struct Layout {
    shape: Shape,
}

impl Model for Layout {
    ghost use Rattle.block_layouts.specs.declared.layout.Shape.{Shape};
    ghost use Rattle.block_layouts.specs.Shapes.{IsShape};

    ghost Value = { Shape };

    ghost view = { λ l. l.shape };

    ghost invariant = { λ l. IsShape l.shape };
}

/// Why there is no such layout.
#[derive(Clone, Copy, Debug, PartialEq, Eq, Error)]
pub enum LayoutErr {
    /// An object without words.
    #[error("Empty")]
    Empty,
    /// The character that begins at this byte is none of S, W and P.
    #[error("Letter")]
    Letter(u32),
    /// More than 4,096 words.
    #[error("TooLong")]
    TooLong,
    #[error("NoMemory")]
    NoMemory,
}

impl From<NoMemory> for LayoutErr {
    ghost use Rattle.std.specs.Prelude.{◌≡◌};
    ghost use Rattle.block_layouts.specs.declared.layout.LayoutErr.TheVariants as errors;

    ghost from_gives = { λ _ error. error ≡ errors.NoMemory };

    fn from(_error: NoMemory) -> LayoutErr {
        LayoutErr::NoMemory
    }
}

impl Layout {
    /// Memory that is scanned: so many Strong words.
    pub fn scanned(words: u32) -> Result<Layout, LayoutErr>
        ensures { MatchResult result (λ l. (words ≤ 4096) × (l ≡ Shape.Scanned words)) (λ e. (4096 < words) × (e ≡ LayoutErr.TooLong)) }
    {
        if words > MOST_WORDS {
            return Err(LayoutErr::TooLong);
        }
        Ok(Layout {
            shape: Shape::Scanned(words),
        })
    }

    /// Memory that isn't scanned: so many Plain words.
    pub fn unscanned(words: u32) -> Result<Layout, LayoutErr>
        ensures { MatchResult result (λ l. (words ≤ 4096) × (l ≡ Shape.Unscanned words)) (λ e. (4096 < words) × (e ≡ LayoutErr.TooLong)) }
    {
        if words > MOST_WORDS {
            return Err(LayoutErr::TooLong);
        }
        Ok(Layout {
            shape: Shape::Unscanned(words),
        })
    }

    /// An object with words of these classes. O(their number).
    pub fn object(alloc: Global, classes: &[Class]) -> Result<Layout, LayoutErr>
        ensures ok { IfOk result (λ l. l ≡ Shape.Object classes.now) }
        ensures empty { (result ≡ Err LayoutErr.Empty) ↔ (classes.now ≡ []) }
        ensures too_long { (result ≡ Err LayoutErr.TooLong) ↔ (4096 < length classes.now) }
        ensures no_letter { IfErr result IsNoLetter }
    {
        if classes.is_empty() {
            return Err(LayoutErr::Empty);
        }
        if classes.len() > MOST_WORDS as usize {
            return Err(LayoutErr::TooLong);
        }
        let classes = ClassList::from_slice(alloc, classes)?;
        Ok(Layout {
            shape: Shape::Object(classes),
        })
    }

    /// The object that a text of letters S, W and P says. O(bytes).
    pub fn parse(alloc: Global, text: &str) -> Result<Layout, LayoutErr>
        ensures { Parses text.now result }
    {
        let letters = text.as_bytes();
        if letters.is_empty() {
            return Err(LayoutErr::Empty);
        }
        if let Some(place) = first_other(letters) {
            return match u32::try_from(place) {
                Ok(place) => Err(LayoutErr::Letter(place)),
                Err(_) => Err(LayoutErr::TooLong),
            };
        }
        if letters.len() > MOST_WORDS as usize {
            return Err(LayoutErr::TooLong);
        }
        let classes = classes_of(alloc, letters)?;
        Ok(Layout {
            shape: Shape::Object(ClassList::from_vec(classes)),
        })
    }

    /// The shape. O(1).
    pub fn shape(&self) -> &Shape
        ensures { result.now ≡ self.now }
    {
        &self.shape
    }

    /// The number of words, at most 4,096. O(1).
    pub fn len(&self) -> u32
        ensures value { result ≡ len_of self.now }
        ensures range { result ≤ 4096 }
    {
        match &self.shape {
            Shape::Scanned(words) | Shape::Unscanned(words) => *words,
            Shape::Object(classes) => classes.as_slice().len() as u32,
        }
    }

    /// Whether a block of this layout has no word. O(1).
    pub fn is_empty(&self) -> bool
        ensures { IsTrue result ↔ (len_of self.now ≡ 0) }
    {
        self.len() == 0
    }

    /// The class of the word at a place, from 0; None exactly past the end. O(1).
    pub fn class_at(&self, at: u32) -> Option<Class>
        ensures { result ≡ class_at self.now at }
    {
        match &self.shape {
            Shape::Scanned(words) => (at < *words).then_some(Class::Strong),
            Shape::Unscanned(words) => (at < *words).then_some(Class::Plain),
            Shape::Object(classes) => classes.as_slice().get(at as usize).copied(),
        }
    }

    /// The size of a block in small quanta, 1 to 2,048. A small quantum has 2 words; above 64 words a block takes
    /// medium quanta of 128 words, each as 64 small ones. O(1).
    pub fn quanta(&self) -> u32
        ensures value { result ≡ quanta (len_of self.now) }
        ensures range { (1 ≤ result) × (result ≤ 2048) }
    {
        let words = self.len();
        if words == 0 {
            1
        } else if words <= 64 {
            words.div_ceil(2)
        } else {
            64 * words.div_ceil(128)
        }
    }

    /// 0 for scanned memory, 1 for unscanned memory, 2 for an object with a Strong word, 3 for another object.
    /// O(words).
    pub fn kind_number(&self) -> u32
        ensures { result ≡ kind_number self.now }
    {
        match &self.shape {
            Shape::Scanned(_) => 0,
            Shape::Unscanned(_) => 1,
            Shape::Object(classes) => object_kind(classes.as_slice()),
        }
    }

    /// The least place of a Strong word that is at least `from`. O(words passed over).
    pub fn strong_after(&self, from: u32) -> Option<u32>
        ensures { MatchOption result (NoStrongWithin self.now from (len_of self.now)) (λ at. (from ≤ at) × IsStrongAt self.now at × NoStrongWithin self.now from at) }
    {
        match &self.shape {
            Shape::Scanned(words) => (from < *words).then_some(from),
            Shape::Unscanned(_) => None,
            Shape::Object(classes) => strong_from(classes.as_slice(), from),
        }
    }

    /// The words of a new block: null, and 0 in Plain words. O(words).
    pub fn first_words(&self, alloc: Global) -> Result<Vec<Word>, NoMemory>
        ensures { IfOk result (λ words. words.items ≡ first_words self.now) }
    {
        match &self.shape {
            Shape::Scanned(words) => words_of(alloc, Word::Null, *words),
            Shape::Unscanned(words) => words_of(alloc, Word::Number(0), *words),
            Shape::Object(classes) => object_words(alloc, classes.as_slice()),
        }
    }

    /// An equal layout. O(words).
    pub fn try_copy(&self, alloc: Global) -> Result<Layout, NoMemory>
        ensures { IfOk result (λ l. l ≡ self.now) }
    {
        match &self.shape {
            Shape::Scanned(words) => Ok(Layout {
                shape: Shape::Scanned(*words),
            }),
            Shape::Unscanned(words) => Ok(Layout {
                shape: Shape::Unscanned(*words),
            }),
            Shape::Object(classes) => {
                let classes = ClassList::from_slice(alloc, classes.as_slice())?;
                Ok(Layout {
                    shape: Shape::Object(classes),
                })
            }
        }
    }
}
