//! Words of the block that begins at a quantum.
ghost use Rattle.std.specs.Prelude.{◌≡◌, ◌<◌, ◌≤◌, MatchOption, map, slice_get, length, option_and_then};
ghost use Rattle.block_layouts.specs.Fitting.{Fits};
ghost use Rattle.block_layouts.specs.Layouts.{NoStrongWithin, class_at, len_of, quanta};
ghost use Rattle.block_space.specs.Marking.{HasBlockIn, len_in};
ghost use Rattle.block_table.specs.Places.{NextOf, in_word};
ghost use Rattle.block_table.specs.Lying.{layout_at, words_at};

use az_base::{BlockId, Class, Word};
use block_space::Space;
use quantum_space::Spot;

/// A word; None exactly past the end. O(1).
pub fn word_at(space: &Space, spot: Spot, at: u32) -> Option<Word>
    ensures { result ≡ slice_get (words_at space.now spot) at }
{
    if at < space.len_in(spot) {
        Some(space.word_in(spot, at).word())
    } else {
        None
    }
}

/// The class of a word; None exactly past the end. O(1).
pub fn class_at(space: &Space, spot: Spot, at: u32) -> Option<Class>
    requires { HasBlockIn space.now spot }
    ensures { result ≡ class_at (layout_at space.now spot) at }
{
    match space.layout_in(spot) {
        Some(layout) => layout.class_at(at),
        None => unreachable!(),
    }
}

/// The small quanta that the block takes. O(1).
pub fn quanta(space: &Space, spot: Spot) -> u32
    requires { HasBlockIn space.now spot }
    ensures { result ≡ quanta (len_of (layout_at space.now spot)) }
{
    match space.layout_in(spot) {
        Some(layout) => layout.quanta(),
        None => unreachable!(),
    }
}

/// The block to which the word at a place refers, if there is one.
fn reference(space: &Space, spot: Spot, at: u32) -> Option<BlockId>
    ensures { result ≡ option_and_then in_word (slice_get (words_at space.now spot) at) }
{
    match word_at(space, spot, at) {
        Some(word) => referent(word),
        None => None,
    }
}

/// The least place of a Strong word from one on.
fn strong_after(space: &Space, spot: Spot, at: u32) -> Option<u32>
    requires { HasBlockIn space.now spot }
    ensures { MatchOption result (NoStrongWithin (layout_at space.now spot) at (len_of (layout_at space.now spot))) (λ n. (at ≤ n) × NoStrongWithin (layout_at space.now spot) at n) }
{
    match space.layout_in(spot) {
        Some(layout) => layout.strong_after(at),
        None => unreachable!(),
    }
}

/// The first block to which a word refers, from a place on, and the place after it. O(1) where no Strong word is left.
pub fn next_word(space: &Space, spot: Spot, at: u32) -> Option<(BlockId, u32)>
    requires block { HasBlockIn space.now spot }
    requires fits { Fits (layout_at space.now spot) (words_at space.now spot) }
    ensures next { NextOf (map in_word (words_at space.now spot)) at result }
    ensures few { length (words_at space.now spot) ≤ 4096 }
{
    let len = space.len_in(spot);
    let Some(first) = strong_after(space, spot, at) else {
        return None;
    };
    for place in first..len {
        if let Some(id) = reference(space, spot, place) {
            return Some((id, place + 1));
        }
    }
    None
}

/// The block to which a word refers, if it refers to one.
fn referent(word: Word) -> Option<BlockId>
    ensures { result ≡ in_word word }
{
    match word {
        Word::Block(id) => Some(id),
        Word::Null | Word::Number(_) => None,
    }
}
