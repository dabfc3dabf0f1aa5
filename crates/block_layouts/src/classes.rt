//! The words of an object, from the list of their classes.
ghost use Rattle.std.specs.Prelude.{◌≡◌, ◌≢◌, ◌≤◌, ◌<◌, ℕ, Some, IfOk, MatchOption, map, length, slice_get, replicate};
ghost use Rattle.az_base.specs.declared.word.Class.TheVariants.{Strong};
ghost use Rattle.block_layouts.specs.Layouts.{first_word, object_kind, IsStrongAt, NoStrongWithin};
ghost use Rattle.block_layouts.specs.declared.layout.Shape.TheVariants.{Object};

use az_base::{Class, NoMemory, Word};
use std::alloc::Global;

/// 2 where there is a Strong word, else 3.
pub fn object_kind(classes: &[Class]) -> u32
    ensures { result ≡ object_kind classes.now }
{
    if classes.contains(&Class::Strong) {
        2
    } else {
        3
    }
}

/// The least place of a Strong word that is at least `from`.
pub fn strong_from(classes: &[Class], from: u32) -> Option<u32>
    requires { length classes.now ≤ 4096 }
    ensures { MatchOption result (NoStrongWithin (Object classes.now) from (length classes.now)) (λ at. (from ≤ at) × IsStrongAt (Object classes.now) at × NoStrongWithin (Object classes.now) from at) }
{
    for at in from..classes.len() as u32 {
        if classes[at as usize] == Class::Strong {
            return Some(at);
        }
    }
    None
}

/// What a new word of this class holds.
fn first_word(class: Class) -> Word
    ensures { result ≡ first_word class }
{
    match class {
        Class::Strong | Class::Weak => Word::Null,
        Class::Plain => Word::Number(0),
    }
}

/// The words of a new object.
pub fn object_words(alloc: Global, classes: &[Class]) -> Result<Vec<Word>, NoMemory>
    ensures { IfOk result (λ words. words.items ≡ map first_word classes.now) }
{
    let words = classes
        .iter()
        .map(|class| first_word(*class))
        .collect(alloc)?;
    Ok(words)
}

/// So many words that hold the same.
pub fn words_of(alloc: Global, word: Word, count: u32) -> Result<Vec<Word>, NoMemory>
    ensures { IfOk result (λ words. words.items ≡ replicate count word) }
{
    let words = vec![in alloc; word; count as usize]?;
    Ok(words)
}
