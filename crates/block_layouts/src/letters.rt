//! The letters of an object's classes.
ghost use Rattle.std.specs.Prelude.{◌≡◌, IfOk, position};
ghost use Rattle.block_layouts.specs.Letters.{class_of, is_other, classes_of};

use az_base::{Class, NoMemory};
use std::alloc::Global;

/// The class of a letter.
pub fn class_of(letter: u8) -> Option<Class>
    ensures { result ≡ class_of letter }
{
    if letter == b'S' {
        Some(Class::Strong)
    } else if letter == b'W' {
        Some(Class::Weak)
    } else if letter == b'P' {
        Some(Class::Plain)
    } else {
        None
    }
}

/// The place of the first byte that is no letter of a class.
pub fn first_other(text: &[u8]) -> Option<usize>
    ensures { result ≡ position is_other text.now }
{
    text.iter().position(|letter| class_of(*letter).is_none())
}

/// The classes of the letters; what is no letter of a class is passed over.
pub fn classes_of(alloc: Global, text: &[u8]) -> Result<Vec<Class>, NoMemory>
    ensures { IfOk result (λ classes. classes.items ≡ classes_of text.now) }
{
    let classes = text
        .iter()
        .filter_map(|letter| class_of(*letter))
        .collect(alloc)?;
    Ok(classes)
}
