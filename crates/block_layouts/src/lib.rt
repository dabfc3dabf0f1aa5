//! How a block's words are laid out.
//!
//! A layout says how many words a block has and of which class each is. There are three shapes: scanned memory, whose
//! words are all Strong; unscanned memory, whose words are all Plain; and objects, which say the class of each word.
//! A block's size in quanta follows from its number of words alone.
#![tactic(auto)]

mod class_list;
mod classes;
mod layout;
mod letters;

pub use class_list::ClassList;
pub use layout::{Layout, LayoutErr, Shape};

#[cfg(test)]
mod tests;
