//! Values that are associated with objects.
//!
//! An object can have a value under each of 256 keys, without room for them in the object itself. Few objects have any
//! value, and those have few. So there is a table by object, and in it a short list for each object that has values,
//! in the order of its keys. A list is found at once and read by position, and an object's pairs go with its list. Room
//! for one pair of a known object can be taken beforehand.
//!
//! Whoever goes over all objects meets few that have values. A table of slots that they share says of most others that
//! they have none, by one byte of memory in place of a look-up.
#![tactic(auto)]

mod assocs;
mod filter;
mod pairs;

pub use assocs::Assocs;

#[cfg(test)]
mod tests;
