//! How often blocks are retained from outside.
//!
//! Code that counts references keeps a block by a positive count. Nearly all blocks have the count 0, so the table has
//! the positive ones alone: a block enters it when its count rises from 0, which is the one call that needs memory, and
//! leaves it when its count falls to 0. Room for one block can be taken beforehand. The counted blocks stand at
//! positions, so that a collector can walk over all of them without memory.
#![tactic(auto)]

mod counts;
mod refused;

pub use counts::Counts;
pub use refused::{OverRelease, Raise};

#[cfg(test)]
mod tests;
