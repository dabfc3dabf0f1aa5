//! The table of the blocks that have escaped, with all that is kept of each.
//!
//! Calls find a block by its id. A collection goes over all blocks, and over those that were there as it began, while
//! others come in. So beside its id each block has a position: positions stay as long as no block is removed, and a block
//! that comes in stands last. `begin` notes how many there are; from then on the first so many are those of the cycle.
//!
//! Of each block there are its layout, words and actions, its age and whether its finaliser has run; which threads hold
//! it, and how often; and the shade that a collection gave it. A block comes in black: whatever is white was there at the
//! last `begin`.
//!
//! A collection marks over the table as a graph, whose edges lead along words. `scan` makes a block black and visits all to
//! which its words refer in one call, `visit` one block.
//!
//! Room is taken first, by the lengths of the blocks that are to come in their order, and to come in then takes no
//! memory. Blocks are removed in one call, which ends the cycle: positions are new from there on, and no word of a block
//! that stays may refer to one that goes, so that no word outlives its block.
//!
//! # What each call costs
//!
//! O(1) expected, but for: `insert` and all that reads words O(words read); `times`, `set_times` O(threads that hold the
//! block); `reserve` O(lengths), and O(blocks) where a list grows; `age_all` O(quanta of the subzones); `remove_all`
//! O(words and quanta of the blocks that go).
#![tactic(auto)]

mod holders;
mod kept;
mod marking;
mod reading;
mod table;

pub use table::BlockTable;
