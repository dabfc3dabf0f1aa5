//! Where blocks live: a map from places to blocks.
//!
//! A zone's blocks come and go in any order, and may not move. So memory is cut into subzones of two kinds, as in
//! libauto. A small one has 4,096 quanta of 2 words, a medium one 256 quanta of 128 words. A block of up to 64 words lies
//! in a small subzone, one of up to 4,096 words in a medium one. It takes 1 to 32 quanta in a row, the first that are
//! free in the first subzone of its kind that has so many, and stays there until it is freed.
//!
//! A `Space` has the subzones of both kinds (two `SizedRegion`s) and a `Table`, which numbers them in the order in which
//! they were opened. A `Place` is such a number and the block's first quantum. Beside the words of each block lie its id,
//! its layout, one byte of what the collector notes of it (`Admin`), and one that tells how many words it has, so that who
//! marks need not read the layout. The quanta in use (`used`) are counted as small ones: 128 words take 64.
//!
//! A word that refers to a block may know where it lies (`refer`, `referent`), so that who follows references need not look
//! ids up. The type keeps that it is right: a block with that id lies there. So a block may be freed only where no word of
//! a block that stays knows it to lie there; blocks that refer to one another are freed in one call (`free_all`).
//!
//! Who marks knows a block by its quantum (`Spot`), whose byte has the shade and at which the words begin. `visit_words` goes
//! along the words of a block and greys the white blocks to which they refer, by the places that the words know.
//!
//! Room is taken first. `reserve` takes it for blocks of given lengths, which come in that order, and is the only call
//! that may want memory; `place` then puts each into its hole. What calls cost:
//!
//! - `place` O(quanta and words of the block), and what its search passes over; `free` and `free_all` O(quanta of the
//!   blocks);
//! - `reserve` and `may_reserve` O(lengths asked for, and those still to come), and `reserve` what it adds besides;
//! - `visit_words` O(words of the block);
//! - `whiten_all` and `age_all` O(bytes of all subzones), and `knows_no_place` O(their words);
//! - all else O(1).
#![tactic(auto)]

mod sized;
mod space;
mod spare;
mod table;

pub use space::Space;
pub use table::{Subzone, Table};
