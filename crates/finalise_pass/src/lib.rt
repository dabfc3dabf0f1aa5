//! What happens to condemned blocks: their finalisers run one by one, and then it is settled which of them are kept.
//!
//! 1. **Finalise.** The least condemned block that has actions and isn't done is next. Its actions are applied in their
//!    order: each puts the block, or what a word of it holds, into a root. Then the block counts as done for good.
//! 2. **Meanwhile** others may use what a finaliser has put into a root: load it, retain it, store it anywhere.
//! 3. **Settle.** A condemned block is kept where it stands at the end of a path of edges that begins at an anchor, or
//!    at any block that isn't condemned, a dead one too: so no block that remains refers to one that is gone. The others
//!    are reclaimed. It is the walk of `gen_marker` over a graph in which every other block is black from the start.
//!
//! `Finals` is what a pass needs of finalisers, and `Pass` the pass over one list of condemned blocks. It takes no
//! memory.
#![tactic(auto)]

mod finals;
mod laws;
mod pass;
mod running;
mod settling;

pub use finals::Finals;
pub use laws::{
    condemned_blocks_are_settled, settle_keeps_what_the_definitions_keep,
    settled_lists_are_those_of_the_definitions,
};
pub use pass::Pass;
pub use settling::Settled;

#[cfg(test)]
mod small_finals;
#[cfg(test)]
mod small_graph;
#[cfg(test)]
mod tests;
