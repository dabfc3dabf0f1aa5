//! What marking and settling over a graph say of the zone that the graph is of.
//!
//! `gen_marker` and `finalise_pass` walk over any graph, and what they promise speaks of its shape and shades. The
//! definitions speak of a state: of edges between blocks, of what is anchored, of what a cycle may condemn and must
//! keep. A heap is both, a graph and what stands for a state. `Shows` says what the two have to do with each other; the
//! laws then lead from what the walks promise to what the definitions ask for, one for each phase of a cycle. They speak
//! of definitions, shapes and shades alone, so no heap is in them.
//!
//! 1. **Begin.** What isn't white was anchored: `begun_blocks_are_reached`.
//! 2. **Marking.** A slice keeps that (`sliced_blocks_are_reached`), and so does each call that enlivens what is anchored
//!    before it or after it (`enlivened_blocks_are_reached`). What keeps the graph tight meanwhile is in `gen_marker`.
//! 3. **Condemn.** What a finish leaves white may be condemned: `what_is_left_may_be_condemned`. No edge leads into it,
//!    so nothing has to be remembered for it yet: `nothing_leads_into_what_is_condemned`.
//! 4. **Settling.** Where the escaped blocks that come to refer to a condemned block are remembered, each way into the
//!    condemned blocks is watched: `settling_is_watched`.
//! 5. **Reclaim.** The two lists of a settling are those that a Reclaim replies: `settled_lists_are_a_reclaim`.
#![tactic(auto)]

mod laws;

pub use laws::{
    begun_blocks_are_reached, enlivened_blocks_are_reached, nothing_leads_into_what_is_condemned,
    settled_lists_are_a_reclaim, settling_is_watched, sliced_blocks_are_reached,
    what_is_left_may_be_condemned,
};
