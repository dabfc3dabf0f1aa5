//! Marking: which blocks a collection may reach, found in slices while the graph goes on changing, over any graph.
//!
//! What keeps it right is the tricolour fact of Dijkstra, Lamport, Martin, Scholten and Steffens (1978): no black block
//! has an edge to a white one.
//!
//! 1. **Begin** makes every block white and the anchors grey; for a young collection the young anchors, and the
//!    remembered blocks. It takes all room.
//! 2. **Slices** make grey blocks black, and what these refer to grey, at most as many as their budget says.
//! 3. **Meanwhile** others store references. A block that is stored is enlivened: made grey where it is white.
//! 4. **Finish** makes the anchors of now grey, and goes on until nothing is grey. So nothing anchored is white, by the
//!    fact along each path of edges, and the white blocks are condemned.
//!
//! `Walk` is the mark stack with what it does to a graph, on which the settling of condemned blocks stands too. `Marker`
//! is one cycle of a collection over it. `laws` says what the shades tell of the blocks that are anchored in a state, and
//! `tightness` what whoever changes the graph meanwhile has to keep.
#![tactic(auto)]

mod greying;
mod laws;
mod marker;
mod scanning;
mod shading;
mod tightness;
mod walk;

pub use laws::{
    anchored_blocks_are_not_white, begin_reaches_anchored_blocks,
    enlivened_stores_keep_the_tricolour_fact, enlivening_reaches_anchored_blocks,
    finish_reaches_anchored_blocks, never_anchored_blocks_are_white, slices_reach_anchored_blocks,
    what_a_finish_leaves_may_be_condemned,
};
pub use marker::{Condemned, Marker};
pub use scanning::Progress;
pub use shading::{shade_all, shade_these};
pub use tightness::{
    begun_graphs_are_tight, changes_keep_it_tight, slices_keep_it_tight, tight_graphs_are_shut,
};
pub use walk::Walk;
