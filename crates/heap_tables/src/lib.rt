//! The tables of a heap, as what a collection walks and runs finalisers of.
//!
//! A heap keeps its escaped blocks, roots, external retain counts and associations, and the blocks that are remembered. A
//! collection sees them as one graph: blocks and edges, and what anchors blocks. `gen_marker` marks over such a graph, and
//! `finalise_pass` settles over it and runs finalisers; neither knows of tables. `Tables` has the tables together, apart
//! from the heap's own cycle, so that the heap can lend them to a walk while it keeps the walk itself.
//!
//! # The graph
//!
//! - **Blocks** are those that were there at the table's last `begin`: the first positions. What came since stands behind
//!   them and is black.
//! - **Anchors** are what the roots hold, the blocks with a count, and the blocks that a thread holds.
//! - **Edges** lead from a block to what its words refer to, and to the values of its associations.
//! - **Remembered** are the cards, and each block that came since Begin.
//!
//! Anchors and edges are lists of places, some of which hold nothing: a cursor goes on to the next that does. The n-th of
//! either is found by walking there, so nothing may loop over `anchor(n)` or `edge(id, n)`.
//!
//! # What it says of a state
//!
//! `tables_show_their_states`: where the tables stand for a state, and the holds tell what threads hold, the graph shows
//! it. `a_written_word_changes_the_graph` and its like say which edges a call adds, so that a marked graph stays tight
//! where these are enlivened.
#![tactic(auto)]

mod cursors;
mod finals;
mod graph;
mod laws;
mod roots;
mod tables;

pub use laws::{
    a_written_word_changes_the_graph, an_added_block_changes_the_graph,
    an_association_changes_the_graph, tables_show_their_states,
};
pub use roots::Roots;
pub use tables::Tables;
