//! A graph of blocks that lie in a space, for a collection to walk.
//!
//! The blocks have positions, in the order in which they came; those that were there as a cycle began are the first. A
//! `SpaceGraph` keeps for each block the quantum at which it begins. All else lies in the space: shades and ages in the
//! admin bytes, edges in the words.
//!
//! A collection follows edges without a look-up. A word that refers to a block knows the quantum at which this begins, and
//! the byte of that quantum tells whether it is white; a block on the mark stack has its quantum beside it as a hint. A
//! word that doesn't know where its block lies is looked up once, and knows it then. So the type keeps that a white block
//! was there as the cycle began: blocks that come meanwhile are black.
#![tactic(auto)]

mod graph;
mod rows;

pub use graph::SpaceGraph;
pub use rows::Rows;
