//! Where blocks lie, what the collector notes of each, and the graph that a collection walks.
//!
//! Memory is cut into subzones of quanta, each with one admin byte, as in libauto. A `Region` has the subzones of one
//! kind with their blocks. A block comes to lie in the first hole that is long enough, in the first subzone that has one;
//! its words begin at its first quantum. `Admin` is what the byte of that quantum tells. Bytes, ids, layouts and words
//! are a list each over all subzones of the kind, so that whitening and ageing all blocks are walks over bytes.
//!
//! A `Graph` tells the blocks that were there as a cycle began, what anchors them and who refers to whom, and keeps a
//! shade for each block. A contract sees it in three parts: its `shape`, which no collection changes; its shades; and
//! `rest`, whatever else the object means. Lists can be read by index, or by a cursor, so that a walk over them is
//! linear whatever their owner keeps them in. Marking itself goes by `scan`: it turns a block black and visits all that
//! the block refers to in one call, which a graph that knows where its blocks lie does without a look-up. `Greys` is the
//! mark stack of such a walk.
#![tactic(auto)]

mod admin;
mod admin_map;
mod graph;
mod greys;
mod holes;
mod place;
mod placed;
mod region;
mod shade;
mod spot;

pub use admin::{
    Admin, AdminFlags, aged_bytes_tell_the_rest, bytes_tell_what_was_noted,
    whitened_bytes_tell_the_rest,
};
pub use graph::{Found, Graph};
pub use greys::Greys;
pub use place::{Place, places_are_ordered_by_subzone};
pub use placed::PlacedWord;
pub use region::{Region, blocks_lie_apart, quanta_in};
pub use shade::Shade;
pub use spot::{Kind, Spot};
