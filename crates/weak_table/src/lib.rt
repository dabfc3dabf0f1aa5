//! Which block each weak location shows.
//!
//! A weak location shows a block and doesn't keep it: it turns null as soon as its block is condemned. So the table is
//! read in two directions, from a location to its block, and from a block to the locations that show it. A block's
//! locations stand in a list in no order, and each location knows its place there, so that it leaves the list without
//! a search: the last location of the list takes its place. The words of each block that show anything are kept in the
//! same way, for when the block itself is gone. Room for one location can be taken beforehand.
#![tactic(auto)]

mod groups;
mod lists;
mod member;
mod place;
mod weak;

pub use weak::Weak;

#[cfg(test)]
mod tests;
