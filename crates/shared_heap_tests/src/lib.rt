//! Tests of the heap of escaped blocks: each of its calls finds its memory, and answers what was written before.
//!
//! They stand in a crate of their own, since a crate with tests is proved twice.
#![tactic(auto)]

#[cfg(test)]
mod tests;
