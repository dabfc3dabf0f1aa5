//! Tests of a space: where blocks of given lengths come to lie, and what their admin bytes are.
//!
//! They stand in a crate of their own, since a crate with tests is proved twice.
#![tactic(auto)]

#[cfg(test)]
mod tests;
