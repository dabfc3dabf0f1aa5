//! Tests of histories: a journal's room is found, and it takes the entries for which it was reserved.
//!
//! They stand in a crate of their own, since a crate with tests is proved twice.
#![tactic(auto)]

#[cfg(test)]
mod tests;
