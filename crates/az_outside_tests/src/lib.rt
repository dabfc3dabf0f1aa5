//! Tests of the ends of a program: in memory, and over std's readers and writers.
//!
//! They stand in a crate of their own, since a crate with tests is proved twice.
#![tactic(auto)]

#[cfg(test)]
mod tests;
