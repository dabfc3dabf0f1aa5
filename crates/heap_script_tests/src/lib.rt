//! Tests of scripts and of the words of calls: worked rows, each read or refused as a reader of the rules would say.
//!
//! They stand in a crate of their own, since a crate with tests is proved twice.
#![tactic(auto)]

#[cfg(test)]
mod printed;
#[cfg(test)]
mod tests;
