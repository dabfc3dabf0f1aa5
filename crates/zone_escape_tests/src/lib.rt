//! Tests of the core: lists of calls of three threads by turns, with what each answers.
//!
//! They stand in a crate of their own, since a crate with tests is proved twice.
#![tactic(auto)]

#[cfg(test)]
mod rows;
#[cfg(test)]
mod tests;
#[cfg(test)]
mod turns;
