//! Tests of worlds: how many entries are published, and how many wait, after each call.
//!
//! They stand in a crate of their own, since a crate with tests is proved twice.
#![tactic(auto)]

#[cfg(test)]
mod cycles;
#[cfg(test)]
mod sliced;
#[cfg(test)]
mod tests;
