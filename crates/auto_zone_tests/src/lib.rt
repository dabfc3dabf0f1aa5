//! Tests of sessions: two by turns, one that works through lines, and two that collect beside each other.
//!
//! They stand in a crate of their own, since a crate with tests is proved twice.
#![tactic(auto)]

#[cfg(test)]
mod sessions;
#[cfg(test)]
mod turns;
#[cfg(test)]
mod works;
#[cfg(test)]
mod zones;
