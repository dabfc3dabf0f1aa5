//! Tests of the texts of histories: outputs that are read and written again to the same bytes, and the line at which a
//! text stops to be one.
//!
//! They stand in a crate of their own, since a crate with tests is proved twice.
#![tactic(auto)]

#[cfg(test)]
mod read;
#[cfg(test)]
mod refused;
#[cfg(test)]
mod shared;
