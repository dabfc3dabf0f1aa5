//! A generated script, which exercises all that scripts can say: births, stores and loads, roots, weak roots,
//! associations, retain counts, registers, each collection, and statistics, over four threads.
//!
//! A generator of numbers modulo 2^64, one multiplication and one addition a number, is asked once for each line. Its
//! highest bits say the thread and the call, and the bits below them the arguments. Few registers, roots and keys are
//! used, so that calls meet: blocks are shared, cut off and found again.
//!
//! The constants are those of Knuth's MMIX generator.
#![tactic(auto)]

mod generator;
mod laws;
mod lines;
mod script;

pub use laws::soak_scripts_can_be_played;
pub use script::soak_script;

#[cfg(test)]
mod tests;
