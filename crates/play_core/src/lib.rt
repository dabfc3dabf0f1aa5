//! A zone of several threads, and the loop that plays a script on it.
//!
//! **The problem.** A thread's local calls wait, and are published later and together. So at each moment there is what was
//! published, and what waits of each thread, and the zone must be right whichever of them goes on next.
//!
//! **The mechanism.** A `World` is a core, which has the heap and the journal, and one local set for each thread. A step is
//! one call of one thread.
//! - A local call is made on the thread's own set, and waits. Where as many entries wait as the option pending says, they
//!   are published first.
//! - Any other call publishes what waits of its thread, and is made on the set and the core.
//!
//! What is published is legal, and so is what is published followed by what waits of all threads, in any order of the
//! threads: the type keeps this, so it holds after every list of steps. No step touches another thread's set.
//!
//! A collection of escaped blocks is a cycle of steps of one thread. Others may make their calls between these, and while it
//! is open its thread may neither begin another nor leave.
//!
//! `play` makes the calls of a script's lines, one after another, and then each thread leaves, in ascending number. A line that
//! asks for a collection has all steps of the cycle, with nothing between. The
//! history that comes of it is the only one in the order that `play_order` defines.
#![tactic(auto)]

mod collecting;
mod playing;
mod turns;
mod world;

pub use playing::{Recording, play, threads_of};
pub use world::World;
