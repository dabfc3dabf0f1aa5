//! Blocks that escape together, from a thread's own set into the heap.
//!
//! **The problem.** A block may be seen by others only with all that it leads to: else they would find a reference to a
//! block that its thread still changes alone. And an escape that has begun can't stop half-way, for want of room or of
//! memory.
//!
//! **The mechanism.** An escape has two stages.
//! - `prepare` searches along the references of the thread's own blocks, without recursion, for all to which given blocks
//!   lead. The search stops as soon as the quanta of what it followed pass what is left of the option heap: so an escape
//!   that doesn't fit costs no more than one that would. Room in the heap's table is taken for every block of the plan.
//! - Where the plan `fits`, `commit` moves its blocks, one after another, into the heap. It takes no memory, so nothing
//!   can refuse it. Where it doesn't, `abandon` gives the room back, and nothing has changed.
//!
//! `escape` does both for the blocks of one call, after `ready` took the heap's room for that call.
//!
//! # What happens meanwhile
//!
//! While some of the blocks are in the heap and others not yet, the heap's blocks refer to blocks that aren't there. Nobody
//! sees it, since the one thread that holds the heap does nothing else. What lasts from block to block is that the heap
//! and the set agree with one state: the state in which the blocks so far have escaped.
//!
//! With each block the thread's holds change: its words no longer count for the thread, and it may be held itself. So the
//! heap is told how often the thread still holds the block, and each block of the heap to which its words refer.
//!
//! - `EscapePlan` has the ids of a plan, and their quanta.
//! - `Search` finds them.
//! - `preparing` and `committing` have the two stages, `escaping` both.
#![tactic(auto)]

mod committing;
mod escaping;
mod plan;
mod preparing;
mod search;

pub use committing::commit;
pub use escaping::escape;
pub use plan::EscapePlan;
pub use preparing::{abandon, fits, prepare};
