//! The core of a zone, and what a thread does to it: it publishes what waits, and makes the calls that others may see.
//!
//! **The problem.** A thread's local calls need its own set alone, and nobody waits for them. But the zone's history has
//! each call at one place, and so these must be legal wherever others published in between.
//!
//! **The mechanism.** A `Core` is the heap of the escaped blocks with the journal of what made it what it is. A thread that
//! has it does one of two things.
//! - `flush` publishes: its waiting entries go into the journal, in their order, and the heap is told how often the thread
//!   holds each block whose number has changed since the last time. It costs what changed, not all that the thread holds.
//! - `step` publishes, and then makes one call that isn't local: what the call shows to others escapes first, then it is
//!   made on the heap, and its entry goes into the journal.
//!
//! Room is taken first: in the journal for all entries that come, then in the heap for what the call needs. So want of
//! memory leaves nothing half done: at most the waiting entries were published. A Begin takes the room for all entries of
//! its cycle, which nobody else's entries use up, so that no later step of the cycle is refused.
#![tactic(auto)]

mod answers;
mod assocs;
mod births;
mod counts;
mod cycles;
mod exposing;
mod laws;
mod leaving;
mod marking;
mod phase;
mod publishing;
mod ranges;
mod receiving;
mod roots;
mod stepping;
mod telling;
mod weak;
mod words;
mod zone_core;

pub use laws::{
    local_calls_leave_sets_with_their_core, new_sets_belong_to_new_cores,
    other_sets_stay_with_their_core, publications_leave_the_open_cycle,
    what_a_thread_may_do_stays_with_the_cycle,
};
pub use marking::slice;
pub use phase::may;
pub use publishing::flush;
pub use stepping::step;
pub use zone_core::Core;
