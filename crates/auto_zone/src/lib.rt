//! Sessions: threads that share one zone, each with a handle of its own.
//!
//! The problem: threads work on one zone at once. Whatever the schedule, there has to be one legal history in which each
//! thread's calls stand once, in its own order and with the replies that it got; and a thread shouldn't wait for the others
//! at calls that concern nobody else, nor for a whole collection of another thread.
//!
//! The mechanism: the core, which is the heap and the journal, lies in a gate's slot. Each thread has a `Session`: a seat at
//! that gate, and the thread's own set.
//! - A **local** call is made on the own set and waits there. It takes neither the gate nor the runtime.
//! - A **shared** call takes one turn at the gate: what waits is published, and then the call is made. *Meanwhile* others
//!   wait for the gate, or make local calls.
//! - A **collection** takes a turn for each of its steps: Begin, slices of marking until one is the last, Condemn, a
//!   Finalise for each block that waits for one, and Reclaim. *Meanwhile*, between any two of them, others publish and make
//!   calls: what they do leaves the open cycle as it is, and what the cycle may not take is told to the heap by their calls.
//! - **Meet** tells two sessions what the other has seen: of two lists the shorter begins the longer.
//! - **Leave** ends the thread; once all have left, the zone is closed, and the journal is the history.
//!
//! What a session knows is a beginning of the journal that has all of its own entries. What others add to it leaves the
//! thread's part and its cycle alone, so whatever waits may be published whenever its turn comes.
#![tactic(auto)]

mod collect;
mod ended;
mod gated;
mod session;
mod turn;
mod zone;

pub use ended::Ended;
pub use session::Session;
pub use zone::{Closed, Zone};
