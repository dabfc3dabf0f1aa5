//! A script run by threads: each thread's lines beside the others', by a worker of its own.
//!
//! The problem: a script names threads, and these are to work at once. What comes out may depend on the schedule, but it has
//! to be one legal history in which each thread's lines stand once and in their order.
//!
//! The mechanism: the lines are dealt out to their threads. Each thread that has one gets a session of a new zone and a
//! worker; `thread::map_vec` starts all workers and joins them; then the zone is closed, and its journal is the history.
//! - A **local** line waits in the session. Where as many wait as the option `pending` says, they are published first.
//! - Any other line publishes what waits and then itself, in one turn at the gate. *Meanwhile* other workers wait for
//!   their turn, or do local lines.
//! - A **collection** takes a turn for each of its steps, so that other workers' lines stand between them.
//! - A worker that has done its lines **leaves**.
//!
//! A `Pace` is called round each line. It is how a test learns what a session is between two lines, and makes one worker
//! wait for another; `NoPace` does nothing.
#![tactic(auto)]

mod dealing;
mod job;
mod lines;
mod pace;
mod running;

pub use lines::work;
pub use pace::{NoPace, Pace};
pub use running::run;
