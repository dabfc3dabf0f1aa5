//! Workers at a gate: each has a seat and lines to write, and all of them write beside each other.
//!
//! It is the form that a program with threads takes. Jobs are made of the seats and the lines; `thread::map_vec` gives
//! each job to a thread of its own and joins them all; then the gate is closed. Whatever the order was in which the
//! threads had their turns, the closed list has each thread's lines once and in their order, and nothing else (`run`).
#![tactic(auto)]

mod crew;
mod diary;
mod running;
#[cfg(test)]
mod tests;
mod worker;

pub use crew::{first_threads, lines_for, run_crew};
pub use diary::Diary;
pub use running::run;
pub use worker::{Job, work, write_line};
