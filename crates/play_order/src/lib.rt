//! The order of a play: which history a list of requests has, and that waiting lists give it.
//!
//! The problem: when a script of several threads is played, local calls wait in their threads, and are published later
//! and together. So the history isn't in the order of the lines, and what it is must be said without the code's lists.
//!
//! The mechanism: each line has a *place*, a number. A line that isn't local stands at its own number; a local line stands
//! at the number of the next line of its thread that publishes: one that isn't local, or one that finds as many lines of
//! its thread waiting as the option pending says, which publishes them and then waits itself. The ends are lines, too:
//! behind all others, each thread that was asked for something leaves, in ascending number, so that nothing waits at last.
//! The history is the entries of all lines, sorted by their places.
//! - `Places` has the places, and the entries in their order, with no state in them.
//! - `Play` says which histories a list of requests has in this order: legal ones, in which each line's entries are the
//!   group of what it asks for, and a line is local where its thread's part says so.
//! - `Waiting` has the lists of the code: what is published, and what waits of each thread; and what one line does to them.
//! - `Playing` says what a world has to show and to do with one line, for the whole to be in order.
//!
//! The laws: such a history is one of the requests, and the only one but for the room of lists in replies; and a world
//! that plays line after line by the rules makes it.
#![tactic(auto)]

mod laws;

pub use laws::{
    a_turn_stays_in_order, all_turns_are_the_play, as_many_wait_as_stand_past_the_end,
    at_first_nothing_is_asked_for, no_more_wait_than_may,
    parts_come_from_published_and_waiting_entries, plays_are_histories, plays_do_not_look_at_room,
    requests_are_played_in_one_way, small_orders, waiting_lists_keep_the_order,
};
