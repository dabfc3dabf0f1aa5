//! What a zone is, said before any code: its calls, its replies, and which histories of them are legal.
//!
//! # The problem
//!
//! Several threads share blocks that refer to one another, in circles too. A block may be reclaimed only where nobody can
//! get at it any more, and the threads go on meanwhile: they store and load references, hold blocks by external counts
//! and associations, and look at them through weak locations. What the zone may then answer has to be said once, and
//! without how it is done, so that each structure can be proved against it by itself.
//!
//! # The mechanism
//!
//! A history is a list of entries, each a call of one thread with its reply, as if there were one thread. It is legal
//! where each entry is a step: a relation of the state before and the state after. A state is made of maps, sets and
//! numbers, and reaching is a path of edges; there are no marks, stacks or counters of holds.
//! - `State` says what a zone holds at one moment, and `Reach` who refers to whom, what anchors and what is anchored;
//! - `Escape` says which blocks become known to all threads at a call, `Misuses` what is wrong with one, and `Effect`
//!   what it does and replies;
//! - `Collection` says what a collection may condemn, what its finalisers do, and what it reclaims and keeps;
//! - `Step` puts these together, and `History` says which lists of entries are legal, and which are a script line's;
//! - `Part` and `LocalSteps` say what one thread knows and does by itself, and `Waits` which entries may wait;
//! - `Sound` says what holds of every state of a legal history, `Phases` where a thread stands in its own cycle, and
//!   `WeakShows` what a weak location shows, told from the entries.
//!
//! The types here are those that the definitions and the code share. `laws` has the theorems over the definitions.
//!
//! # A cycle
//!
//! A block is born unescaped, known to its thread alone, unless it has finaliser actions or its thread has too many; it
//! escapes where a reference to it becomes visible to others, with all that it leads to. Unescaped blocks are their
//! thread's affair: a local collection takes those that aren't live, and no cycle ever does. A cycle takes escaped ones.
//!
//! 1. **Free.** No cycle of the thread is open. `Begin` opens one, and its *start* is the blocks that are escaped now; it
//!    is busy while another thread's cycle is open. What becomes unreachable is noticed by nobody yet.
//! 2. **Marking.** The cycle sees each moment until Condemn. A block of the start is *reached* once it is anchored at one
//!    of them: held by a register, a root or a count, or at the end of edges from a block that is held or unescaped (for
//!    a young cycle: or old).
//!    - A block that is *born*, or *escapes*, isn't of the start: this cycle can't take it. What its words refer to was
//!      anchored by them before, and is reached.
//!    - A block that is *stored*, or made a value, stands in a register, so it is reached; likewise one that is
//!      *loaded*, read from a root, an association or a weak location, or taken: a register then holds it. One that is
//!      *retained* is held from then on.
//!    - A block that is *dropped* stays reached if it was so at any moment: it floats until a later cycle. If it was
//!      never reached, it is one that this cycle condemns.
//! 3. **Condemn** names a set of blocks of the start that has at least those never reached, none that is held, and none
//!    to which an edge leads from outside the set. Each weak location that showed one of them shows null from now on, so
//!    nobody can get at a condemned block but its finalisers.
//! 4. **Settling.** `Finalise` runs the finalisers, one block at a time. A finaliser may put its block, or what a word of
//!    it refers to, into a root.
//!    - From there any thread may *load*, *store* and *retain* it again like any other block; only `setweak` shows null
//!      for it until the cycle ends.
//!    - What is *born*, *escapes* or is *dropped* now has nothing to do with this cycle.
//! 5. **Reclaim** takes the condemned blocks that aren't reached from a held block or from any block outside the set, with
//!    their associations and Weak words, and keeps the others: ordinary blocks again, finalised for good. No cycle is
//!    open, and every escaped block is older by one Reclaim. At age three it is old.
//!
//! Where nothing stands between Begin and Condemn, the condemned blocks are exactly those that aren't anchored.
//!
//! # Source
//!
//! The behaviour is after Apple's libauto as published: the header `auto_zone.h`, the comments of its sources, and the
//! *Garbage Collection Programming Guide*. The text of histories, the misuses and the entries of a collection are this
//! project's own.
#![tactic(auto)]

mod act;
mod call;
mod entry;
mod laws;
mod lists;

pub use act::Act;
pub use call::{Call, Loc};
pub use entry::{Entry, Reply, Stats};
pub use laws::{
    a_condemn_at_once_is_exact, a_dead_block_outside_keeps_what_it_refers_to,
    a_finaliser_may_keep_its_block, a_second_cycle_is_busy,
    an_old_block_keeps_what_it_refers_to_young, blocks_reclaimed_by_their_thread_are_not_live,
    calls_have_one_reply, changes_that_add_edges_to_anchored_blocks,
    condemned_blocks_are_not_anchored, cycles_stay_while_others_step, edges_stay_among_the_reached,
    first_history_is_legal, first_history_must_reclaim,
    garbage_is_condemned_and_held_blocks_are_not, groups_have_one_outcome, histories_end_once,
    local_calls_have_one_reply, local_calls_leave_what_is_shared,
    local_calls_need_their_part_alone, parts_are_told_by_entries, phases_stay_with_their_cycle,
    reached_blocks_go_on, reclaimed_blocks_are_not_anchored, registers_and_roots_stay_in_range,
    soundness_is_kept, states_are_sound, steps_are_determined, steps_lead_from_phase_to_phase,
    waiting_entries_are_steps, waiting_entries_of_all_threads_are_steps,
    weak_locations_show_what_was_assigned, weak_locations_stay_without_collections,
    weak_reads_reply_what_was_assigned, weak_root_shows_the_last_assignment,
};
pub use lists::{ActionList, IdList};

#[cfg(test)]
mod tests;
