//! Theorems over the definitions, by what they speak of. Each is the contract of a function that does nothing.

mod collecting;
mod collections;
mod histories;
mod parts;
mod phases;
mod reached;
mod replies;
mod soundness;
mod waiting;
mod weak;

pub use collecting::{
    a_condemn_at_once_is_exact, blocks_reclaimed_by_their_thread_are_not_live,
    condemned_blocks_are_not_anchored, reclaimed_blocks_are_not_anchored,
};
pub use collections::{
    a_dead_block_outside_keeps_what_it_refers_to, a_finaliser_may_keep_its_block,
    a_second_cycle_is_busy, an_old_block_keeps_what_it_refers_to_young,
    garbage_is_condemned_and_held_blocks_are_not,
};
pub use histories::{
    first_history_is_legal, first_history_must_reclaim, histories_end_once, steps_are_determined,
};
pub use parts::{
    local_calls_leave_what_is_shared, local_calls_need_their_part_alone, parts_are_told_by_entries,
};
pub use phases::{
    cycles_stay_while_others_step, phases_stay_with_their_cycle, steps_lead_from_phase_to_phase,
};
pub use reached::{
    changes_that_add_edges_to_anchored_blocks, edges_stay_among_the_reached, reached_blocks_go_on,
};
pub use replies::{calls_have_one_reply, groups_have_one_outcome, local_calls_have_one_reply};
pub use soundness::{registers_and_roots_stay_in_range, soundness_is_kept, states_are_sound};
pub use waiting::{waiting_entries_are_steps, waiting_entries_of_all_threads_are_steps};
pub use weak::{
    weak_locations_show_what_was_assigned, weak_locations_stay_without_collections,
    weak_reads_reply_what_was_assigned, weak_root_shows_the_last_assignment,
};
