//! The heap of the blocks that have escaped: what more than one thread may see.
//!
//! **The problem.** A block is first known to the thread that made it, and costs the others nothing. Once others may find
//! it, it has to stand in one place for all, with whatever may keep it alive; and from there nobody can look into the
//! registers and the unescaped blocks of a thread.
//!
//! **The mechanism.** The heap has the escaped blocks with their words, and what belongs to no thread: roots, external
//! retain counts, associations and weak locations. In place of registers and unescaped blocks it keeps *holds*: for each
//! block and thread a number, how often that thread holds the block. So what a thread does to its own reaches the heap as
//! numbers alone, and only when the thread says them.
//!
//! A heap *stands for* a state of the definitions where its blocks, roots, options and tables are those of the state. Each
//! call says, for every such state, that its reply is that of a step, and that the heap then stands for the state after.
//!
//! # What happens to a block
//!
//! - **It escapes** by `admit`, as it is, with its words. All that escape together first have their room taken, by
//!   `reserve_admit`; so an escape that has begun comes to its end. A block that is born escaped comes in by `new_shared`.
//! - **It is held.** A call that reads it into a register (`load`, `get_root`, `take_held`, `get_assoc`, `read_weak`) counts
//!   one hold more for the thread. Nothing counts a hold less but `hold_count`, by which the thread says the number: until
//!   then, what the register held before counts once too often, and a block that has just escaped counts as not held, while
//!   its words hold what they held when they were its thread's own. `laws` says so, and that this is all.
//! - **It is stored** (`store`, `set_root`): the block has escaped before, so nothing else escapes by it.
//! - **It is retained** (`retain`, `release`): a positive count keeps it alive from outside, and any thread may take it by
//!   its id.
//! - **It is associated** (`set_assoc`): under a key of another block, as one of that block's words would hold it.
//! - **It is weakly shown** (`assign_weak`): that holds nothing, and who reads it holds it.
//! - **It goes** by `reclaim` alone, with its associations and its Weak words, and nobody holds it any more then.
//!
//! A call that must not be refused once blocks have escaped for it finds its room taken, by `ready`.
//!
//! # A cycle
//!
//! A collection is a few calls, and other threads make theirs between them. At most one cycle is open; its owner is the
//! thread that began it. `cycle` tells the owner, and whether it is condemned.
//!
//! | call | who may make it | its reply |
//! |---|---|---|
//! | `begin` | who has no cycle open | Begun; Busy, where another thread's is open |
//! | `mark_slice` | the owner, until it is condemned | More, where the budget ends before the grey blocks do; else Done |
//! | `condemn` | the owner, until it is condemned | the condemned blocks: no weak location shows one any more |
//! | `finalise_next` | the owner, while `to_finalise` isn't 0 | the block whose finaliser has run, the least that waited |
//! | `reclaim` | the owner, condemned and with `to_finalise` 0 | the blocks that are gone, and the condemned ones that stay |
//!
//! Only `begin` may be refused: it takes the room for all of the cycle, and three lists beside (`lend_room`) for who copies
//! the replies. A slice is no entry of a history, and the heap stands for the same states after it; each of the others is a
//! step.
//!
//! Meanwhile the other calls tell the cycle what they do, and their clause `gc` says of which blocks. While it marks, a block
//! is enlivened that is stored, put into a root, associated or read weakly, or to which a word of an escaping block refers;
//! none that is loaded, taken or retained. `heap_cycle` says what becomes of blocks in each phase.
//!
//! # Parts
//!
//! - The tables of the escaped blocks, the roots, the counts and the associations are those of `heap_tables`, which a
//!   collection walks.
//! - The open cycle, and what it is told, are those of `heap_cycle`.
//! - `Heap` adds the weak locations, the options and how many finalisers wait.
//! - `laws` has theorems over heaps and states: what callers may rest on without knowing how a heap keeps things.
//!
//! That blocks are private until they escape is from Domani, Goldshtein, Kolodner, Lewis, Petrank and Sheinwald,
//! "Thread-Local Heaps for Java" (2002); Apple's libauto has it for Objective-C, whose calls these follow.
#![tactic(auto)]

mod heap;
mod laws;

pub use heap::Heap;
pub use laws::{
    admitted_blocks_leave_the_holds_as_before, births_count_what_they_replace_once_more,
    cycles_are_those_of_the_state, once_more_is_one_pair, other_calls_leave_the_holds,
    reads_count_what_they_replace_once_more, reclaimed_blocks_leave_the_holds,
    sound_states_are_ready_for_heaps, what_is_said_agrees, what_is_shared_alike_is_stood_for_alike,
};
