//! A collection of a heap's tables, while other threads go on.
//!
//! **The problem.** A collection has to find the blocks to which nothing leads any more, while threads between its steps
//! store, read and publish blocks. What it has seen may change behind it, and what it has condemned may be stored again.
//!
//! **The mechanism.** A cycle marks from the anchors in slices, by a stack of grey blocks, and goes on in phases. Each of
//! its steps has the tables to itself. Between them a call *tells* of what it does before it changes the tables: while the
//! cycle marks, a white block that is stored is *enlivened*, and turns grey (an incremental update barrier); and a block
//! that comes to refer to another is *remembered* by a card, where it is old and the other isn't, or where the other is
//! condemned. What a root, a count or a thread has is an anchor, and needs no barrier: anchors are greyed again as marking
//! ends.
//!
//! # The phases
//!
//! 1. **Begin** (`OpenCycle::begin`): the blocks of the tables are the *start*, all white. The anchors turn grey; in a young
//!    cycle the young anchors, and the remembered blocks. All room that the cycle needs is taken now.
//! 2. **Marking** (`slice`): grey blocks turn black, and the white ones to which they refer grey; in a young cycle the
//!    young ones.
//! 3. **Condemn** (`condemn`): the anchors of this moment turn grey, and marking comes to its end. What of the start is
//!    white then, and in a young cycle young, is condemned: nothing leads to it but what is condemned.
//! 4. **Settling** (`finalise_next`): the finalisers of condemned blocks run, one after another, and may put blocks into
//!    roots.
//! 5. **Reclaim** (`reclaim`): condemned blocks to which a path leads from an anchor, or from a block that isn't condemned,
//!    are kept; the others go with their associations. All that stay are older by one Reclaim, up to three, and at three
//!    they are old. The cards are made anew: the old blocks are remembered that refer to one that isn't old.
//!
//! # What becomes of a block
//!
//! | a block that | while none is open | while it marks | while it settles |
//! |---|---|---|---|
//! | is born, or escapes | is young | is black, not of the start; its ends are enlivened | counts as remembered |
//! | is stored, or associated | nothing | is enlivened | nothing |
//! | refers to one from then on | remembered if old and that one isn't | the same | also if that one is condemned |
//! | is put into a root | is an anchor | is enlivened, and an anchor | is an anchor |
//! | is loaded, taken or retained | is an anchor | is an anchor; its shade stays | is an anchor |
//! | is read weakly | is an anchor | is enlivened, and an anchor | is an anchor; no condemned one is read |
//! | is dropped | nothing | its shade stays: if it isn't white, until a later cycle | goes if it is condemned and nothing leads to it |
//!
//! Its ends are what its words refer to. A block is loaded from a word, a root or an association; it is dropped where a
//! word, a root or a register no longer has it, or its count is 0.
//!
//! # Parts
//!
//! - `OpenCycle` has the owner, the mode, how many finalisers may still run, the lists that it lends, and the `Phase`.
//! - `barriers`: what a call tells before it changes the tables.
//! - `laws`: a change that was told keeps what tables and an open cycle have to keep (`Collects`).
//!
//! Marking by slices with a stack and a barrier is from Dijkstra, Lamport, Martin, Scholten and Steffens, "On-the-Fly Garbage
//! Collection: An Exercise in Cooperation" (1978); collecting the young apart is from Lieberman and Hewitt (1983) and Ungar
//! (1984), whose remembered set this is, and cards are from Sobalvarro (1988). Apple's libauto has all of these, for
//! Objective-C (auto_zone.h).
#![tactic(auto)]

mod barriers;
mod beginning;
mod condemning;
mod finalising;
mod laws;
mod marking;
mod open_cycle;
mod reclaiming;

pub use barriers::{enliven, enliven_words, is_condemned, is_old, reserve_cards, tell_store};
pub use laws::{
    a_told_association_collects, a_told_word_collects, an_added_block_collects,
    an_added_block_is_not_shown, anchors_and_room_collect, empty_tables_collect,
};
pub use open_cycle::{OpenCycle, Phase};
