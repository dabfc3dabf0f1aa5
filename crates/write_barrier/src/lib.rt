//! What a store tells a collection, and which old blocks refer to young ones.
//!
//! A collection goes on while others store references. A young collection scans no old blocks, so each old block that
//! refers to a young one has to be remembered: its *card* is set. And while a collection marks, a store could hide a
//! block from it, behind a block that it has scanned already: so what is stored is *enlivened*, kept by this collection.
//! `on_store` and its like say which of both a call has to do, and `Cards` is the set of the blocks that are remembered.
//!
//! 1. **Idle.** No collection is open. A store of a young block into an old one sets a card.
//! 2. **Marking.** That goes on, and each block that is stored, put into a root or shown by a weak location is enlivened,
//!    and so is what the words of a block hold that escapes.
//! 3. **Settling.** The blocks that are to go are known. A finaliser may make one known again, and a store of it sets a
//!    card: what refers to it is looked at before anything is taken. Nothing is enlivened, since nothing is marked.
//! 4. **Reclaim** takes the cards of those blocks that refer to nothing young any more.
//!
//! Enlivening is the barrier of Dijkstra, Lamport, Martin, Scholten and Steffens (1978). Remembered sets are Ungar's
//! (1984), and cards those of libauto.
#![tactic(auto)]

mod cards;
mod effects;

pub use cards::Cards;
pub use effects::{Effect, Phase, on_escape, on_root, on_store, on_weak_read};

#[cfg(test)]
mod tests;
