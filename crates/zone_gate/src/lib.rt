//! A gate between threads: one value, which the threads of a zone hold in turn, in the order of their tickets.
//!
//! Threads share a value, and each adds to its list of entries. What has to be certain is that there is one list:
//! each thread sees it grow, finds its own entries in it, in order, and none of its own that it didn't make.
//!
//! The gate is a ticket lock: two words, `ticket` and `serving`, and a slot for the value. Each thread has a `Seat`.
//! Turns go through these steps; a step on a word is one atomic step, and between any two of them the gate's rule
//! holds (`specs/Rule.antt`).
//! 1. **Draw.** `hold` adds one to `ticket` and has the number found. *Meanwhile* others draw, too, and get the numbers
//!    after it; whoever holds the value goes on.
//! 2. **Look.** It loads `serving` until that is its ticket, and sleeps between two looks. With that load it takes the
//!    slot. *Meanwhile* others draw, look and sleep. None of them finds its own ticket, since no two have the same one:
//!    each ticket is counted from `serving`, and fewer are out than a word has numbers, for only a seat with a thread of
//!    its own draws. So no ticket is served twice, and no two threads have the slot.
//! 3. **Out.** It takes the value out of the slot, as plain memory, and has it as a `Held`. *Meanwhile* nobody else reads
//!    or writes the slot or the value, and the list is the one that the holder found.
//! 4. **In.** `give_back` puts the value into the slot. *Meanwhile* the same.
//! 5. **Give back.** It adds one to `serving`. With that step, and no other, the list grows by what the holder has added
//!    to it. *Meanwhile* the thread with the next ticket is woken; it looks, and finds all that was there.
//! 6. **Split and join** copy what a seat has seen into a `Note`, and let another seat take it in: both have then seen the
//!    longer of two lists, and the other begins it. They change no word. *Meanwhile* all else goes on.
//!
//! At the end `close` joins all seats and takes the value, once no thread has the gate any more.
//!
//! Between looks a thread sleeps at a bell of its own (`bells`). Bells decide when a thread looks, and never what it
//! finds; so no rule speaks of them, and no clause says that a turn ever comes.
//!
//! The two words are the sequencer and the event count of Reed and Kanodia (1979), and make the ticket lock of
//! Mellor-Crummey and Scott (1991); that each waits at a place of its own is Anderson's (1990).
#![tactic(auto)]

mod bells;
mod cut;
mod cuts;
mod gate;
mod gather;
mod held;
mod kept;
mod lends;
mod rule;
mod seat;
mod steps;
mod view;

pub use cut::Cut;
pub use gate::Gate;
pub use held::Held;
pub use kept::Kept;
pub use seat::{Note, Seat};
