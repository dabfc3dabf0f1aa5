//! What one thread knows alone: its registers, the blocks that no other thread can see, and the entries that wait.
//!
//! The problem: most blocks are made, used and dropped by one thread, and nobody else ever sees them. If each such call
//! took a turn at the shared zone, threads would wait for each other at every step, and for nothing.
//!
//! The mechanism: a thread's *part* of the zone is its registers, its number of serials and its unescaped blocks. Whether
//! a call is local, what it replies and what it changes follow from the part alone, so a `Local` makes the call with no
//! reference to anything shared, and its entry waits. When the thread publishes, the waiting entries join the history in
//! their order: they are steps there, whatever others published in between, since no other thread could have touched the
//! part.
//!
//! What happens to a block:
//! - It is *born* here unless it has a finaliser, or its quanta and those of the thread's other blocks would pass the
//!   option local; then it is born in the heap, and only a serial is used here.
//! - Its words are *stored* and loaded here. A register or word may hold an escaped block, too; calls on such a block are
//!   not local.
//! - When its last reference is *dropped*, nothing happens.
//! - A *local collection* walks from the sixteen registers along words, and takes exactly the blocks that it doesn't find,
//!   cycles among them. It asks nobody.
//! - When a shared call makes it *escape*, `take_out` hands it to the heap with all that it leads to. References to it may
//!   stay behind, in registers and words.
//!
//! The heap keeps how often each thread holds each escaped block, as last published. So the set counts in how many words
//! every block stands, and `holds_of` adds the registers. What changed since the last publication is noted: `changed` has
//! each block of which the number of words may be another, and `published` the registers as they were then. So a
//! publication looks at what changed, and at nothing else.
//!
//! - `OwnBlock` is one block: its layout, and words that fit it. `Blocks` is the table of them by id, with their quanta.
//! - `References` counts the words that refer to each block, and notes which counts may have changed.
//! - `Trace` finds what the registers lead to, without recursion.
//! - `Waiting` has the entries that wait, with room that can be taken before it is needed.
//! - `Local` has the calls. Each is a local step of the definitions, from the part before it to the part after it.
//!
//! Apple's libauto collects such blocks likewise, thread by thread, in its later published versions.
#![tactic(auto)]

mod blocks;
mod errors;
mod local;
mod references;
mod stored;
mod waiting;
mod walk;

pub use errors::LocalErr;
pub use local::Local;
