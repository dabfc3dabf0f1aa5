//! Histories: which ones a set of requests has, and how they are kept while they grow.
//!
//! A history is a list of entries, each a thread's call with its reply.
//!
//! # The journal
//!
//! An entry whose call has changed the zone must not be lost for want of memory. So room is taken before the call, and
//! the entry then comes without memory. An open cycle has entries still to come, while others go on: it owes their room
//! when it begins. What others push meanwhile takes only room that isn't owed, since `spare`, the room in all, is never
//! below `owed`. What the cycle then pushes lowers both, and at its end the rest is forgiven.
#![tactic(auto)]

mod journal;

pub use journal::Journal;
