//! What a seat knows of the gate. No value of a `View` is made: it exists in the proofs alone.
use az_base::{Options, ThreadNo};
use std::collections::LinkedList;
use std::snapshot::Snapshot;
use zone_model::Entry;

/// A thread, and its entries.
pub struct Owned {
    pub thread: ThreadNo,
    pub entries: LinkedList<Entry>,
}

pub struct View {
    /// False once another seat has taken this one in: then it says nothing.
    pub live: bool,
    pub options: Options,
    /// How much of the gate's list was seen.
    pub seen: LinkedList<Entry>,
    /// The shorter of two lists that a join united, until a look tells that it begins `seen`.
    pub untold: LinkedList<Entry>,
    /// The threads of the seat, with their entries.
    pub own: LinkedList<Owned>,
    /// The ticket that was drawn, until it is given back.
    pub ticket: Option<u64>,
    /// The slot is out with this seat, and `seen` is the whole list.
    pub holds: bool,
}

/// What a gate is told once, as it is made.
#[derive(Drop)]
pub struct Setting {
    pub options: Options,
    pub threads: Snapshot<Vec<ThreadNo>>,
}
