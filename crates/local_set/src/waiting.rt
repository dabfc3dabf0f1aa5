//! The waiting entries.
ghost use Rattle.std.specs.Prelude.{◌≡◌, ◌≤◌, ◌<◌, ◌+◌, [], ◌∷◌, ◌++◌, length, map, OnOk, OnErr, MatchOption};
ghost use Rattle.std.specs.Vec.{vec_capacity};
ghost use Rattle.zone_model.specs.Bare.{bare_entry};

use az_base::{NoMemory, ThreadNo};
use std::alloc::Global;
use std::marker::Model;
use std::mem;
use zone_model::{Call, Entry, Reply};

/// Entries in their order, and room for more. Those before `first` were taken out; what stands in their place takes no
/// memory.
#[derive(Drop)]
pub struct Waiting {
    entries: Vec<Entry>,
    first: usize,
}

impl Model for Waiting {
    ghost use Rattle.std.specs.Prelude.{◌-◌, ◌≤◌, drop, map, length};
    ghost use Rattle.zone_model.specs.Bare.{bare_entry};
    ghost use Rattle.std.specs.Vec.{vec_capacity};
    ghost use Rattle.local_set.specs.LocalSets.{Queue};

    ghost Value = { Queue };

    ghost view = { λ w. record { list = map bare_entry (drop w.first w.entries.items); spare = vec_capacity w.entries - length w.entries.items } };

    ghost invariant = { λ w. w.first ≤ length w.entries.items };
}

impl Waiting {
    /// No entry.
    pub fn new(alloc: Global) -> Waiting
        ensures { result.list ≡ [] }
    {
        Waiting {
            entries: Vec::new(alloc),
            first: 0,
        }
    }

    pub fn len(&self) -> usize
        ensures { result ≡ length self.now.list }
    {
        self.entries.len() - self.first
    }

    /// The entries, in their order.
    pub fn as_slice(&self) -> &[Entry]
        ensures { map bare_entry result.now ≡ self.now.list }
    {
        &self.entries[self.first..]
    }

    /// Room for at least `n` more.
    pub fn reserve(&mut self, n: usize) -> Result<(), NoMemory>
        ensures list { self.new.list ≡ self.old.list }
        ensures grows { self.old.spare ≤ self.new.spare }
        ensures room { OnOk result (n ≤ self.new.spare) }
        ensures full { OnErr result (self.old.spare < n) }
        ensures err { OnErr result (self.new ≡ self.old) }
    {
        self.entries.reserve(n)?;
        Ok(())
    }

    /// One more entry, for which there is room.
    pub fn push(&mut self, entry: Entry)
        requires { 0 < self.old.spare }
        ensures list { self.new.list ≡ self.old.list ++ bare_entry entry ∷ [] }
        ensures room { self.new.spare + 1 ≡ self.old.spare }
    {
        self.entries.push_reserved(entry);
    }

    /// The oldest entry is taken out; None exactly where nothing waits. O(1), and O(entries) where it was the last one.
    pub fn pop(&mut self) -> Option<Entry>
        ensures entry { MatchOption result ((self.old.list ≡ []) × (self.new ≡ self.old)) (λ e. self.old.list ≡ bare_entry e ∷ self.new.list) }
        ensures room { self.old.spare ≤ self.new.spare }
    {
        if self.first == self.entries.len() {
            return None;
        }
        let entry = self.take_first();
        if self.first == self.entries.len() {
            self.restart();
        }
        Some(entry)
    }

    /// Takes all entries out, with the room in which they lie. O(1), and O(entries) where some were taken out before.
    pub fn take(&mut self) -> Vec<Entry>
        ensures list { map bare_entry result.items ≡ self.old.list }
        ensures room { length self.old.list + self.old.spare ≤ vec_capacity result }
        ensures none { self.new.list ≡ [] }
    {
        if self.first > 0 {
            self.entries.drain(..self.first);
            self.first = 0;
        }
        let alloc = *self.entries.allocator();
        mem::replace(&mut self.entries, Vec::new(alloc))
    }

    /// Where nothing waits, later entries lie in this room.
    pub fn reuse(&mut self, room: Vec<Entry>)
        requires nothing { self.old.list ≡ [] }
        requires empty { room.items ≡ [] }
        ensures { self.new ≡ record self.old { spare = vec_capacity room } }
    {
        self.entries = room;
        self.first = 0;
    }

    /// The oldest entry, which is there, is taken out.
    fn take_first(&mut self) -> Entry
        requires { 0 < length self.old.list }
        ensures list { self.old.list ≡ bare_entry result ∷ self.new.list }
        ensures room { self.new.spare ≡ self.old.spare }
    {
        let thread = self.entries[self.first].thread;
        let entry = mem::replace(&mut self.entries[self.first], nothing(thread));
        self.first += 1;
        entry
    }

    /// Where nothing waits, all places are free again.
    fn restart(&mut self)
        requires { self.old.list ≡ [] }
        ensures list { self.new.list ≡ [] }
        ensures room { self.old.spare ≤ self.new.spare }
    {
        self.entries.clear();
        self.first = 0;
    }
}

/// An entry that takes no memory.
fn nothing(thread: ThreadNo) -> Entry {
    Entry {
        thread,
        call: Call::CollectLocal,
        reply: Reply::Done,
    }
}
