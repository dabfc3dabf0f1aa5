//! The waiting entries of a local set.
ghost use Rattle.std.specs.Prelude.{◌≡◌, ◌<◌, ◌≤◌, ◌+◌, ◌++◌, ◌∷◌, [], length, map, OnOk, OnErr, IfErr, MatchOption};
ghost use Rattle.std.specs.Vec.{vec_capacity};
ghost use Rattle.zone_model.specs.Bare.{bare_entry};
ghost use Rattle.local_set.specs.Calls.{Same, WhyNotReady, entry_of};

use crate::errors::LocalErr;
use crate::local::Local;
use az_base::NoMemory;
use zone_model::{Call, Entry, Reply};

impl Local {
    /// Room for one more entry, where fewer wait than the option says.
    pub(super) fn ready(&mut self) -> Result<(), LocalErr>
        ensures same { Same self.old self.new }
        ensures room { OnOk result (0 < self.new.spare) }
        ensures few { OnOk result (length self.old.waiting < self.old.options.pending) }
        ensures err { IfErr result (WhyNotReady self.old) }
    {
        if self.waiting.len() >= self.options.pending as usize {
            return Err(LocalErr::PendingFull);
        }
        self.waiting.reserve(1)?;
        Ok(())
    }

    /// The entry of a call waits behind the others.
    pub(super) fn wait(&mut self, call: Call, reply: Reply)
        requires room { 0 < self.old.spare }
        requires few { length self.old.waiting < self.old.options.pending }
        ensures { self.new ≡ record self.old { waiting = self.old.waiting ++ entry_of self.old.thread call reply ∷ []; spare = self.new.spare } }
    {
        self.waiting.push(Entry {
            thread: self.thread,
            call,
            reply,
        });
    }

    /// Takes room for at least `n` more waiting entries. O(1), and O(entries) where their list grows.
    pub fn reserve_pending(&mut self, n: u32) -> Result<(), NoMemory>
        ensures same { Same self.old self.new }
        ensures room { OnOk result (n ≤ self.new.spare) }
        ensures grows { self.old.spare ≤ self.new.spare }
        ensures err { OnErr result (self.new ≡ self.old) }
    {
        self.waiting.reserve(n as usize)
    }

    /// The waiting entries, the oldest first; never more than the option pending says. O(1).
    pub fn pending(&self) -> &[Entry]
        ensures entries { map bare_entry result.now ≡ self.now.waiting }
        ensures few { length self.now.waiting ≤ self.now.options.pending }
    {
        self.waiting.as_slice()
    }

    /// The oldest waiting entry is taken out, so that it can be published; None exactly where nothing waits. O(1)
    /// amortised.
    pub fn pop_pending(&mut self) -> Option<Entry>
        ensures same { self.new ≡ record self.old { waiting = self.new.waiting; spare = self.new.spare } }
        ensures entry { MatchOption result ((self.old.waiting ≡ []) × (self.new ≡ self.old)) (λ e. self.old.waiting ≡ bare_entry e ∷ self.new.waiting) }
        ensures room { self.old.spare ≤ self.new.spare }
    {
        self.waiting.pop()
    }

    /// Takes all waiting entries out, with the room in which they lie, so that they can be published; `reuse_room` gives the
    /// room back. O(1), and O(entries) where some were taken out by `pop_pending`.
    pub fn take_pending(&mut self) -> Vec<Entry>
        ensures entries { map bare_entry result.items ≡ self.old.waiting }
        ensures room { length self.old.waiting + self.old.spare ≤ vec_capacity result }
        ensures rest { self.new ≡ record self.old { waiting = []; spare = self.new.spare } }
    {
        self.waiting.take()
    }

    /// Where nothing waits, later entries lie in this room. O(1).
    pub fn reuse_room(&mut self, room: Vec<Entry>)
        requires nothing { self.old.waiting ≡ [] }
        requires empty { room.items ≡ [] }
        ensures { self.new ≡ record self.old { spare = vec_capacity room } }
    {
        self.waiting.reuse(room);
    }
}
