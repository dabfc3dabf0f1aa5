//! The journal: the entries of a zone, and room for more.
ghost use Rattle.std.specs.Prelude.{◌≡◌, ◌≤◌, ◌<◌, ◌+◌, [], ◌∷◌, ◌++◌, map, OnOk, OnErr};
ghost use Rattle.std.specs.Vec.{vec_capacity, vec_len};
ghost use Rattle.zone_model.specs.Bare.{bare_entry};

use az_base::NoMemory;
use std::alloc::Global;
use std::marker::Model;
use zone_model::Entry;

/// Entries in their order, and room for more that was taken beforehand. A part of this room may be owed to entries that
/// have to come, as those of an open cycle; no other entry takes it.
#[derive(Drop)]
pub struct Journal {
    entries: Vec<Entry>,
    owed: u64,
}

impl Model for Journal {
    ghost use Rattle.std.specs.Prelude.{◌-◌, ◌≤◌, map, length};
    ghost use Rattle.std.specs.Vec.{vec_capacity};
    ghost use Rattle.zone_model.specs.Bare.{bare_entry};
    ghost use Rattle.zone_history.specs.Journals.{Recorded};

    ghost Value = { Recorded };

    ghost view = { λ j. record { entries = map bare_entry j.entries.items; spare = vec_capacity j.entries - length j.entries.items; owed = j.owed } };

    ghost invariant = { λ j. j.owed ≤ vec_capacity j.entries - length j.entries.items };
}

impl Journal {
    /// No entry, no room, and nothing owed. It takes no memory.
    pub fn new(alloc: Global) -> Journal
        ensures entries { result.entries ≡ [] }
        ensures room { result.spare ≡ 0 }
        ensures owed { result.owed ≡ 0 }
    {
        Journal {
            entries: Vec::new(alloc),
            owed: 0,
        }
    }

    /// Room for at least `n` entries beside those that are owed; NoMemory, which changes nothing, only where there was
    /// less. O(1) where the room is there, and O(entries) where the list grows.
    pub fn reserve(&mut self, n: u64) -> Result<(), NoMemory>
        ensures entries { self.new.entries ≡ self.old.entries }
        ensures owed { self.new.owed ≡ self.old.owed }
        ensures grows { self.old.spare ≤ self.new.spare }
        ensures room { OnOk result (self.old.owed + n ≤ self.new.spare) }
        ensures full { OnErr result (self.old.spare < self.old.owed + n) }
        ensures err { OnErr result (self.new ≡ self.old) }
    {
        if n <= self.room() {
            return Ok(());
        }
        let spare = self.owed.checked_add(n).ok_or(NoMemory)?;
        self.entries.reserve(spare as usize)?;
        Ok(())
    }

    /// The room of `n` more entries is owed. O(1).
    pub fn owe(&mut self, n: u64)
        requires { self.old.owed + n ≤ self.old.spare }
        ensures { self.new ≡ record self.old { owed = self.old.owed + n } }
    {
        self.owed += n;
    }

    /// One more entry, which takes no room that is owed. O(1), without memory.
    pub fn push_reserved(&mut self, entry: Entry)
        requires { self.old.owed < self.old.spare }
        ensures entries { self.new.entries ≡ self.old.entries ++ bare_entry entry ∷ [] }
        ensures room { self.new.spare + 1 ≡ self.old.spare }
        ensures owed { self.new.owed ≡ self.old.owed }
    {
        self.entries.push_reserved(entry);
    }

    /// All of these entries go behind the others, in their order, and take no room that is owed; the vector keeps its own
    /// room. O(their number), without memory.
    pub fn append(&mut self, more: &mut Vec<Entry>)
        requires { self.old.owed + vec_len more.old ≤ self.old.spare }
        ensures entries { self.new.entries ≡ self.old.entries ++ map bare_entry more.old.items }
        ensures room { self.old.spare ≤ self.new.spare + vec_len more.old }
        ensures owed { self.new.owed ≡ self.old.owed }
        ensures empty { more.new.items ≡ [] }
        ensures kept { vec_capacity more.new ≡ vec_capacity more.old }
    {
        let Ok(()) = self.entries.append(more) else {
            unreachable!()
        };
    }

    /// One more entry, in room that was owed to it. O(1), without memory.
    pub fn push_owed(&mut self, entry: Entry)
        requires { 0 < self.old.owed }
        ensures entries { self.new.entries ≡ self.old.entries ++ bare_entry entry ∷ [] }
        ensures room { self.new.spare + 1 ≡ self.old.spare }
        ensures owed { self.new.owed + 1 ≡ self.old.owed }
    {
        self.owed -= 1;
        self.push_reserved(entry);
    }

    /// Nothing is owed any more; the room stays. O(1).
    pub fn forgive(&mut self)
        ensures { self.new ≡ record self.old { owed = 0 } }
    {
        self.owed = 0;
    }

    /// The entries, in their order.
    pub fn entries(&self) -> &[Entry]
        ensures { map bare_entry result.now ≡ self.now.entries }
    {
        self.entries.as_slice()
    }

    /// For how many entries the room is owed. O(1).
    pub fn owed(&self) -> u64
        ensures value { result ≡ self.now.owed }
        ensures within { self.now.owed ≤ self.now.spare }
    {
        self.owed
    }

    /// For how many entries there is room that isn't owed. O(1).
    pub fn room(&self) -> u64
        ensures { self.now.owed + result ≡ self.now.spare }
    {
        let spare = self.entries.capacity() - self.entries.len();
        spare as u64 - self.owed
    }

    /// The entries, in their order. It takes no memory.
    pub fn into_vec(self) -> Vec<Entry>
        ensures { map bare_entry result.items ≡ self.entries }
    {
        self.entries
    }
}
