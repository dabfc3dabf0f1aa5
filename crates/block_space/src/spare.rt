//! The lengths of blocks that are to come. When the list has run empty it starts anew.
ghost use Rattle.std.specs.Prelude.{◌≡◌, ◌<◌, ◌++◌, [], length, drop, OnOk, OnErr};

use az_base::NoMemory;
use std::alloc::Global;
use std::marker::Model;

/// A list that grows at its end and loses its first item.
#[derive(Drop)]
pub struct Spare {
    lengths: Vec<u32>,
    next: usize,
}

impl Model for Spare {
    ghost use Rattle.std.specs.Prelude.{ℕ, ◌≤◌, List, drop, length};

    ghost Value = { List ℕ };

    ghost view = { λ s. drop s.next s.lengths.items };

    ghost invariant = { λ s. s.next ≤ length s.lengths.items };
}

impl Spare {
    /// No length.
    pub fn new(alloc: Global) -> Spare
        ensures { result ≡ [] }
    {
        Spare {
            lengths: Vec::new(alloc),
            next: 0,
        }
    }

    /// The lengths. O(1).
    pub fn as_slice(&self) -> &[u32]
        ensures { result.now ≡ self.now }
    {
        self.lengths.split_at(self.next).1
    }

    /// These lengths more. NoMemory leaves the list as it was. O(their number).
    pub fn extend(&mut self, lengths: &[u32]) -> Result<(), NoMemory>
        ensures ok { OnOk result (self.new ≡ self.old ++ lengths.now) }
        ensures err { OnErr result (self.new ≡ self.old) }
    {
        match self.lengths.extend_from_slice(lengths) {
            Ok(()) => Ok(()),
            Err(_) => Err(NoMemory),
        }
    }

    /// Takes the first length off. O(1).
    pub fn take_first(&mut self)
        requires { 0 < length self.old }
        ensures { self.new ≡ drop 1 self.old }
    {
        self.next += 1;
        if self.next == self.lengths.len() {
            self.clear();
        }
    }

    /// Takes all lengths off. O(1).
    pub fn clear(&mut self)
        ensures { self.new ≡ [] }
    {
        self.lengths.clear();
        self.next = 0;
    }
}
