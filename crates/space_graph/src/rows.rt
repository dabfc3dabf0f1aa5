//! Where blocks begin, each at a position of its own.
ghost use Rattle.std.specs.Prelude.{◌≡◌, ◌<◌, ◌≤◌, ◌+◌, ◌++◌, ◌∷◌, [], None, Some, length, slice_get, MatchOption, OnOk, if◌then◌else◌};
ghost use Rattle.az_base.specs.Ids.{id_eq};
ghost use Rattle.std.specs.Map.{keys_of};
ghost use Rattle.quantum_space.specs.Shapes.{Has, Once};
ghost use Rattle.space_graph.specs.Graphs.{spot_for};

use az_base::{BlockId, NoMemory};
use indexmap::IndexMap;
use quantum_space::Spot;
use std::alloc::Global;
use std::marker::Model;

/// A list of ids, each once, and beside each the first quantum of its block.
#[derive(Drop)]
pub struct Rows {
    map: IndexMap<BlockId, Spot>,
}

impl Model for Rows {
    ghost use Rattle.indexmap.specs.IndexMap.{spare};
    ghost use Rattle.space_graph.specs.Graphs.{Rows'};

    ghost Value = { Rows' };

    ghost view = { λ r. record { list = r.map.entries; room = spare r.map } };
}

impl Rows {
    /// No block.
    pub fn new(alloc: Global) -> Rows
        ensures { result.list ≡ [] }
    {
        Rows {
            map: IndexMap::new(alloc),
        }
    }

    /// How many blocks there are. O(1).
    pub fn len(&self) -> usize
        ensures len { result ≡ length self.now.list }
        ensures once { Once (keys_of self.now.list) }
    {
        self.map.len()
    }

    /// The block at a position, and where it begins; None exactly past the end. O(1).
    pub fn get(&self, n: u32) -> Option<(BlockId, Spot)>
        ensures { result ≡ slice_get self.now.list n }
    {
        match self.map.get_index(n as usize) {
            Some(row) => Some((*row.0, *row.1)),
            None => None,
        }
    }

    /// Where a block begins; None exactly where it isn't there. O(1) expected.
    pub fn find(&self, id: BlockId) -> Option<Spot>
        ensures { result ≡ spot_for self.now.list id }
    {
        self.map.get(&id).copied()
    }

    /// The position of a block; None exactly where it isn't there. O(1) expected.
    pub fn position(&self, id: BlockId) -> Option<usize>
        ensures { MatchOption result (¬ Has (keys_of self.now.list) id) (λ n. slice_get (keys_of self.now.list) n ≡ Some id) }
    {
        self.map.get_index_of(&id)
    }

    /// Room for so many blocks more. NoMemory leaves all as it was.
    pub fn reserve(&mut self, count: usize) -> Result<(), NoMemory>
        ensures list { self.new.list ≡ self.old.list }
        ensures ok { OnOk result (count ≤ self.new.room) }
        ensures room { self.old.room ≤ self.new.room }
    {
        let Ok(()) = self.map.reserve(count) else {
            return Err(NoMemory);
        };
        Ok(())
    }

    /// A block that isn't there comes last. O(1) expected.
    pub fn push(&mut self, id: BlockId, spot: Spot)
        requires absent { spot_for self.old.list id ≡ None }
        requires room { 0 < self.old.room }
        ensures list { self.new.list ≡ self.old.list ++ (id, spot) ∷ [] }
        ensures room { self.old.room ≤ self.new.room + 1 }
    {
        let Ok(_) = self.map.insert(id, spot) else {
            unreachable!()
        };
    }

    /// A block goes, and the answer is where it begins; None where it isn't there. Others may have other positions then.
    /// O(1) expected.
    pub fn take_out(&mut self, id: BlockId) -> Option<Spot>
        ensures value { result ≡ spot_for self.old.list id }
        ensures rows { (q : BlockId) → spot_for self.new.list q ≡ (if id_eq id q then None else spot_for self.old.list q) }
        ensures fewer { length self.new.list ≤ length self.old.list }
        ensures room { self.old.room ≤ self.new.room }
    {
        self.map.swap_remove(&id)
    }
}
