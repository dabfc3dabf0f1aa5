//! The values of one object.
ghost use Rattle.std.specs.Prelude.{◌≡◌, ◌+◌, ◌-◌, ◌<◌, ◌≤◌, ◌^◌, ℕ, None, length, slice_get, IfSome, OnOk, OnErr, IfOk, IsOk};
ghost use Rattle.std.specs.FinMap as map;
ghost use Rattle.std.specs.Prelude.{T};
ghost use Rattle.std.specs.Ordering.{nat_cmp};
ghost use Rattle.assoc_refs.specs.Values.{IsPlace, Finds, numbered};

use az_base::{BlockId, Key, NoMemory};
use std::alloc::Global;
use std::marker::Model;

/// One object's values, in the order of their keys, and for how many more there is room.
#[derive(Drop)]
pub struct Pairs {
    list: Vec<(Key, BlockId)>,
}

impl Model for Pairs {
    ghost use Rattle.std.specs.Prelude.{T, ◌-◌};
    ghost use Rattle.std.specs.FinMap.{from_sorted, is_sorted};
    ghost use Rattle.std.specs.Ordering.{nat_cmp};
    ghost use Rattle.std.specs.Vec.{vec_len, vec_capacity};
    ghost use Rattle.assoc_refs.specs.Values.{Values, coded_values, numbered};

    ghost Value = { Values };

    ghost coded = { coded_values };

    ghost view = { λ p. record { values = from_sorted (numbered p.list.items); spare = vec_capacity p.list - vec_len p.list } };

    ghost invariant = { λ p. T (is_sorted nat_cmp (numbered p.list.items)) };
}

impl Pairs {
    ghost use Rattle.assoc_refs.specs.Values.{nth_pair};

    /// No value.
    pub fn new(alloc: Global) -> Pairs
        ensures { result.values ≡ map.empty }
    {
        Pairs {
            list: Vec::new(alloc),
        }
    }

    /// How many values there are. O(1).
    pub fn len(&self) -> usize
        ensures { result ≡ map.len self.now.values }
    {
        self.list.len()
    }

    /// The value under the key. O(log values).
    pub fn get(&self, key: Key) -> Option<BlockId>
        ensures { result ≡ map.get self.now.values key.0 }
    {
        match find(&self.list, key) {
            Ok(place) => Some(self.list[place].1),
            Err(_) => None,
        }
    }

    /// The n-th pair in ascending keys, from 0. O(1).
    pub fn nth(&self, n: usize) -> Option<(Key, BlockId)>
        ensures value { result ≡ nth_pair self.now n }
        ensures within { IfSome result (λ _. n < 2 ^ 63) }
    {
        if n >= self.list.len() {
            return None;
        }
        Some(self.list[n])
    }

    /// Takes room for one more value, if none is left.
    pub fn reserve_one(&mut self) -> Result<(), NoMemory>
        ensures values { self.new.values ≡ self.old.values }
        ensures ok { OnOk result (0 < self.new.spare) }
        ensures spare { self.old.spare ≤ self.new.spare }
    {
        self.list.reserve(1)?;
        Ok(())
    }

    /// The key gets the value, and the answer is the value before. O(values), since those behind it move.
    pub fn set(&mut self, key: Key, value: BlockId) -> Result<Option<BlockId>, NoMemory>
        ensures before { IfOk result (λ before. before ≡ map.get self.old.values key.0) }
        ensures ok { OnOk result (self.new.values ≡ map.insert self.old.values key.0 value) }
        ensures succeeds { 0 < self.old.spare → IsOk result }
        ensures err { OnErr result (self.new.values ≡ self.old.values) }
        ensures spare { OnErr result (self.old.spare ≤ self.new.spare) }
    {
        match find(&self.list, key) {
            Ok(place) => {
                let before = self.list[place].1;
                self.list[place] = (key, value);
                Ok(Some(before))
            }
            Err(place) => {
                self.list.insert(place, (key, value))?;
                Ok(None)
            }
        }
    }

    /// The key loses its value, which is the answer. O(values), since those behind it move.
    pub fn remove(&mut self, key: Key) -> Option<BlockId>
        ensures before { result ≡ map.get self.old.values key.0 }
        ensures values { self.new.values ≡ map.remove self.old.values key.0 }
    {
        match find(&self.list, key) {
            Ok(place) => {
                let (_, value) = self.list.remove(place);
                Some(value)
            }
            Err(_) => None,
        }
    }
}

// Where the key stands, or else where it would.
fn find(list: &[(Key, BlockId)], key: Key) -> Result<usize, usize>
    requires { T (map.is_sorted nat_cmp (numbered list.now)) }
    ensures { Finds key.0 (numbered list.now) result }
{
    let place = place_of(list, key);
    if place == list.len() {
        return Err(place);
    }
    if list[place].0 == key {
        return Ok(place);
    }
    Err(place)
}

// The first place whose key isn't below this one.
fn place_of(list: &[(Key, BlockId)], key: Key) -> usize
    requires { T (map.is_sorted nat_cmp (numbered list.now)) }
    ensures place { IsPlace key.0 (numbered list.now) result }
    ensures within { result ≤ length list.now }
{
    let mut low = 0;
    let mut high = list.len();
    while low < high {
        let middle = low + (high - low) / 2;
        if list[middle].0 < key {
            low = middle + 1;
        } else {
            high = middle;
        }
    }
    low
}
