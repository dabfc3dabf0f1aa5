//! The values of all objects.
ghost use Rattle.std.specs.Prelude.{◌≡◌, ◌+◌, ◌-◌, ◌<◌, ◌≤◌, ◌^◌, ℕ, None, Some, false, is_some, [], slice_get, IsSome, IfSome, IsOk, IfOk, OnOk, OnErr};
ghost use Rattle.std.specs.FinMap as map;

use crate::filter::Filter;
use crate::pairs::Pairs;
use az_base::{BlockId, Key, NoMemory};
use indexmap::IndexMap;
use std::alloc::Global;
use std::marker::Model;
use std::mem;

/// Values by object and key, and the object for which there is room for one more, if there is one.
#[derive(Drop)]
pub struct Assocs {
    // A list for each object that has values.
    lists: IndexMap<BlockId, Pairs>,
    // A list without values, for the next object, so that its first value needs no memory where room was taken.
    blank: Pairs,
    // How many values there are in all.
    total: usize,
    ready: Option<BlockId>,
    // Whatever has a list is in.
    filter: Filter,
}

impl Model for Assocs {
    ghost use Rattle.assoc_refs.specs.Filter.{IsIn};
    ghost use Rattle.assoc_refs.specs.Table.{Associated, coded_associated, shown_pairs, IsTable};

    ghost Value = { Associated };

    ghost coded = { coded_associated };

    ghost view = { λ a. record { pairs = shown_pairs a.lists.entries; ready = a.ready } };

    ghost invariant = { λ a. IsTable a.lists a.blank a.total a.ready (IsIn a.filter.taken.items a.filter.mask) };
}

impl Assocs {
    ghost use Rattle.az_base.specs.WithValue.{with_value};
    ghost use Rattle.assoc_refs.specs.Table.{without_object, pairs_of};

    /// No value.
    pub fn new(alloc: Global) -> Assocs
        ensures pairs { result.pairs ≡ map.empty }
        ensures ready { result.ready ≡ None }
    {
        Assocs {
            lists: IndexMap::new(alloc),
            blank: Pairs::new(alloc),
            total: 0,
            ready: None,
            filter: Filter::new(alloc),
        }
    }

    /// How many pairs of an object and a key have a value. O(1).
    pub fn len(&self) -> usize
        ensures { result ≡ map.len self.now.pairs }
    {
        self.total
    }

    /// Whether the object may have values: false says that it has none, and true says nothing. It is false for every object
    /// where there are no values at all. Otherwise it is false for about three in four objects without values, or more, but
    /// for fewer where there was no memory for enough slots. O(1), without a look-up.
    pub fn may_have(&self, object: BlockId) -> bool
        ensures none { result ≡ false → pairs_of self.now.pairs object ≡ [] }
        ensures empty { map.len self.now.pairs ≡ 0 → result ≡ false }
    {
        self.total > 0 && self.filter.has(object)
    }

    /// The value of the object under the key; None exactly where there is none. O(log values of the object).
    pub fn get(&self, object: BlockId, key: Key) -> Option<BlockId>
        ensures { result ≡ map.get self.now.pairs (object, key.0) }
    {
        match self.lists.get(&object) {
            Some(list) => list.get(key),
            None => None,
        }
    }

    /// The object's n-th pair in ascending keys, from 0; None exactly past the last. O(1).
    pub fn nth_of(&self, object: BlockId, n: usize) -> Option<(Key, BlockId)>
        ensures value { result ≡ slice_get (pairs_of self.now.pairs object) n }
        ensures within { IfSome result (λ _. n < 2 ^ 63) }
    {
        match self.lists.get(&object) {
            Some(list) => list.nth(n),
            None => None,
        }
    }

    /// Takes room for one more value of the object. O(1), and O(values of the object) where its list grows.
    pub fn reserve_one(&mut self, object: BlockId) -> Result<(), NoMemory>
        ensures ok { OnOk result (self.new ≡ record self.old { ready = Some object }) }
        ensures sure { self.old.ready ≡ Some object → IsOk result }
        ensures err { OnErr result (self.new ≡ self.old) }
    {
        if self.ready == Some(object) {
            return Ok(());
        }
        if self.total == usize::MAX {
            return Err(NoMemory);
        }
        if !self.lists.contains_key(&object) {
            self.lists.reserve(1)?;
            self.blank.reserve_one()?;
            self.ready = Some(object);
            return Ok(());
        }
        let Some(list) = self.lists.get_mut(&object) else {
            unreachable!()
        };
        list.reserve_one()?;
        self.ready = Some(object);
        Ok(())
    }

    /// The object's value under the key becomes this one, or goes, and the answer is the value before. Only a new value
    /// needs memory, unless room for one of this object is ready. O(values of the object), since those behind it move.
    pub fn set(
        &mut self,
        object: BlockId,
        key: Key,
        value: Option<BlockId>,
    ) -> Result<Option<BlockId>, NoMemory>
        ensures before { IfOk result (λ before. before ≡ map.get self.old.pairs (object, key.0)) }
        ensures pairs { OnOk result (self.new.pairs ≡ with_value self.old.pairs (object, key.0) value) }
        ensures ready { OnOk result (self.new.ready ≡ None) }
        ensures taken { value ≡ None → IsOk result }
        ensures succeeds { self.old.ready ≡ Some object → IsOk result }
        ensures err { OnErr result (self.new ≡ self.old) }
    {
        match value {
            Some(value) => self.put(object, key, value),
            None => Ok(self.take_away(object, key)),
        }
    }

    /// The object's values go. O(their number).
    pub fn erase(&mut self, object: BlockId)
        ensures pairs { self.new.pairs ≡ without_object self.old.pairs object }
        ensures ready { self.new.ready ≡ None }
    {
        self.ready = None;
        let Some(list) = self.lists.swap_remove(&object) else {
            return;
        };
        self.total -= list.len();
    }

    // The object's value under the key becomes this one.
    fn put(
        &mut self,
        object: BlockId,
        key: Key,
        value: BlockId,
    ) -> Result<Option<BlockId>, NoMemory>
        ensures before { IfOk result (λ before. before ≡ map.get self.old.pairs (object, key.0)) }
        ensures pairs { OnOk result (self.new.pairs ≡ map.insert self.old.pairs (object, key.0) value) }
        ensures ready { OnOk result (self.new.ready ≡ None) }
        ensures succeeds { self.old.ready ≡ Some object → IsOk result }
        ensures err { OnErr result (self.new ≡ self.old) }
    {
        if self.total == usize::MAX {
            return Err(NoMemory);
        }
        if !self.lists.contains_key(&object) {
            self.lists.reserve(1)?;
            let _ = self.blank.set(key, value)?;
            let list = mem::replace(&mut self.blank, Pairs::new(*self.lists.allocator()));
            self.filter.admit(&self.lists, object);
            let Ok(_) = self.lists.insert(object, list) else {
                unreachable!()
            };
            self.total += 1;
            self.ready = None;
            return Ok(None);
        }
        let Some(list) = self.lists.get_mut(&object) else {
            unreachable!()
        };
        let before = list.set(key, value)?;
        self.ready = None;
        if before.is_some() {
            return Ok(before);
        }
        self.total += 1;
        Ok(before)
    }

    // The object's value under the key goes, if there is one, and its list with the last.
    fn take_away(&mut self, object: BlockId, key: Key) -> Option<BlockId>
        ensures before { result ≡ map.get self.old.pairs (object, key.0) }
        ensures pairs { self.new.pairs ≡ map.remove self.old.pairs (object, key.0) }
        ensures ready { self.new.ready ≡ None }
    {
        self.ready = None;
        let Some(before) = self.get(object, key) else {
            return None;
        };
        let Some(list) = self.lists.get_mut(&object) else {
            unreachable!()
        };
        let _ = list.remove(key);
        self.total -= 1;
        self.prune(object);
        Some(before)
    }

    // An object without values needs no list.
    fn prune(&mut self, object: BlockId)
        requires { self.old.ready ≡ None }
        ensures { self.new ≡ self.old }
    {
        let Some(list) = self.lists.get(&object) else {
            return;
        };
        if list.len() > 0 {
            return;
        }
        let Some(_empty) = self.lists.swap_remove(&object) else {
            return;
        };
    }
}
