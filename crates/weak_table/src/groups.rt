//! Locations in groups, read in both directions.
ghost use Rattle.std.specs.Prelude.{◌≡◌, true, false, None, Some, IsSome, IfSome, MatchOption, OnOk, OnErr};
ghost use Rattle.std.specs.FinMap as map;
ghost use Rattle.az_base.specs.declared.weak_loc.WeakLoc.{WeakLoc};

use crate::lists::{delist, enlist, member_in, widen};
use crate::member::Member;
use crate::place::{Listing, change_place, place_of, put_place, take_place};
use az_base::{BlockId, NoMemory, WeakLoc};
use indexmap::IndexMap;
use smallvec::SmallVec;
use std::alloc::Global;
use std::marker::Model;

/// Which group each location is in, and whether there is room for one location more, in whichever group.
///
/// A group's list may be full after a location entered it. It is the only one that may be, and the next reservation
/// gives it room again, so that the group of the next location needn't be known beforehand.
#[derive(Drop)]
pub struct Groups {
    places: IndexMap<WeakLoc, Listing>,
    lists: IndexMap<BlockId, SmallVec<Member, 2>>,
    tight: Option<BlockId>,
    room: bool,
}

impl Model for Groups {
    ghost use Rattle.weak_table.specs.Grouped.{Grouped, coded_grouped, shown_groups, IsIndexed};

    ghost Value = { Grouped };

    ghost coded = { coded_grouped };

    ghost view = { λ g. record { groups = shown_groups g.places.entries; room = g.room } };

    ghost invariant = { λ g. IsIndexed g.places g.lists g.tight g.room };
}

impl Groups {
    /// No location is in a group.
    pub fn new(alloc: Global) -> Groups
        ensures groups { result.groups ≡ map.empty }
        ensures room { result.room ≡ false }
    {
        Groups {
            places: IndexMap::new(alloc),
            lists: IndexMap::new(alloc),
            tight: None,
            room: false,
        }
    }

    /// How many locations there are. O(1).
    pub fn len(&self) -> usize
        ensures { result ≡ map.len self.now.groups }
    {
        self.places.len()
    }

    /// The location's group. O(1).
    pub fn group_of(&self, loc: WeakLoc) -> Option<BlockId>
        ensures { result ≡ map.get self.now.groups loc }
    {
        match place_of(&self.places, loc) {
            Some(place) => Some(place.group),
            None => None,
        }
    }

    /// Some location of the group; None exactly where it has none. O(1).
    pub fn some_of(&self, group: BlockId) -> Option<WeakLoc>
        ensures { MatchOption result ((q : WeakLoc) → map.get self.now.groups q ≡ Some group → ⊥) (λ l. map.get self.now.groups l ≡ Some group) }
    {
        member_in(&self.lists, group, 0)
    }

    /// Takes room for one more location, if there is none.
    pub fn reserve_one(&mut self) -> Result<(), NoMemory>
        ensures groups { self.new.groups ≡ self.old.groups }
        ensures ok { OnOk result (self.new.room ≡ true) }
        ensures err { OnErr result (self.new.room ≡ self.old.room) }
    {
        self.places.reserve(1)?;
        self.lists.reserve(1)?;
        widen(&mut self.lists, self.tight)?;
        self.tight = None;
        self.room = true;
        Ok(())
    }

    /// The location enters the group. O(1).
    pub fn add(&mut self, loc: WeakLoc, group: BlockId)
        requires room { self.old.room ≡ true }
        requires absent { map.get self.old.groups loc ≡ None }
        ensures groups { self.new.groups ≡ map.insert self.old.groups loc group }
        ensures room { self.new.room ≡ false }
    {
        let loc = &loc;
        let at = enlist(&mut self.lists, group, *loc);
        put_place(&mut self.places, *loc, Listing { group, at });
        self.tight = Some(group);
        self.room = false;
    }

    /// The location leaves its group, if it is in one. O(1).
    pub fn remove(&mut self, loc: WeakLoc)
        ensures groups { self.new.groups ≡ map.remove self.old.groups loc }
        ensures room { self.new.room ≡ self.old.room }
    {
        let Some(place) = take_place(&mut self.places, loc) else {
            return;
        };
        let Some(moved) = delist(&mut self.lists, place.group, place.at) else {
            return;
        };
        change_place(&mut self.places, moved, place);
    }
}
