//! The roots of a zone.
ghost use Rattle.std.specs.Prelude.{◌≡◌, ◌<◌, IfOk, None, get_or, length, replicate, slice_set};

use az_base::{BlockId, NoMemory, RootNo};
use std::alloc::Global;
use std::marker::Model;

/// What each of the 256 roots holds: a block, or null.
#[derive(Drop)]
pub struct Roots {
    places: Vec<Option<BlockId>>,
}

impl Model for Roots {
    ghost use Rattle.std.specs.Prelude.{◌≡◌, List, Option, length};
    ghost use Rattle.std.specs.Coded.{coded_list, coded_option};
    ghost use Rattle.az_base.specs.declared.block_id.BlockId.{BlockId};
    ghost use Rattle.az_base.specs.Id.{coded_id};

    ghost Value = { List (Option BlockId) };

    ghost coded = { coded_list (coded_option coded_id) };

    ghost view = { λ r. r.places.items };

    ghost invariant = { λ r. length r.places.items ≡ 256 };
}

impl Roots {
    /// Each of them null.
    pub fn new(alloc: Global) -> Result<Roots, NoMemory>
        ensures { IfOk result (λ r. r ≡ replicate 256 None) }
    {
        let places = Vec::from_slice(alloc, &[None; 256])?;
        Ok(Roots { places })
    }

    /// What the root holds. O(1).
    pub fn get(&self, root: RootNo) -> Option<BlockId>
        ensures { result ≡ get_or self.now root.0 None }
    {
        self.places[root.0 as usize]
    }

    /// The root holds the block from now on, or null. O(1).
    pub fn set(&mut self, root: RootNo, value: Option<BlockId>)
        ensures value { self.new ≡ slice_set self.old root.0 value }
        ensures within { root.0 < length self.old }
    {
        self.places[root.0 as usize] = value;
    }

    /// What all of them hold, by their numbers. O(1).
    pub fn as_slice(&self) -> &[Option<BlockId>]
        ensures roots { result.now ≡ self.now }
        ensures count { length self.now ≡ 256 }
    {
        self.places.as_slice()
    }
}
