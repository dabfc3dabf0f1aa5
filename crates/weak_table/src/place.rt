//! The places of locations.
ghost use Rattle.std.specs.Prelude.{◌≡◌, ◌<◌, ◌≤◌, None, Some, IsSome, IfNone};
ghost use Rattle.indexmap.specs.IndexMap.{spare};
ghost use Rattle.std.specs.Map.{lookup};
ghost use Rattle.az_base.specs.Places.{loc_eq};
ghost use Rattle.weak_table.specs.Locs.{Puts};

use az_base::{BlockId, WeakLoc};
use indexmap::IndexMap;
use std::marker::Model;

/// Where a location is listed: its group, and its place in the list of that group.
#[derive(Clone, Copy)]
pub struct Listing {
    pub group: BlockId,
    pub at: usize,
}

impl Model for Listing {
    ghost use Rattle.weak_table.specs.Listings.{Listed, coded_listed};

    ghost Value = { Listed };

    ghost coded = { coded_listed };

    ghost view = { λ p. record { group = p.group; at = p.at } };

    ghost inverse = { λ p. record { group = p.group; at = p.at } };
}

/// The location's place. O(1).
pub fn place_of(places: &IndexMap<WeakLoc, Listing>, loc: WeakLoc) -> Option<Listing>
    ensures { result ≡ lookup (loc_eq loc) places.now.entries }
{
    match places.get(&loc) {
        Some(place) => Some(*place),
        None => None,
    }
}

/// The location gets its first place. O(1), in the room that there is.
pub fn put_place(places: &mut IndexMap<WeakLoc, Listing>, loc: WeakLoc, place: Listing)
    requires { 0 < spare places.old }
    ensures { Puts loc (Some place) places.old.entries places.new.entries }
{
    let Ok(_) = places.insert(loc, place) else {
        unreachable!()
    };
}

/// The location gets another place. O(1).
pub fn change_place(places: &mut IndexMap<WeakLoc, Listing>, loc: WeakLoc, place: Listing)
    requires { IsSome (lookup (loc_eq loc) places.old.entries) }
    ensures puts { Puts loc (Some place) places.old.entries places.new.entries }
    ensures spare { spare places.new ≡ spare places.old }
{
    let Some(kept) = places.get_mut(&loc) else {
        unreachable!()
    };
    *kept = place;
}

/// The location loses its place, if it has one. O(1).
pub fn take_place(places: &mut IndexMap<WeakLoc, Listing>, loc: WeakLoc) -> Option<Listing>
    ensures place { result ≡ lookup (loc_eq loc) places.old.entries }
    ensures puts { Puts loc None places.old.entries places.new.entries }
    ensures unchanged { IfNone result (places.new.entries ≡ places.old.entries) }
    ensures spare { spare places.old ≤ spare places.new }
{
    places.swap_remove(&loc)
}
