//! The blocks of a zone, each at its place.
ghost use Rattle.std.specs.Prelude.{◌≡◌, ◌<◌, ◌+◌, ◌*◌, [], slice_get, Some, None};
ghost use Rattle.std.specs.Option.{option_and_then};
ghost use Rattle.block_space.specs.Spaces.{Space', kind_of, size_of, spot_in, spot_of, layout_at, IsWhole};
ghost use Rattle.block_space.specs.Maps.{IsSound};
ghost use Rattle.quantum_space.specs.declared.place.Place.{Place as APlace};
ghost use Rattle.quantum_space.specs.declared.spot.Spot.{Spot as ASpot};
ghost use Rattle.block_space.specs.Marking.{layout_in};

mod blocks;
mod marking;
mod notes;
mod reading;
mod room;
mod writing;

use crate::sized::SizedRegion;
use crate::spare::Spare;
use crate::table::{Subzone, Table};
use quantum_space::{Kind, Place, Spot};
use std::alloc::Global;
use std::marker::Model;

/// The quanta of a small subzone, and the words of a small quantum.
const SMALL_QUANTA: usize = 4096;

const SMALL_WORDS: usize = 2;

/// The quanta of a medium subzone, and the words of a medium quantum.
const MEDIUM_QUANTA: usize = 256;

const MEDIUM_WORDS: usize = 128;

/// The most words of a block.
const MOST_WORDS: u32 = 4096;

/// The blocks at their places, the lengths of those for which there is room, and how many small quanta the blocks take.
#[derive(Drop)]
pub struct Space {
    small: SizedRegion,
    medium: SizedRegion,
    table: Table,
    spare: Spare,
    used: u32,
}

impl Model for Space {
    ghost use Rattle.block_space.specs.Spaces.{Space', IsWhole};

    ghost Value = { Space' };

    ghost view = { λ s. record { small = s.small; medium = s.medium; table = s.table; spare = s.spare; used = s.used } };

    ghost invariant = { λ s. IsWhole (record { small = s.small; medium = s.medium; table = s.table; spare = s.spare; used = s.used }) };
}

/// The kind of subzones in which a block of so many words lies.
fn kind_of(words: u32) -> Kind
    ensures { result ≡ kind_of words }
{
    if words <= 64 {
        Kind::Small
    } else {
        Kind::Medium
    }
}

/// The quanta of a kind's subzones.
fn size_of(kind: Kind) -> usize
    ensures { result ≡ size_of kind }
{
    match kind {
        Kind::Small => SMALL_QUANTA,
        Kind::Medium => MEDIUM_QUANTA,
    }
}

/// A quantum of a subzone, counted over all subzones of its kind; None past the subzone's end.
fn spot_in(subzone: Subzone, quantum: u32) -> Option<Spot>
    ensures { result ≡ spot_in subzone quantum }
{
    let size = size_of(subzone.kind);
    let quantum = quantum as usize;
    if quantum < size {
        Some(Spot {
            kind: subzone.kind,
            at: subzone.index as usize * size + quantum,
        })
    } else {
        None
    }
}

/// Where a place is among those of its kind.
fn spot_by(table: &Table, p: Place) -> Option<Spot>
    ensures { result ≡ option_and_then (λ z. spot_in z p.quantum) (slice_get table.now.subzones p.subzone) }
{
    match table.subzone(p.subzone) {
        Some(subzone) => spot_in(subzone, p.quantum),
        None => None,
    }
}

impl Space {
    /// No subzone.
    pub fn new(alloc: Global) -> Space
        ensures none { (p : APlace) → layout_at result p ≡ None }
        ensures by_quantum { (x : ASpot) → layout_in result x ≡ None }
        ensures subzones { result.table.subzones ≡ [] }
        ensures spare { result.spare ≡ [] }
        ensures used { result.used ≡ 0 }
    {
        Space {
            small: SizedRegion::new(alloc, SMALL_QUANTA, SMALL_WORDS),
            medium: SizedRegion::new(alloc, MEDIUM_QUANTA, MEDIUM_WORDS),
            table: Table::new(alloc),
            spare: Spare::new(alloc),
            used: 0,
        }
    }

    /// What holds of each space, for callers that argue from it.
    pub fn is_sound(&self)
        ensures { IsSound self.now }
    {
        let _ = self.small.unopened();
        let _ = self.medium.unopened();
        let _ = self.table.len();
    }

    /// That each word is right about where its block lies, for callers that argue from it.
    pub fn is_whole(&self)
        ensures { IsWhole self.now }
    {
        let _ = self.small.unopened();
    }

    /// Where a place is among those of its kind.
    fn spot(&self, p: Place) -> Option<Spot>
        ensures { result ≡ spot_of self.now p }
    {
        spot_by(&self.table, p)
    }
}
