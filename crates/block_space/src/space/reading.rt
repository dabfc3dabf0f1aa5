//! What is read of the blocks at their places.
ghost use Rattle.std.specs.Prelude.{◌≡◌, ◌<◌, ◌+◌, slice_get, Some, None, MatchOption, IfNone, IfSome, IsTrue, ◌↔◌, is_some};
ghost use Rattle.quantum_space.specs.Regions.{HasBlock};
ghost use Rattle.block_space.specs.Spaces.{size_of, region, spot_of, layout_at, placed_at, word_at, id_at, HasBlockAt, HasWordAt, IsSubzoneMap, block_quanta};
ghost use Rattle.block_space.specs.Maps.{RefersTo};
ghost use Rattle.quantum_space.specs.PlacedWords.{known};

use crate::space::{Space, size_of};
use az_base::{BlockId, Word};
use block_layouts::Layout;
use quantum_space::{Kind, Place, PlacedWord, Spot};

impl Space {
    /// The layout of the block at a place; None exactly where no block begins there. O(1).
    pub fn layout(&self, p: Place) -> Option<&Layout>
        ensures { MatchOption result (layout_at self.now p ≡ None) (λ l. layout_at self.now p ≡ Some l.now) }
    {
        match self.spot(p) {
            Some(spot) => match spot.kind {
                Kind::Small => self.small.layout(spot.at),
                Kind::Medium => self.medium.layout(spot.at),
            },
            None => None,
        }
    }

    /// Whether a block begins at a place. O(1).
    pub fn has_block(&self, p: Place) -> bool
        ensures value { result ≡ is_some (layout_at self.now p) }
        ensures block { IsTrue result → HasBlockAt self.now p }
    {
        match self.spot(p) {
            Some(spot) => match spot.kind {
                Kind::Small => self.small.begins_at(spot.at),
                Kind::Medium => self.medium.begins_at(spot.at),
            },
            None => false,
        }
    }

    /// Whether a block with such a word begins at a place. O(1).
    pub fn has_word(&self, p: Place, i: u32) -> bool
        ensures { IsTrue result ↔ HasWordAt self.now p i }
    {
        match self.layout(p) {
            Some(layout) => i < layout.len(),
            None => false,
        }
    }

    /// The id of the block at a place. O(1).
    pub fn id(&self, p: Place) -> BlockId
        requires { HasBlockAt self.now p }
        ensures { result ≡ id_at self.now p }
    {
        let Some(spot) = self.spot(p) else {
            unreachable!()
        };
        match spot.kind {
            Kind::Small => self.small.id(spot.at),
            Kind::Medium => self.medium.id(spot.at),
        }
    }

    /// A word of the block at a place, as it is kept.
    fn placed(&self, p: Place, i: u32) -> PlacedWord
        requires { HasWordAt self.now p i }
        ensures { result ≡ placed_at self.now p i }
    {
        let Some(spot) = self.spot(p) else {
            unreachable!()
        };
        match spot.kind {
            Kind::Small => self.small.word(spot.at, i as usize),
            Kind::Medium => self.medium.word(spot.at, i as usize),
        }
    }

    /// A word of the block at a place. O(1).
    pub fn get(&self, p: Place, i: u32) -> Word
        requires { HasWordAt self.now p i }
        ensures { result ≡ word_at self.now p i }
    {
        self.placed(p, i).word()
    }

    /// Where the block lies to which a word of the block at a place refers; None exactly where it refers to none, or where
    /// that isn't known. O(1).
    pub fn referent(&self, p: Place, i: u32) -> Option<Place>
        requires { HasWordAt self.now p i }
        ensures there { IfSome result (λ q. RefersTo self.now p i q) }
        ensures none { IfNone result (known (placed_at self.now p i) ≡ None) }
    {
        self.is_whole();
        match self.placed(p, i).known() {
            Some(spot) => Some(self.place_of(spot)),
            None => None,
        }
    }

    /// The place of the block that begins at a quantum. O(1).
    pub fn place_of(&self, spot: Spot) -> Place
        requires { HasBlock (region self.now spot.kind) spot.at }
        ensures { spot_of self.now result ≡ Some spot }
    {
        self.is_sound();
        let size = size_of(spot.kind);
        Place {
            subzone: self.table.number(spot.kind, spot.at / size),
            quantum: (spot.at % size) as u32,
        }
    }

    /// The small quanta of all blocks: one of 128 words takes 64. O(1).
    pub fn used(&self) -> u32
        ensures value { result ≡ self.now.used }
        ensures sum { self.now.used ≡ block_quanta self.now.small.layouts + block_quanta self.now.medium.layouts }
    {
        self.used
    }

    /// The admin bytes of a subzone; None exactly where there is none of this number. O(1).
    pub fn subzone_map(&self, number: u32) -> Option<&[u8]>
        ensures { MatchOption result (slice_get self.now.table.subzones number ≡ None) (λ bytes. IsSubzoneMap self.now number bytes.now) }
    {
        match self.table.subzone(number) {
            Some(subzone) => match subzone.kind {
                Kind::Small => self.small.subzone_bytes(subzone.index as usize),
                Kind::Medium => self.medium.subzone_bytes(subzone.index as usize),
            },
            None => None,
        }
    }
}
