//! Blocks, words and anchors that come.
ghost use Rattle.std.specs.Prelude.{◌≡◌, ◌<◌, ◌≤◌, ◌++◌, ◌∷◌, [], IsTrue, IsFalse, OnOk, OnErr, is_some, length, slice_get, Some, None};
ghost use Rattle.block_layouts.specs.Layouts.{len_of};
ghost use Rattle.quantum_space.specs.PlacedWords.{knowing, unplaced};
ghost use Rattle.quantum_space.specs.AdminBytes.{aged};
ghost use Rattle.block_space.specs.Spaces.{IsRenotedSpace, with_spare};
ghost use Rattle.quantum_space.specs.declared.spot.Spot.{Spot as ASpot};
ghost use Rattle.block_space.specs.Marking.{HasBlockIn, id_in, len_in, with_word_in};
ghost use Rattle.space_graph.specs.Graphs.{IsAdded, IsPut, IsReferring, IsRoomy, spot_for, with_space};

use crate::graph::SpaceGraph;
use crate::rows::Rows;
use az_base::{BlockId, NoMemory, Word};
use block_layouts::Layout;
use block_space::Space;
use quantum_space::{Shade, Spot};
use std::alloc::Global;

/// The most blocks that a graph may have, with those that are to come.
const MOST_BLOCKS: usize = 0xffff_ffff;

/// Places a block, and makes it black.
fn place_black(space: &mut Space, id: BlockId, layout: Layout) -> Spot
    requires { slice_get space.old.spare 0 ≡ Some (len_of layout) }
    ensures { IsPut space.old space.new id layout result }
{
    let place = space.place(id, layout);
    let Some(spot) = space.spot_of(place) else {
        unreachable!()
    };
    space.shade_spot(spot, Shade::Black);
    spot
}

impl SpaceGraph {
    /// No block.
    pub fn new(alloc: Global) -> SpaceGraph
        ensures rows { result.rows ≡ [] }
        ensures anchors { result.anchors ≡ [] }
        ensures remembered { result.remembered ≡ [] }
        ensures began { result.began ≡ 0 }
        ensures spare { result.space.spare ≡ [] }
    {
        SpaceGraph {
            rows: Rows::new(alloc),
            space: Space::new(alloc),
            began: 0,
            anchors: Vec::new(alloc),
            remembered: Vec::new(alloc),
        }
    }

    /// Whether the block is there. O(1) expected.
    pub fn has(&self, id: BlockId) -> bool
        ensures { result ≡ is_some (spot_for self.now.rows id) }
    {
        self.rows.find(id).is_some()
    }

    /// From now on a block is an anchor. NoMemory leaves all as it was.
    pub fn anchor(&mut self, id: BlockId) -> Result<(), NoMemory>
        ensures ok { OnOk result (self.new ≡ record self.old { anchors = self.old.anchors ++ id ∷ [] }) }
        ensures err { OnErr result (self.new ≡ self.old) }
    {
        let Ok(()) = self.anchors.push(id) else {
            return Err(NoMemory);
        };
        Ok(())
    }

    /// All blocks are those of the next cycle. O(1).
    pub fn begin(&mut self)
        ensures { self.new ≡ record self.old { began = length self.old.rows } }
    {
        self.began = self.rows.len() as u32;
    }

    /// Room for blocks of these lengths, which are to come after those for which there is room. NoMemory leaves all blocks as
    /// they were. O(lengths, and those still to come), and what it adds.
    pub fn reserve(&mut self, lengths: &[u32]) -> Result<(), NoMemory>
        ensures same { IsRoomy self.old self.new }
        ensures ok { OnOk result (self.new.space.spare ≡ self.old.space.spare ++ lengths.now) }
        ensures err { OnErr result (self.new.space.spare ≡ self.old.space.spare) }
    {
        let more = self.space.to_come().saturating_add(lengths.len());
        if self.rows.len().saturating_add(more) > MOST_BLOCKS {
            return Err(NoMemory);
        }
        if !self.space.may_reserve(lengths) {
            return Err(NoMemory);
        }
        self.rows.reserve(more)?;
        self.space.reserve(lengths)
    }

    /// No block is to come any more. O(1).
    pub fn unreserve(&mut self)
        ensures { self.new ≡ with_space self.old (with_spare self.old.space []) }
    {
        self.space.unreserve();
    }

    /// A block comes for the first of the lengths, last and black, with the words of a new one. It is none of the blocks of
    /// an open cycle. It takes no memory. O(quanta and words of the block) expected, and what the search for its hole passes
    /// over.
    pub fn put(&mut self, id: BlockId, layout: Layout) -> Spot
        requires next { slice_get self.old.space.spare 0 ≡ Some (len_of layout) }
        requires absent { spot_for self.old.rows id ≡ None }
        ensures { IsAdded self.old self.new id layout result }
    {
        let spot = place_black(&mut self.space, id, layout);
        self.rows.push(id, spot);
        spot
    }

    /// Makes a word of a block refer to a block, and says whether both are there, and the word. O(1) expected.
    pub fn refer(&mut self, id: BlockId, i: u32, to: BlockId) -> bool
        ensures referring { IsTrue result → IsReferring self.old self.new id i to }
        ensures not { IsFalse result → self.new ≡ self.old }
        ensures exact { (x y : ASpot) → spot_for self.old.rows id ≡ Some x → i < len_in self.old.space x → spot_for self.old.rows to ≡ Some y → IsTrue result }
    {
        let Some(spot) = self.find(id) else {
            return false;
        };
        let Some(end) = self.find(to) else {
            return false;
        };
        if i >= self.space.len_in(spot) {
            return false;
        }
        self.write(spot, i, end);
        true
    }

    /// Changes a word of the block that begins at a quantum. Where the block lies to which it refers is then not known. O(1).
    pub fn set_word(&mut self, spot: Spot, i: u32, word: Word)
        requires { i < len_in self.old.space spot }
        ensures { self.new ≡ with_space self.old (with_word_in self.old.space spot i (unplaced word)) }
    {
        self.space.set_in(spot, i, word);
    }

    /// Makes each block one older, up to 3. O(quanta of the subzones).
    pub fn age_all(&mut self)
        ensures aged { IsRenotedSpace aged self.old.space self.new.space }
        ensures rest { self.new ≡ with_space self.old self.new.space }
    {
        self.space.age_all();
    }

    /// Makes a word of the block that begins at a quantum refer to the block that begins at another one.
    fn write(&mut self, spot: Spot, i: u32, to: Spot)
        requires word { i < len_in self.old.space spot }
        requires block { HasBlockIn self.old.space to }
        ensures { self.new ≡ with_space self.old (with_word_in self.old.space spot i (knowing (id_in self.old.space to) to)) }
    {
        self.space.refer_spot(spot, i, to);
    }
}
