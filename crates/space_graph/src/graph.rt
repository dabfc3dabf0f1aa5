//! The blocks by position, and the space in which they lie.
ghost use Rattle.std.specs.Prelude.{◌≡◌, ◌<◌, ◌≤◌, ◌++◌, ◌∷◌, [], length, None, Some, MatchOption, IfSome, IfNone, IfOk, OnOk, OnErr, IsTrue, is_some, not, slice_get, ◌&&◌};
ghost use Rattle.std.specs.Map.{keys_of};
ghost use Rattle.std.specs.Option.{option_map};
ghost use Rattle.az_base.specs.declared.word.Word.TheVariants as words;
ghost use Rattle.az_base.specs.declared.block_id.BlockId.{BlockId as ABlockId};
ghost use Rattle.quantum_space.specs.declared.shade.Shade.TheVariants as shade;
ghost use Rattle.quantum_space.specs.PlacedWords.{knowing, word_of};
ghost use Rattle.quantum_space.specs.Regions.{HasWord};
ghost use Rattle.quantum_space.specs.Shapes.{Has, ScansOnto, Visits, WithShade, is_left_white};
ghost use Rattle.block_space.specs.Spaces.{region};
ghost use Rattle.block_space.specs.Marking.{HasBlockIn, IsLost, id_in, len_in, with_word_in, word_in};
ghost use Rattle.space_graph.specs.Graphs.{Follows, FollowsFrom, IsGraph, begun, rest_of, shades_of, shape_of, spot_for, with_space};

mod building;
mod leaving;
mod view;

use crate::rows::Rows;
use az_base::{BlockId, Mode, Word};
use block_space::Space;
use quantum_space::{Graph, Greys, Shade, Spot};
use std::alloc::Global;
use std::marker::Model;

/// Blocks by position, the first of which were there as the cycle began; the space in which they lie; the anchors, and the
/// remembered blocks.
#[derive(Drop)]
pub struct SpaceGraph {
    rows: Rows,
    space: Space,
    began: u32,
    anchors: Vec<BlockId>,
    remembered: Vec<BlockId>,
}

impl Model for SpaceGraph {
    ghost use Rattle.space_graph.specs.Graphs.{Graph', HasRoom, IsGraph};

    ghost Value = { Graph' };

    ghost view = { λ g. record { rows = g.rows.list; space = g.space; began = g.began; anchors = g.anchors.items; remembered = g.remembered.items } };

    ghost invariant = { λ g. IsGraph (record { rows = g.rows.list; space = g.space; began = g.began; anchors = g.anchors.items; remembered = g.remembered.items }) × HasRoom g.rows.list g.space.spare g.rows.room };
}

/// A hint where a block lies: the number of its quantum, where that has 32 bits.
fn hint_of(spot: Spot) -> u32 {
    u32::try_from(spot.at).unwrap_or(0)
}

impl SpaceGraph {
    /// What holds of each graph, for callers that argue from it. O(1).
    pub fn is_graph(&self)
        ensures { IsGraph self.now }
    {
        let _ = self.rows.len();
    }

    /// How many blocks there are. O(1).
    pub fn len(&self) -> u32
        ensures { result ≡ length self.now.rows }
    {
        self.rows.len() as u32
    }

    /// How many of the first were there as the cycle began. O(1).
    pub fn began(&self) -> u32
        ensures { result ≡ self.now.began }
    {
        self.began
    }

    /// The block at a position; None exactly past the last. O(1).
    pub fn nth(&self, n: u32) -> Option<BlockId>
        ensures { result ≡ slice_get (keys_of self.now.rows) n }
    {
        match self.rows.get(n) {
            Some(row) => Some(row.0),
            None => None,
        }
    }

    /// The position of a block; None exactly where it isn't there. O(1) expected.
    pub fn position(&self, id: BlockId) -> Option<u32>
        ensures { MatchOption result (¬ Has (keys_of self.now.rows) id) (λ n. slice_get (keys_of self.now.rows) n ≡ Some id) }
    {
        let _ = self.rows.len();
        match self.rows.position(id) {
            Some(n) => Some(n as u32),
            None => None,
        }
    }

    /// The space in which the blocks lie. O(1).
    pub fn space(&self) -> &Space
        ensures { result.now ≡ self.now.space }
    {
        &self.space
    }

    /// Where a block begins; None exactly where it isn't there. O(1) expected.
    pub fn find(&self, id: BlockId) -> Option<Spot>
        ensures value { result ≡ spot_for self.now.rows id }
        ensures there { IfSome result (λ x. HasBlockIn self.now.space x) }
        ensures its { IfSome result (λ x. id_in self.now.space x ≡ id) }
    {
        self.rows.find(id)
    }

    /// A hint where the block at a position lies; 0 past the last. O(1).
    pub fn hint(&self, n: u32) -> u32 {
        match self.rows.get(n) {
            Some(row) => hint_of(row.1),
            None => 0,
        }
    }

    /// A hint where a block lies, found by one look-up for several calls that take one; 0 where it isn't there. O(1)
    /// expected.
    pub fn hint_for(&self, id: BlockId) -> u32 {
        match self.rows.find(id) {
            Some(spot) => hint_of(spot),
            None => 0,
        }
    }

    /// Whether the block is there, and isn't young. It isn't looked up where the hint is right.
    pub fn is_old(&self, id: BlockId, hint: u32) -> bool
        ensures { result ≡ is_some (spot_for self.now.rows id) && not ((shape_of self.now).young id) }
    {
        match self.find_near(id, hint) {
            Some(spot) => !self.space.is_young_in(spot),
            None => false,
        }
    }

    /// Where a block begins, without a look-up where the hint is right; None exactly where it isn't there.
    pub fn find_near(&self, id: BlockId, hint: u32) -> Option<Spot>
        ensures value { result ≡ spot_for self.now.rows id }
        ensures there { IfSome result (λ x. HasBlockIn self.now.space x) }
        ensures its { IfSome result (λ x. id_in self.now.space x ≡ id) }
    {
        match self.space.spot_near(id, hint) {
            Some(spot) => Some(spot),
            None => self.find(id),
        }
    }

    /// Where a small block begins, as the hint says; None where the hint is wrong.
    fn find_small(&self, id: BlockId, hint: u32) -> Option<Spot>
        ensures value { IfSome result (λ x. spot_for self.now.rows id ≡ Some x) }
        ensures there { IfSome result (λ x. HasBlockIn self.now.space x) }
        ensures its { IfSome result (λ x. id_in self.now.space x ≡ id) }
    {
        self.space.small_near(id, hint)
    }

    /// One of the blocks as the cycle began, by position, and where it begins; None exactly past the last.
    fn row(&self, n: u32) -> Option<(BlockId, Spot)>
        ensures value { option_map (λ r. r.0) result ≡ slice_get (begun self.now) n }
        ensures there { IfSome result (λ r. HasBlockIn self.now.space r.1) }
        ensures its { IfSome result (λ r. id_in self.now.space r.1 ≡ r.0) }
        ensures begun { IfSome result (λ r. Has (begun self.now) r.0) }
    {
        let _ = self.rows.len();
        if n < self.began {
            self.rows.get(n)
        } else {
            None
        }
    }

    /// Whether the block that begins at a quantum is white, and one that the mode takes.
    fn is_left_at(&self, spot: Spot, id: BlockId, mode: Mode) -> bool
        requires block { HasBlockIn self.now.space spot }
        requires its { id_in self.now.space spot ≡ id }
        ensures { result ≡ is_left_white mode (shape_of self.now) (shades_of self.now) id }
    {
        self.space.is_left_in(spot, mode)
    }

    /// Another shade for the block that begins at a quantum.
    fn shade_at(&mut self, spot: Spot, id: BlockId, shade: Shade)
        requires block { HasBlockIn self.old.space spot }
        requires its { id_in self.old.space spot ≡ id }
        requires begun { Has (begun self.old) id }
        ensures shade { WithShade (shades_of self.old) id shade (shades_of self.new) }
        ensures rest { rest_of self.new ≡ rest_of self.old }
    {
        self.space.shade_spot(spot, shade);
    }

    /// Makes all blocks white, where all were there as the cycle began. O(quanta of the subzones).
    fn whiten_blocks(&mut self)
        requires { length self.old.rows ≤ self.old.began }
        ensures each { (b : ABlockId) → Has (begun self.old) b → shades_of self.new b ≡ shade.White }
        ensures outside { (b : ABlockId) → ¬ Has (begun self.old) b → shades_of self.new b ≡ shades_of self.old b }
        ensures rest { rest_of self.new ≡ rest_of self.old }
    {
        self.space.whiten_all();
    }

    /// Gives each of the blocks as the cycle began this shade. O(their number).
    fn shade_each(&mut self, s: Shade)
        ensures each { (b : ABlockId) → Has (begun self.old) b → shades_of self.new b ≡ s }
        ensures outside { (b : ABlockId) → ¬ Has (begun self.old) b → shades_of self.new b ≡ shades_of self.old b }
        ensures rest { rest_of self.new ≡ rest_of self.old }
    {
        let count = self.block_count();
        for n in 0..count {
            self.shade_nth(n, s);
        }
    }

    /// Makes each of the blocks as the cycle began white, by a walk over bytes where these are all.
    fn whiten_begun(&mut self)
        ensures each { (b : ABlockId) → Has (begun self.old) b → shades_of self.new b ≡ shade.White }
        ensures outside { (b : ABlockId) → ¬ Has (begun self.old) b → shades_of self.new b ≡ shades_of self.old b }
        ensures rest { rest_of self.new ≡ rest_of self.old }
    {
        if self.rows.len() <= self.began as usize {
            self.whiten_blocks();
        } else {
            self.shade_each(Shade::White);
        }
    }

    /// Greys the block that begins at a quantum, where it is white and the mode takes it, and says whether it did.
    fn grey_at(&mut self, spot: Spot, id: BlockId, mode: Mode) -> bool
        requires block { HasBlockIn self.old.space spot }
        requires its { id_in self.old.space spot ≡ id }
        ensures visits { Visits mode (shape_of self.old) id result (shades_of self.old) (shades_of self.new) }
        ensures rest { rest_of self.new ≡ rest_of self.old }
    {
        self.space.grey_spot(spot, mode)
    }

    /// Follows the words of a block from one on, up to the first that doesn't know where its block lies, and says which
    /// one that is.
    #[inline(always)]
    fn follow_known(&mut self, spot: Spot, from: u32, mode: Mode, stack: &mut Greys) -> Option<u32>
        requires { HasBlockIn self.old.space spot }
        ensures follows { FollowsFrom mode spot from self.old stack.old self.new stack.new result }
        ensures rest { rest_of self.new ≡ rest_of self.old }
        ensures range { IfSome result (λ j. j < 4096) }
    {
        self.space.is_whole();
        self.space.visit_words(spot, from, mode, stack)
    }

    /// Makes a word know where its block lies.
    fn refer_at(&mut self, spot: Spot, i: u32, to: Spot)
        requires word { HasWord (region self.old.space spot.kind) spot.at i }
        requires block { HasBlockIn self.old.space to }
        requires same { word_of (word_in self.old.space spot i) ≡ words.Block (id_in self.old.space to) }
        ensures written { self.new ≡ with_space self.old (with_word_in self.old.space spot i (knowing (id_in self.old.space to) to)) }
        ensures shades { shades_of self.new ≡ shades_of self.old }
        ensures rest { rest_of self.new ≡ rest_of self.old }
        ensures there { HasBlockIn self.new.space to }
        ensures its { id_in self.new.space to ≡ id_in self.old.space to }
    {
        self.space.refer_spot(spot, i, to);
    }

    /// Follows a word that doesn't know where its block lies. It knows it then, where the block is there.
    #[cold]
    #[inline(never)]
    fn follow_lost(&mut self, spot: Spot, i: u32, mode: Mode, stack: &mut Greys)
        requires word { HasWord (region self.old.space spot.kind) spot.at i }
        ensures follows { Follows mode spot i 1 self.old stack.old self.new stack.new }
        ensures rest { rest_of self.new ≡ rest_of self.old }
    {
        let Word::Block(id) = self.space.word_in(spot, i).word() else {
            return;
        };
        let Some(to) = self.find(id) else {
            return;
        };
        self.refer_at(spot, i, to);
        if self.grey_at(to, id, mode) {
            stack.push_within(id, hint_of(to));
        }
    }

    /// Follows all words of a block.
    #[inline(always)]
    fn follow_words(&mut self, spot: Spot, mode: Mode, stack: &mut Greys)
        requires { HasBlockIn self.old.space spot }
        ensures follows { Follows mode spot 0 (len_in self.old.space spot) self.old stack.old self.new stack.new }
        ensures rest { rest_of self.new ≡ rest_of self.old }
    {
        let mut from = 0;
        while let Some(at) = self.follow_known(spot, from, mode, stack) {
            self.follow_lost(spot, at, mode, stack);
            from = at + 1;
        }
    }

    /// Makes the block that begins at a quantum black, and follows its words. It is made once for small blocks and once
    /// for all, so that the kind is not asked at each step.
    #[inline(always)]
    fn scan_at(&mut self, spot: Spot, id: BlockId, mode: Mode, stack: &mut Greys)
        requires block { HasBlockIn self.old.space spot }
        requires its { id_in self.old.space spot ≡ id }
        requires there { spot_for self.old.rows id ≡ Some spot }
        requires begun { Has (begun self.old) id }
        ensures scans { ScansOnto mode (shape_of self.old) id (shades_of self.old) stack.old (shades_of self.new) stack.new }
        ensures rest { rest_of self.new ≡ rest_of self.old }
    {
        self.shade_at(spot, id, Shade::Black);
        self.follow_words(spot, mode, stack);
    }

    /// Scans a block of either kind, also where the hint is wrong.
    #[inline(never)]
    fn scan_any(&mut self, id: BlockId, hint: u32, mode: Mode, stack: &mut Greys)
        requires { Has (begun self.old) id }
        ensures scans { ScansOnto mode (shape_of self.old) id (shades_of self.old) stack.old (shades_of self.new) stack.new }
        ensures rest { rest_of self.new ≡ rest_of self.old }
    {
        if let Some(spot) = self.find_near(id, hint) {
            self.scan_at(spot, id, mode, stack);
        }
    }
}
