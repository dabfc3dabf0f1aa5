//! What a collection sees of the blocks.
use crate::greys::Greys;
use crate::shade::Shade;
use az_base::{BlockId, Mode};

/// The block at the end of an edge, as a graph followed it: a hint where the block lies, the place after the edge, and
/// whether the block turned grey.
#[derive(Clone, Copy)]
pub struct Found {
    pub id: BlockId,
    pub hint: u32,
    pub place: u64,
    pub is_new: bool,
}

/// The blocks that were there as a cycle began, in no special order; what anchors blocks now, and the remembered blocks;
/// the edges that lead from each block; which blocks are young; and a shade for each block.
///
/// An Option is None exactly past the end of its list. A place of a cursor begins at 0 and goes on as the cursor says;
/// it means nothing to who walks. A hint says where a block lies, so that the graph need not look the id up; a wrong one
/// costs that look-up and changes no answer.
///
/// The methods from `takes` on have bodies that look ids up, some three times an edge. A graph that knows where its
/// blocks lie writes its own, which need no look-up.
pub trait Graph {
    ghost use Rattle.std.specs.Prelude.{◌≡◌, length, slice_get, IsTrue, ◌↔◌, MatchOption, is_some, option_to_list, filter, [], ◌∷◌, IfSome, IfNone};
    ghost use Rattle.az_base.specs.declared.block_id.BlockId.{BlockId};
    ghost use Rattle.quantum_space.specs.declared.shade.Shade.{Shade};
    ghost use Rattle.quantum_space.specs.declared.shade.Shade.TheVariants as shade;
    ghost use Rattle.quantum_space.specs.Shapes.{Shape, Has, Once, Visits, edges, anchors, IsNext, WithShade, FollowsOnto, ScansOnto, is_left_white, is_taken, is_unmarked};

    /// Blocks, anchors, remembered blocks, edges and ages. Walking changes none of them.
    ghost shape: { Self → Shape };

    /// The shade of each block.
    ghost shades: { Self → BlockId → Shade };

    /// What else there is to it.
    ghost Rest: { Type 0 };

    /// Whatever else the object means. Walking leaves it as it is.
    ghost rest: { Self → Rest };

    /// How many blocks there were as the cycle began.
    fn block_count(&self) -> u32
        ensures count { result ≡ length (shape self.now).blocks }
        ensures once { Once (shape self.now).blocks };

    /// The n-th of them, from 0; their order tells nothing, and each stands there once.
    fn block(&self, n: u32) -> Option<BlockId>
        ensures { result ≡ slice_get (shape self.now).blocks n };

    /// Whether the block is one of them.
    fn has_block(&self, id: BlockId) -> bool
        ensures { IsTrue result ↔ Has (shape self.now).blocks id };

    /// The n-th anchor, from 0. Their order tells nothing, and a block may stand among them more than once.
    fn anchor(&self, n: u64) -> Option<BlockId>
        ensures { result ≡ slice_get (anchors (shape self.now)) n };

    /// The first anchor from a place on, and the place after it.
    fn anchor_from(&self, place: u64) -> Option<(BlockId, u64)>
        ensures { IsNext (shape self.now).anchors_from place result };

    /// How many blocks are remembered.
    fn remembered_count(&self) -> u64
        ensures { result ≡ length (shape self.now).remembered };

    /// The n-th remembered block, from 0.
    fn remembered(&self, n: u64) -> Option<BlockId>
        ensures { result ≡ slice_get (shape self.now).remembered n };

    /// The block at the end of the n-th edge that leads from a block, from 0.
    fn edge(&self, id: BlockId, n: u64) -> Option<BlockId>
        ensures { result ≡ slice_get (edges (shape self.now) id) n };

    /// The block at the end of the first edge from a place on, and the place after it.
    fn edge_from(&self, id: BlockId, place: u64) -> Option<(BlockId, u64)>
        ensures { IsNext ((shape self.now).edges_from id) place result };

    /// Whether the block is young.
    fn is_young(&self, id: BlockId) -> bool
        ensures { result ≡ (shape self.now).young id };

    /// The block's shade.
    fn shade(&self, id: BlockId) -> Shade
        ensures { result ≡ shades self.now id };

    /// Changes the shade of one of the blocks, and nothing else.
    fn set_shade(&mut self, id: BlockId, s: Shade)
        requires { Has (shape self.old).blocks id }
        ensures shade { WithShade (shades self.old) id s (shades self.new) }
        ensures shape { shape self.new ≡ shape self.old }
        ensures rest { rest self.new ≡ rest self.old };

    /// Whether the mode takes the block.
    fn takes(&self, id: BlockId, mode: Mode) -> bool
        ensures { result ≡ is_taken mode (shape self.now) id }
    {
        match mode {
            Mode::Full => true,
            Mode::Young => self.is_young(id),
        }
    }

    /// Whether the block is white.
    fn is_white(&self, id: BlockId) -> bool
        ensures { result ≡ is_unmarked (shades self.now id) }
    {
        match self.shade(id) {
            Shade::White => true,
            Shade::Grey => false,
            Shade::Black => false,
        }
    }

    /// Greys the block where it is white, one of the blocks, and one that the mode takes. The answer is then a hint where
    /// it lies; else it is None, and nothing changes.
    fn visit(&mut self, id: BlockId, mode: Mode) -> Option<u32>
        ensures visits { Visits mode (shape self.old) id (is_some result) (shades self.old) (shades self.new) }
        ensures shape { shape self.new ≡ shape self.old }
        ensures rest { rest self.new ≡ rest self.old }
    {
        if self.has_block(id) && self.takes(id, mode) && self.is_white(id) {
            self.set_shade(id, Shade::Grey);
            Some(0)
        } else {
            None
        }
    }

    /// Visits the block at the end of the first edge from a place on; None past the last edge.
    fn follow(&mut self, id: BlockId, hint: u32, place: u64, mode: Mode) -> Option<Found>
        ensures next { MatchOption result ((shape self.old).edges_from id place ≡ []) (λ x. (shape self.old).edges_from id place ≡ x.id ∷ (shape self.old).edges_from id x.place) }
        ensures visits { MatchOption result (self.new ≡ self.old) (λ x. Visits mode (shape self.old) x.id x.is_new (shades self.old) (shades self.new)) }
        ensures shape { shape self.new ≡ shape self.old }
        ensures rest { rest self.new ≡ rest self.old }
    {
        let _ = hint;
        let Some(edge) = self.edge_from(id, place) else {
            return None;
        };
        let is_new = self.visit(edge.0, mode).is_some();
        Some(Found {
            id: edge.0,
            hint: 0,
            place: edge.1,
            is_new,
        })
    }

    /// Makes one of the blocks black.
    fn blacken(&mut self, id: BlockId, hint: u32)
        requires { Has (shape self.old).blocks id }
        ensures shade { WithShade (shades self.old) id shade.Black (shades self.new) }
        ensures shape { shape self.new ≡ shape self.old }
        ensures rest { rest self.new ≡ rest self.old }
    {
        let _ = hint;
        self.set_shade(id, Shade::Black);
    }

    /// Follows the first edge from a place on, and puts the block at its end onto the stack where it turned grey. The
    /// answer is the place after the edge; None past the last.
    fn follow_onto(
        &mut self,
        id: BlockId,
        hint: u32,
        place: u64,
        mode: Mode,
        stack: &mut Greys,
    ) -> Option<u64>
        ensures end { IfNone result (((shape self.old).edges_from id place ≡ []) × (self.new ≡ self.old) × (stack.new ≡ stack.old)) }
        ensures follows { IfSome result (λ after. FollowsOnto mode (shape self.old) id place after (shades self.old) stack.old (shades self.new) stack.new) }
        ensures shape { shape self.new ≡ shape self.old }
        ensures rest { rest self.new ≡ rest self.old }
    {
        let Some(found) = self.follow(id, hint, place, mode) else {
            return None;
        };
        if found.is_new {
            stack.push_within(found.id, found.hint);
        }
        Some(found.place)
    }

    /// Makes one of the blocks black, visits the ends of all edges that lead from it, in their order, and puts those that
    /// turned grey onto the stack, where it has room for them. O(edges of the block), beside the look-ups.
    fn scan(&mut self, id: BlockId, hint: u32, mode: Mode, stack: &mut Greys)
        requires { Has (shape self.old).blocks id }
        ensures scans { ScansOnto mode (shape self.old) id (shades self.old) stack.old (shades self.new) stack.new }
        ensures shape { shape self.new ≡ shape self.old }
        ensures rest { rest self.new ≡ rest self.old }
    {
        self.blacken(id, hint);
        let mut place = 0;
        while let Some(after) = self.follow_onto(id, hint, place, mode, stack) {
            place = after;
        }
    }

    /// Gives the block at this place, if there is one, this shade.
    fn shade_nth(&mut self, n: u32, s: Shade)
        ensures nth { MatchOption (slice_get (shape self.old).blocks n) (self.new ≡ self.old) (λ id. WithShade (shades self.old) id s (shades self.new)) }
        ensures shape { shape self.new ≡ shape self.old }
        ensures rest { rest self.new ≡ rest self.old }
    {
        if let Some(id) = self.block(n) {
            self.set_shade(id, s);
        }
    }

    /// Gives every block this shade. O(blocks).
    fn shade_all(&mut self, s: Shade)
        ensures each { (b : BlockId) → Has (shape self.old).blocks b → shades self.new b ≡ s }
        ensures outside { (b : BlockId) → ¬ Has (shape self.old).blocks b → shades self.new b ≡ shades self.old b }
        ensures shape { shape self.new ≡ shape self.old }
        ensures rest { rest self.new ≡ rest self.old }
    {
        let count = self.block_count();
        for n in 0..count {
            self.shade_nth(n, s);
        }
    }

    /// The n-th block, where it is white and one that the mode takes.
    fn left(&self, n: u32, mode: Mode) -> Option<BlockId>
        ensures { option_to_list result ≡ filter (is_left_white mode (shape self.now) (shades self.now)) (option_to_list (slice_get (shape self.now).blocks n)) }
    {
        let Some(id) = self.block(n) else {
            return None;
        };
        if self.is_white(id) && self.takes(id, mode) {
            Some(id)
        } else {
            None
        }
    }
}
