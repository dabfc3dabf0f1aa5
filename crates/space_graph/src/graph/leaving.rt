//! Blocks that go.
ghost use Rattle.std.specs.Prelude.{◌≡◌, ◌<◌, ◌≤◌, ◌+◌, ℕ, None, Some, IsTrue, if◌then◌else◌, length};
ghost use Rattle.az_base.specs.declared.block_id.BlockId.{BlockId};
ghost use Rattle.az_base.specs.Ids.{among, id_eq};
ghost use Rattle.quantum_space.specs.declared.spot.Spot.{Spot as ASpot};
ghost use Rattle.block_space.specs.Marking.{HasBlockIn, IsUnknown, len_in};
ghost use Rattle.space_graph.specs.Graphs.{IsForgotten, IsGoneFrom, IsTakenOut, KnowsLess, KnowsNothing, spot_for};

use crate::graph::SpaceGraph;
use crate::rows::Rows;
use az_base::BlockId;
use block_space::Space;
use quantum_space::Spot;

/// The block of a row goes with it, if there is one.
fn free_row(rows: &mut Rows, space: &mut Space, id: BlockId)
    requires { (x : ASpot) → spot_for rows.old.list id ≡ Some x → HasBlockIn space.old x × IsUnknown space.old x }
    ensures rows { (q : BlockId) → spot_for rows.new.list q ≡ (if id_eq id q then None else spot_for rows.old.list q) }
    ensures fewer { length rows.new.list ≤ length rows.old.list }
    ensures room { rows.old.room ≤ rows.new.room }
    ensures gone { IsGoneFrom rows.old.list space.old id space.new }
{
    if let Some(spot) = rows.take_out(id) {
        space.free_spot(spot);
    }
}

impl SpaceGraph {
    /// No word of the block that begins at a quantum knows any more where a block lies.
    fn forget(&mut self, spot: Spot)
        requires { HasBlockIn self.old.space spot }
        ensures less { KnowsLess self.old self.new }
        ensures none { KnowsNothing self.new.space spot (len_in self.old.space spot) }
    {
        let len = self.space.len_in(spot);
        for i in 0..len {
            self.forget_word(spot, i);
        }
    }

    /// A word of the block that begins at a quantum doesn't know any more where a block lies.
    fn forget_word(&mut self, spot: Spot, i: u32)
        requires { i < len_in self.old.space spot }
        ensures less { KnowsLess self.old self.new }
        ensures none { KnowsNothing self.old.space spot i → KnowsNothing self.new.space spot (i + 1) }
    {
        let word = self.space.word_in(spot, i).word();
        self.set_word(spot, i, word);
    }

    /// No word of these blocks knows any more where a block lies. So they may go one by one, although they may refer to one
    /// another. O(words of the blocks) expected.
    pub fn forget_all(&mut self, ids: &[BlockId])
        ensures less { KnowsLess self.old self.new }
        ensures none { (a : BlockId) (x : ASpot) → IsTrue (among ids.now a) → spot_for self.old.rows a ≡ Some x → KnowsNothing self.new.space x (len_in self.old.space x) }
    {
        for n in 0..ids.len() {
            self.forget_one(ids[n]);
        }
    }

    /// No word of the block, if it is there, knows any more where a block lies.
    fn forget_one(&mut self, id: BlockId)
        ensures less { KnowsLess self.old self.new }
        ensures none { (x : ASpot) → spot_for self.old.rows id ≡ Some x → KnowsNothing self.new.space x (len_in self.old.space x) }
    {
        if let Some(spot) = self.find(id) {
            self.forget(spot);
        }
    }

    /// A block goes, if it is there, where all blocks are those of the next cycle. Others may have other positions then.
    /// O(quanta of the block) expected.
    pub fn remove(&mut self, id: BlockId)
        requires forgotten { IsForgotten self.old id }
        requires all { self.old.began ≡ length self.old.rows }
        ensures { IsTakenOut self.old id self.new }
    {
        self.space.is_whole();
        free_row(&mut self.rows, &mut self.space, id);
        self.began = self.rows.len() as u32;
    }
}
