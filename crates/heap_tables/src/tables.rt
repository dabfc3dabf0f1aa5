//! The tables together.
ghost use Rattle.std.specs.Prelude.{◌≡◌, ◌+◌, ◌≤◌, ◌<◌, ◌^◌, ◌++◌, IsSome, IfOk, MatchOption, map, length, option_and_then, slice_get, [], drop, false, replicate, None};
ghost use Rattle.std.specs.Option.{option_map_or};
ghost use Rattle.std.specs.FinMap.{empty};
ghost use Rattle.block_table.specs.Places.{NextOf, in_word, somes};
ghost use Rattle.block_table.specs.Table.{no_blocks, words_in};
ghost use Rattle.assoc_refs.specs.Table.{pairs_of};
ghost use Rattle.block_table.specs.Marking.{graph_in, marks_in};
ghost use Rattle.quantum_space.specs.Shapes.{VisitsAll};
ghost use Rattle.heap_tables.specs.Graphs.{edge_places, if_held_in, late_places, value_of};
ghost use Rattle.heap_tables.specs.Standing.{AreTables};

use crate::roots::Roots;
use assoc_refs::Assocs;
use az_base::{BlockId, Mode, NoMemory};
use block_table::BlockTable;
use quantum_space::Greys;
use retain_table::Counts;
use std::alloc::Global;
use write_barrier::Cards;

/// The escaped blocks, the roots, the counted blocks, the associations, and the remembered blocks.
#[derive(Drop)]
pub struct Tables {
    pub blocks: BlockTable,
    pub roots: Roots,
    pub counts: Counts,
    pub assocs: Assocs,
    pub cards: Cards,
}

impl Tables {
    /// No block, null roots, and all else empty.
    pub fn new(alloc: Global) -> Result<Tables, NoMemory>
        ensures blocks { IfOk result (λ t. t.blocks ≡ no_blocks) }
        ensures roots { IfOk result (λ t. t.roots ≡ replicate 256 None) }
        ensures counts { IfOk result (λ t. (t.counts.counts ≡ empty) × (t.counts.spare ≡ 0)) }
        ensures assocs { IfOk result (λ t. (t.assocs.pairs ≡ empty) × (t.assocs.ready ≡ None)) }
        ensures cards { IfOk result (λ t. t.cards.list ≡ []) }
    {
        let roots = Roots::new(alloc)?;
        Ok(Tables {
            blocks: BlockTable::new(alloc),
            roots,
            counts: Counts::new(alloc),
            assocs: Assocs::new(alloc),
            cards: Cards::new(alloc),
        })
    }

    /// What holds of all tables, for callers that argue from it. O(1).
    pub fn are_tables(&self)
        ensures { AreTables self.now }
    {
        let _blocks = self.blocks.len();
        let _counted = self.counts.len();
    }

    /// The first counted or held block from a place on, where the places begin after the roots.
    pub(crate) fn late_anchor_from(&self, place: u64) -> Option<(BlockId, u64)>
        ensures next { NextOf (late_places self.now) place result }
        ensures range { MatchOption result (Unit {0}) (λ x. x.1 < 2 ^ 63 + 2 ^ 32) }
    {
        let counted = self.counts.len() as u64;
        if place < counted {
            let Some(id) = self.counts.nth(place as usize) else {
                unreachable!()
            };
            return Some((id, place + 1));
        }
        match self.held_from(place - counted) {
            Some(found) => Some((found.0, found.1 + counted)),
            None => None,
        }
    }

    /// The first block from a position on that a thread holds.
    fn held_from(&self, position: u64) -> Option<(BlockId, u64)>
        ensures next { NextOf (map (if_held_in self.now.blocks.holds) self.now.blocks.order) position result }
        ensures range { MatchOption result (Unit {0}) (λ x. x.1 < 2 ^ 32) }
    {
        let len = u64::from(self.blocks.len());
        for n in position..len {
            if let Some(id) = self.held_at(n as u32) {
                return Some((id, n + 1));
            }
        }
        None
    }

    /// The block at a position, where a thread holds it.
    fn held_at(&self, n: u32) -> Option<BlockId>
        ensures { result ≡ option_and_then (if_held_in self.now.blocks.holds) (slice_get self.now.blocks.order n) }
    {
        if self.blocks.nth_is_held(n) {
            self.blocks.nth(n)
        } else {
            None
        }
    }

    /// The first block that a word refers to, from any place on, and the place after it.
    fn word_from(&self, id: BlockId, place: u64, hint: u32) -> Option<(BlockId, u64)>
        ensures next { NextOf (map in_word (words_in self.now.blocks.blocks id)) place result }
        ensures range { MatchOption result (Unit {0}) (λ x. x.1 ≤ 4096) }
    {
        match self.blocks.next_word(id, place.min(4_096) as u32, hint) {
            Some(found) => Some((found.0, u64::from(found.1))),
            None => None,
        }
    }

    /// The first value of an association, from a place on after the words.
    fn value_from(&self, id: BlockId, place: u64, hint: u32) -> Option<(BlockId, u64)>
        requires { somes (drop place (map in_word (words_in self.now.blocks.blocks id))) ≡ [] }
        ensures { NextOf (edge_places self.now id) place result }
    {
        if !self.assocs.may_have(id) {
            return None;
        }
        let words = u64::from(self.blocks.words(id, hint));
        let n = place.saturating_sub(words);
        match self.assocs.nth_of(id, n as usize) {
            Some(found) => Some((found.1, words + n + 1)),
            None => None,
        }
    }

    /// The end of the first edge that leads from the block, from a place on, and the place after it. The block isn't looked
    /// up where the hint is right.
    pub fn next_edge(&self, id: BlockId, place: u64, hint: u32) -> Option<(BlockId, u64)>
        ensures { NextOf (edge_places self.now id) place result }
    {
        match self.word_from(id, place, hint) {
            Some(found) => Some(found),
            None => self.value_from(id, place, hint),
        }
    }
}

/// Visits the values of a block's associations, in the order of their keys, and puts those that turn grey onto the stack,
/// where it has room for them. O(values) expected, and without a look-up where a block can't have any.
pub(crate) fn visit_values(
    blocks: &mut BlockTable,
    assocs: &Assocs,
    id: BlockId,
    mode: Mode,
    stack: &mut Greys,
)
    ensures visits { VisitsAll mode (graph_in blocks.old) (somes (map value_of (pairs_of assocs.now.pairs id))) (marks_in blocks.old) stack.old (marks_in blocks.new) stack.new }
    ensures rest { blocks.new ≡ record blocks.old { shades = blocks.new.shades } }
{
    if !assocs.may_have(id) {
        return;
    }
    let mut n = 0;
    while let Some(found) = assocs.nth_of(id, n) {
        blocks.visit_onto(found.1, mode, stack);
        n += 1;
    }
}
