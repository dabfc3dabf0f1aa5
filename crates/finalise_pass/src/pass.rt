//! A pass over condemned blocks.
ghost use Rattle.std.specs.Prelude.{◌≡◌, IsTrue, MatchOption, find, fold, false, length, slice_get, Some, None, drop, ◌≤◌};
ghost use Rattle.std.specs.Option.{option_map_or};
ghost use Rattle.az_base.specs.declared.block_id.BlockId.{BlockId};
ghost use Rattle.az_base.specs.Ids.{among};
ghost use Rattle.quantum_space.specs.Shapes.{OnlyShades};
ghost use Rattle.zone_model.specs.Collection.{Lists};
ghost use Rattle.finalise_pass.specs.Finalisers.{Finalisers, awaits, with_action, with_done};
ghost use Rattle.finalise_pass.specs.Passing.{EndsAfter, GoesPast, HasPassed};
ghost use Rattle.finalise_pass.specs.Kept.{IsKeptIn, IsWatched, inside};

use crate::finals::Finals;
use crate::running::{awaits, run_all};
use crate::settling::{Settled, settle_lists, those_inside};
use az_base::BlockId;
use gen_marker::Condemned;
use quantum_space::Graph;
use std::marker::Model;
use zone_model::IdList;

/// The condemned blocks, ascending, and how many of them it has gone past: done-ness only grows, so a search goes on
/// after these.
#[derive(Debug, Drop)]
pub struct Pass {
    condemned: IdList,
    room: IdList,
    passed: usize,
}

impl Model for Pass {
    ghost use Rattle.std.specs.Prelude.{◌≤◌, length};
    ghost use Rattle.std.specs.List.Sorted.{IsStrictlySortedBy};
    ghost use Rattle.az_base.specs.Ids.{id_cmp};
    ghost use Rattle.finalise_pass.specs.Passing.{Passing};

    ghost Value = { Passing };

    ghost view = { λ p. record { condemned = p.condemned.list; passed = p.passed } };

    ghost invariant = { λ p. IsStrictlySortedBy id_cmp p.condemned.list × (length p.condemned.list ≤ p.room.spare) };
}

impl Pass {
    /// A pass over these blocks. The second list is room for the blocks that will be kept.
    pub fn new(condemned: Condemned, room: IdList) -> Pass
        requires { length condemned.ids.list ≤ room.spare }
        ensures condemned { result.condemned ≡ condemned.ids.list }
        ensures passed { result.passed ≡ 0 }
        ensures fresh { (f : Finalisers) → HasPassed result f }
    {
        Pass {
            condemned: condemned.ids,
            room,
            passed: 0,
        }
    }

    /// Whether it is one of the condemned blocks. O(log condemned).
    pub fn has(&self, id: BlockId) -> bool
        ensures { result ≡ among self.now.condemned id }
    {
        match self.condemned.as_slice().binary_search(&id) {
            Ok(_) => true,
            Err(_) => false,
        }
    }

    /// The least condemned block, from where the pass has come to, that has an action and isn't done; None exactly where
    /// there is none. It is the least of all as long as no block that the pass has gone past awaits anything again. O(the
    /// blocks between).
    pub fn next<F: Finals>(&self, finals: &F) -> Option<BlockId>
        ensures further { result ≡ find (awaits (F.finals finals.now)) (drop self.now.passed self.now.condemned) }
        ensures least { HasPassed self.now (F.finals finals.now) → result ≡ find (awaits (F.finals finals.now)) self.now.condemned }
    {
        let end = self.end_of_next(finals)?;
        self.condemned.get(end - 1)
    }

    /// Applies the actions of the block that is next, in their order; then it is done, and the pass has gone past it.
    /// O(the blocks between).
    pub fn apply<F: Finals>(&mut self, id: BlockId, finals: &mut F)
        requires { find (awaits (F.finals finals.old)) (drop self.old.passed self.old.condemned) ≡ Some id }
        ensures applied { F.finals finals.new ≡ with_done (fold (with_action id) (F.finals finals.old) ((F.finals finals.old).actions id)) id }
        ensures condemned { self.new.condemned ≡ self.old.condemned }
        ensures past { GoesPast (awaits (F.finals finals.old)) self.old id self.new.passed }
        ensures passed { HasPassed self.old (F.finals finals.old) → HasPassed self.new (F.finals finals.new) }
        ensures rest { F.rest finals.new ≡ F.rest finals.old }
    {
        self.go_past_next(finals);
        run_all(finals, id);
        finals.set_done(id);
    }

    /// Which condemned blocks of the graph are kept, and which are reclaimed: a block is kept where it is reached from an
    /// anchor or from a block that isn't condemned. Changes shades alone. A condemned id that is no block of the graph
    /// stands in neither list.
    pub fn settle<G: Graph>(self, graph: &mut G) -> Settled
        requires { IsWatched (G.shape graph.old) (inside (G.shape graph.old) self.condemned) }
        ensures kept { Lists result.kept.list (λ b. IsTrue (among (inside (G.shape graph.old) self.condemned) b) × IsKeptIn (G.shape graph.old) (inside (G.shape graph.old) self.condemned) b) }
        ensures reclaimed { Lists result.reclaimed.list (λ b. IsTrue (among (inside (G.shape graph.old) self.condemned) b) × ¬ IsKeptIn (G.shape graph.old) (inside (G.shape graph.old) self.condemned) b) }
        ensures only { OnlyShades G G.Rest G.shape G.rest graph.old graph.new }
    {
        let Pass {
            condemned,
            room,
            passed,
        } = self;
        let _ = passed;
        let settled = those_inside(graph, condemned);
        settle_lists(graph, settled, room)
    }

    /// The place after the next block.
    fn end_of_next<F: Finals>(&self, finals: &F) -> Option<usize>
        ensures { MatchOption result (find (awaits (F.finals finals.now)) (drop self.now.passed self.now.condemned) ≡ None) (EndsAfter (awaits (F.finals finals.now)) self.now) }
    {
        for place in self.passed..self.condemned.len() {
            if self.awaits_at(finals, place) {
                return Some(place + 1);
            }
        }
        None
    }

    /// Whether there is a block at the place that has an action and isn't done.
    fn awaits_at<F: Finals>(&self, finals: &F, place: usize) -> bool
        ensures { result ≡ option_map_or (awaits (F.finals finals.now)) (slice_get self.now.condemned place) false }
    {
        match self.condemned.get(place) {
            Some(id) => awaits(finals, id),
            None => false,
        }
    }

    /// The blocks up to the next one, and that one, need no search again.
    fn go_past_next<F: Finals>(&mut self, finals: &F)
        ensures condemned { self.new.condemned ≡ self.old.condemned }
        ensures past { MatchOption (find (awaits (F.finals finals.now)) (drop self.old.passed self.old.condemned)) (self.new ≡ self.old) (λ id. GoesPast (awaits (F.finals finals.now)) self.old id self.new.passed) }
    {
        if let Some(end) = self.end_of_next(finals) {
            self.passed = end;
        }
    }
}
