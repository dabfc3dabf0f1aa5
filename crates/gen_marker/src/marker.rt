//! One cycle of marking.
ghost use Rattle.std.specs.Prelude.{◌≡◌, ◌≤◌, ◌+◌, IfOk, IfErr, filter};
ghost use Rattle.std.specs.List.Sorted.{IsStrictlySortedBy, IsStrictlySortedBy-prop};
ghost use Rattle.az_base.specs.declared.block_id.BlockId.{BlockId};
ghost use Rattle.az_base.specs.Ids.{id_cmp, among};
ghost use Rattle.gen_marker.specs.Marking.{Tracks, Enlivens, Begun, NoGrey, Finishes, is_left, Shut, Spreads, blacks};
ghost use Rattle.gen_marker.specs.Progress.{Ends};
ghost use Rattle.quantum_space.specs.Shapes.{OnlyShades};

use crate::scanning::Progress;
use crate::shading::shade_all;
use crate::walk::Walk;
use az_base::{BlockId, Mode, NoMemory, Steps};
use quantum_space::{Graph, Shade};
use std::alloc::Global;
use std::marker::Model;
use std::sync::ledger::Ledger;
use zone_model::IdList;

/// What a collection condemns, ascending.
#[derive(Debug, Drop)]
pub struct Condemned {
    pub ids: IdList,
    ghost ascending: { IsStrictlySortedBy id_cmp ids.list } by { IsStrictlySortedBy-prop id_cmp ids.list },
}

/// A cycle of marking over a graph, from its begin to its finish. Each call wants the graph's blocks, their ages and
/// their shades as the last call left them; edges and anchors may change between calls.
#[derive(Drop)]
pub struct Marker {
    walk: Walk,
}

impl Model for Marker {
    ghost use Rattle.gen_marker.specs.Marking.{Marking};

    ghost Value = { Marking };

    ghost view = { λ m. m.walk };
}

impl Marker {
    /// Begins over white blocks with the anchors grey, for mode young the young ones and the remembered blocks.
    /// It takes all room that marking needs, and answers NoMemory with the graph unchanged.
    pub fn begin<G: Graph>(alloc: Global, graph: &mut G, mode: Mode) -> Result<Marker, NoMemory>
        ensures tracks { IfOk result (λ m. Tracks m (G.shape graph.new).blocks (G.shades graph.new)) }
        ensures mode { IfOk result (λ m. m.mode ≡ mode) }
        ensures begun { IfOk result (λ m. Begun mode (G.shape graph.old) (G.shades graph.old) (G.shades graph.new)) }
        ensures shut { IfOk result (λ m. Shut m.mode (G.shape graph.new) (G.shades graph.new)) }
        ensures refused { IfErr result (λ e. graph.new ≡ graph.old) }
        ensures only { OnlyShades G G.Rest G.shape G.rest graph.old graph.new }
    {
        let count = graph.block_count();
        let Ok(stack) = Vec::with_capacity(alloc, count as usize) else {
            return Err(NoMemory);
        };
        let Ok(hints) = Vec::with_capacity(alloc, count as usize) else {
            return Err(NoMemory);
        };
        shade_all(graph, Shade::White);
        let mut walk = Walk::with_hints(mode, stack, hints);
        walk.grey_first(graph);
        Ok(Marker { walk })
    }

    /// Greys a white block of the blocks at begin; else nothing. It is for the value of each store meanwhile.
    pub fn enliven<G: Graph>(&mut self, graph: &mut G, id: BlockId)
        requires { Tracks self.old (G.shape graph.old).blocks (G.shades graph.old) }
        ensures tracks { Tracks self.new (G.shape graph.new).blocks (G.shades graph.new) }
        ensures mode { self.new.mode ≡ self.old.mode }
        ensures shade { Enlivens (G.shape graph.old).blocks id (G.shades graph.old) (G.shades graph.new) }
        ensures only { OnlyShades G G.Rest G.shape G.rest graph.old graph.new }
    {
        self.walk.grey(graph, id);
    }

    /// Scans grey blocks, at most `budget`, one tick each. More exactly where so many were scanned and a grey one is
    /// left.
    pub fn slice<G: Graph, L: Ledger>(
        &mut self,
        graph: &mut G,
        budget: u32,
        steps: &mut Steps<L>,
    ) -> Progress
        requires tracks { Tracks self.old (G.shape graph.old).blocks (G.shades graph.old) }
        requires shut { Shut self.old.mode (G.shape graph.old) (G.shades graph.old) }
        ensures tracks { Tracks self.new (G.shape graph.new).blocks (G.shades graph.new) }
        ensures mode { self.new.mode ≡ self.old.mode }
        ensures shut { Shut self.new.mode (G.shape graph.new) (G.shades graph.new) }
        ensures spreads { Spreads self.old.mode (G.shape graph.old) (G.shades graph.old) (G.shades graph.new) }
        ensures ticks { steps.new + blacks (G.shape graph.old).blocks (G.shades graph.old) ≡ steps.old + blacks (G.shape graph.old).blocks (G.shades graph.new) }
        ensures within { (steps.old ≤ steps.new) × (steps.new ≤ steps.old + budget) }
        ensures ends { Ends result (G.shape graph.old).blocks (G.shades graph.new) (steps.new ≡ steps.old + budget) }
        ensures only { OnlyShades G G.Rest G.shape G.rest graph.old graph.new }
    {
        self.walk.slice(graph, budget, steps)
    }

    /// Greys the anchors again, scans to the end, and gives the white blocks, for mode young the young ones, ascending.
    /// It takes no memory. O(blocks and edges), and O(c log c) for c condemned blocks.
    pub fn finish<G: Graph, L: Ledger>(self, graph: &mut G, steps: &mut Steps<L>) -> Condemned
        requires tracks { Tracks self (G.shape graph.old).blocks (G.shades graph.old) }
        requires shut { Shut self.mode (G.shape graph.old) (G.shades graph.old) }
        ensures ids { (b : BlockId) → among result.ids.list b ≡ among (filter (is_left self.mode (G.shape graph.old) (G.shades graph.new)) (G.shape graph.old).blocks) b }
        ensures in_order { IsStrictlySortedBy id_cmp (G.shape graph.old).blocks → result.ids.list ≡ filter (is_left self.mode (G.shape graph.old) (G.shades graph.new)) (G.shape graph.old).blocks }
        ensures shut { Shut self.mode (G.shape graph.new) (G.shades graph.new) }
        ensures no_grey { NoGrey (G.shape graph.new).blocks (G.shades graph.new) }
        ensures finishes { Finishes self.mode (G.shape graph.old) (G.shades graph.old) (G.shades graph.new) }
        ensures ticks { steps.new + blacks (G.shape graph.old).blocks (G.shades graph.old) ≡ steps.old + blacks (G.shape graph.old).blocks (G.shades graph.new) }
        ensures only { OnlyShades G G.Rest G.shape G.rest graph.old graph.new }
    {
        let Marker { mut walk } = self;
        walk.grey_anchors(graph);
        walk.scan_counted(graph, steps);
        let mut ids = walk.gather(graph);
        ids.sort_unstable();
        Condemned {
            ids: IdList::from_vec(ids),
        }
    }

    /// Greys the anchors again, scans to the end, and gives the white blocks, for mode young the young ones, ascending, as
    /// `finish` does; it is for who counts no steps. It takes no memory. O(blocks and edges), and O(c log c) for c
    /// condemned blocks.
    pub fn finish_uncounted<G: Graph>(self, graph: &mut G) -> Condemned
        requires tracks { Tracks self (G.shape graph.old).blocks (G.shades graph.old) }
        requires shut { Shut self.mode (G.shape graph.old) (G.shades graph.old) }
        ensures ids { (b : BlockId) → among result.ids.list b ≡ among (filter (is_left self.mode (G.shape graph.old) (G.shades graph.new)) (G.shape graph.old).blocks) b }
        ensures shut { Shut self.mode (G.shape graph.new) (G.shades graph.new) }
        ensures no_grey { NoGrey (G.shape graph.new).blocks (G.shades graph.new) }
        ensures finishes { Finishes self.mode (G.shape graph.old) (G.shades graph.old) (G.shades graph.new) }
        ensures only { OnlyShades G G.Rest G.shape G.rest graph.old graph.new }
    {
        let Marker { mut walk } = self;
        walk.grey_anchors(graph);
        walk.scan_all(graph);
        let mut ids = walk.gather(graph);
        ids.sort_unstable();
        Condemned {
            ids: IdList::from_vec(ids),
        }
    }
}
