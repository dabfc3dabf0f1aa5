//! Scanning: grey blocks turn black, some of them or all.
ghost use Rattle.std.specs.Prelude.{◌≡◌, ◌≤◌, ◌+◌, []};
ghost use Rattle.gen_marker.specs.Marking.{Tracks, NoGrey, Shut, Spreads, blacks};
ghost use Rattle.gen_marker.specs.Progress.{Ends};
ghost use Rattle.quantum_space.specs.Shapes.{OnlyShades};

use crate::walk::Walk;
use az_base::Steps;
use quantum_space::Graph;
use std::sync::ledger::Ledger;

/// Whether a slice left grey blocks.
#[derive(Clone, Copy, Debug, PartialEq, Eq, Hash)]
pub enum Progress {
    Done,
    More,
}

impl Walk {
    /// Scans grey blocks, at most so many, one tick each.
    pub(crate) fn slice<G: Graph, L: Ledger>(
        &mut self,
        graph: &mut G,
        budget: u32,
        steps: &mut Steps<L>,
    ) -> Progress
        requires tracks { Tracks self.old (G.shape graph.old).blocks (G.shades graph.old) }
        requires shut { Shut self.old.mode (G.shape graph.old) (G.shades graph.old) }
        ensures tracks { Tracks self.new (G.shape graph.new).blocks (G.shades graph.new) }
        ensures mode { self.new.mode ≡ self.old.mode }
        ensures shut { Shut self.new.mode (G.shape graph.new) (G.shades graph.new) }
        ensures spreads { Spreads self.old.mode (G.shape graph.old) (G.shades graph.old) (G.shades graph.new) }
        ensures ticks { steps.new + blacks (G.shape graph.old).blocks (G.shades graph.old) ≡ steps.old + blacks (G.shape graph.old).blocks (G.shades graph.new) }
        ensures within { (steps.old ≤ steps.new) × (steps.new ≤ steps.old + budget) }
        ensures ends { Ends result (G.shape graph.old).blocks (G.shades graph.new) (steps.new ≡ steps.old + budget) }
        ensures only { OnlyShades G G.Rest G.shape G.rest graph.old graph.new }
    {
        for n in 0..budget {
            if !self.scan_next(graph) {
                return Progress::Done;
            }
            let _ = n;
            steps.tick();
        }
        if self.is_done() {
            Progress::Done
        } else {
            Progress::More
        }
    }

    /// Scans until no block is grey, one tick each.
    pub(crate) fn scan_counted<G: Graph, L: Ledger>(&mut self, graph: &mut G, steps: &mut Steps<L>)
        requires tracks { Tracks self.old (G.shape graph.old).blocks (G.shades graph.old) }
        requires shut { Shut self.old.mode (G.shape graph.old) (G.shades graph.old) }
        ensures tracks { Tracks self.new (G.shape graph.new).blocks (G.shades graph.new) }
        ensures mode { self.new.mode ≡ self.old.mode }
        ensures shut { Shut self.new.mode (G.shape graph.new) (G.shades graph.new) }
        ensures no_grey { NoGrey (G.shape graph.new).blocks (G.shades graph.new) }
        ensures spreads { Spreads self.old.mode (G.shape graph.old) (G.shades graph.old) (G.shades graph.new) }
        ensures ticks { steps.new + blacks (G.shape graph.old).blocks (G.shades graph.old) ≡ steps.old + blacks (G.shape graph.old).blocks (G.shades graph.new) }
        ensures only { OnlyShades G G.Rest G.shape G.rest graph.old graph.new }
    {
        let count = graph.block_count();
        let _ = self.slice(graph, u32::MAX, steps);
        let _ = count;
    }

    /// Scans until no block is grey.
    pub fn scan_all<G: Graph>(&mut self, graph: &mut G)
        requires tracks { Tracks self.old (G.shape graph.old).blocks (G.shades graph.old) }
        requires shut { Shut self.old.mode (G.shape graph.old) (G.shades graph.old) }
        ensures tracks { Tracks self.new (G.shape graph.new).blocks (G.shades graph.new) }
        ensures mode { self.new.mode ≡ self.old.mode }
        ensures room { self.new.room ≡ self.old.room }
        ensures empty { self.new.grey ≡ [] }
        ensures shut { Shut self.new.mode (G.shape graph.new) (G.shades graph.new) }
        ensures no_grey { NoGrey (G.shape graph.new).blocks (G.shades graph.new) }
        ensures spreads { Spreads self.old.mode (G.shape graph.old) (G.shades graph.old) (G.shades graph.new) }
        ensures only { OnlyShades G G.Rest G.shape G.rest graph.old graph.new }
    {
        while self.scan_next(graph) {}
    }
}
