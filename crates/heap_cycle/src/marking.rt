//! Marking, a slice at a time.
ghost use Rattle.std.specs.Prelude.{◌≡◌, ◌≤◌, ◌+◌, None, Some};
ghost use Rattle.gen_marker.specs.Marking.{blacks};
ghost use Rattle.gen_marker.specs.Progress.{Ends};
ghost use Rattle.heap_tables.specs.Graphs.{shades_of};
ghost use Rattle.heap_cycle.specs.Collects.{Collects, condemned_at, start_of};
ghost use Rattle.heap_cycle.specs.Phases.{IsSliced};

use crate::open_cycle::{OpenCycle, Phase};
use az_base::Steps;
use gen_marker::Progress;
use heap_tables::Tables;
use std::sync::ledger::Ledger;

impl OpenCycle {
    /// Scans grey blocks, at most `budget`, one tick each. More exactly where so many were scanned and a grey one is left.
    /// O(budget, and edges of the scanned blocks).
    pub fn slice<L: Ledger>(
        &mut self,
        tables: &mut Tables,
        budget: u32,
        steps: &mut Steps<L>,
    ) -> Progress
        requires collects { Collects tables.old (Some self.old) }
        requires marking { condemned_at self.old.phase ≡ None }
        requires budget { 1 ≤ budget }
        ensures sliced { IsSliced tables.old tables.new self.old self.new }
        ensures collects { Collects tables.new (Some self.new) }
        ensures ticks { steps.new + blacks (start_of tables.old) (shades_of tables.old) ≡ steps.old + blacks (start_of tables.old) (shades_of tables.new) }
        ensures within { steps.new ≤ steps.old + budget }
        ensures ends { Ends result (start_of tables.old) (shades_of tables.new) (steps.new ≡ steps.old + budget) }
    {
        match &mut self.phase {
            Phase::Marking { marker, .. } => marker.slice(tables, budget, steps),
            Phase::Settling { .. } => unreachable!(),
        }
    }
}
