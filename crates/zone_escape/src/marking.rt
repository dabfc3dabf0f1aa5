//! Marking in slices.
ghost use Rattle.std.specs.Prelude.{◌≡◌, ◌≤◌, ◌+◌, false, IfSome};
ghost use Rattle.gen_marker.specs.Progress.{Ends};
ghost use Rattle.zone_model.specs.History.{Legal};
ghost use Rattle.zone_model.specs.Phases.{Marking};
ghost use Rattle.zone_model.specs.State.{State};
ghost use Rattle.heap_cycle.specs.Collector.{shade_in};
ghost use Rattle.shared_heap.specs.Cycles.{Darkens, black_in};
ghost use Rattle.shared_heap.specs.Shared.{with_gc};
ghost use Rattle.zone_escape.specs.Cores.{BelongsTo, IsCore, IsCoreOf};

use crate::zone_core::Core;
use az_base::Steps;
use gen_marker::Progress;
use local_set::Local;
use std::sync::ledger::Ledger;

/// Marks in the thread's own open cycle, which isn't condemned: grey blocks are scanned, at most `budget`, one tick each. More
/// exactly where so many were scanned and a grey one is left. It makes no entry, and takes no memory. O(budget, and edges of
/// the scanned blocks).
pub fn slice<L: Ledger>(
    local: &Local,
    core: &mut Core,
    budget: u32,
    steps: &mut Steps<L>,
) -> Progress
    requires belongs { BelongsTo local.now core.old }
    requires running { local.now.ended ≡ false }
    requires marking { (z : State) → IsCoreOf core.old z → Marking z local.now.thread }
    requires budget { 1 ≤ budget }
    ensures value { core.new ≡ record core.old { heap = with_gc core.old.heap core.new.heap.gc } }
    ensures dark { Darkens core.old.heap.gc core.new.heap.gc }
    ensures ticks { steps.new + black_in core.old.heap ≡ steps.old + black_in core.new.heap }
    ensures within { steps.new ≤ steps.old + budget }
    ensures ends { IfSome core.new.heap.gc.cycle (λ g. Ends result g.start (shade_in g) (steps.new ≡ steps.old + budget)) }
    // no state of the definitions changes
    ensures stays { (z : State) → IsCoreOf core.old z → IsCoreOf core.new z }
    ensures legal { Legal core.new.heap.options core.new.journal.entries }
    ensures state { IsCore core.new }
{
    let _ = &core.journal;
    core.heap.mark_slice(local.thread(), budget, steps)
}
