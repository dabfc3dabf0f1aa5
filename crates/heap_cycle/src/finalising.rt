//! Finalise: one finaliser after another.
ghost use Rattle.std.specs.Prelude.{◌≡◌, ◌<◌, IsSome, Some, drop, find, fold, length};
ghost use Rattle.finalise_pass.specs.Finalisers.{awaits, with_action, with_done};
ghost use Rattle.finalise_pass.specs.Passing.{HasPassed};
ghost use Rattle.heap_tables.specs.Running.{finals_of, unrun};
ghost use Rattle.heap_cycle.specs.Collects.{Collects, condemned_at};
ghost use Rattle.heap_cycle.specs.Phases.{IsFinalised};

use crate::open_cycle::{OpenCycle, Phase};
use az_base::BlockId;
use finalise_pass::Pass;
use heap_tables::Tables;

impl OpenCycle {
    /// Runs the finaliser of the least condemned block that waits for it. It takes no memory. O(the condemned blocks
    /// between this one and the last, and its actions).
    pub fn finalise_next(&mut self, tables: &mut Tables) -> BlockId
        requires collects { Collects tables.old (Some self.old) }
        requires settling { IsSome (condemned_at self.old.phase) }
        requires waiting { 0 < self.old.left }
        ensures finalised { IsFinalised tables.old tables.new self.old self.new result }
        ensures collects { Collects tables.new (Some self.new) }
    {
        let id = match &mut self.phase {
            Phase::Marking { .. } => unreachable!(),
            Phase::Settling { pass } => run_next(tables, pass),
        };
        self.left -= 1;
        id
    }
}

/// Runs the next finaliser of the pass.
fn run_next(tables: &mut Tables, pass: &mut Pass) -> BlockId
    requires { IsSome (find (awaits (finals_of tables.old)) (drop pass.old.passed pass.old.condemned)) }
    ensures next { find (awaits (finals_of tables.old)) (drop pass.old.passed pass.old.condemned) ≡ Some result }
    ensures applied { finals_of tables.new ≡ with_done (fold (with_action result) (finals_of tables.old) ((finals_of tables.old).actions result)) result }
    ensures rest { unrun tables.new ≡ unrun tables.old }
    ensures condemned { pass.new.condemned ≡ pass.old.condemned }
    ensures passed { HasPassed pass.old (finals_of tables.old) → HasPassed pass.new (finals_of tables.new) }
    ensures roots { length tables.new.roots ≡ length tables.old.roots }
{
    let Some(id) = pass.next(tables) else {
        unreachable!()
    };
    // There are as many roots before as after.
    let _roots = tables.roots.as_slice();
    pass.apply(id, tables);
    let _roots = tables.roots.as_slice();
    id
}
