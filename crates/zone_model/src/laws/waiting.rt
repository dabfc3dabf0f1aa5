//! Entries that wait are steps whenever they are published.
ghost use Rattle.std.specs.Prelude.{◌≡◌, ◌+◌, ◌==◌, ◌++◌, ℕ, List, false};
ghost use Rattle.az_base.specs.declared.options.Options.{Options};
ghost use Rattle.zone_model.specs.declared.entry.Entry.{Entry};
ghost use Rattle.zone_model.specs.State.{State};
ghost use Rattle.zone_model.specs.History.{Run, Ends, Legal};
ghost use Rattle.zone_model.specs.Part.{Part, part_of};
ghost use Rattle.zone_model.specs.LocalSteps.{LocalRun};
ghost use Rattle.zone_model.specs.SameShared.{SameShared};
ghost use Rattle.zone_model.specs.Waits.{Waiter, Waits, waiting_of};
ghost use Rattle.zone_model.specs.Sound.{Sound};

/// Entries of a thread that are local from its part on are steps, whatever others published before. They leave the other
/// parts, and what is shared.
pub fn waiting_entries_are_steps()
    ensures { (z : State) → Sound z → (t : ℕ) (es : List Entry) (last : Part) → LocalRun (part_of z t) t es last
        → (after : State) × Run z es after × (part_of after t ≡ last) × ((u : ℕ) → (t == u) ≡ false → part_of after u ≡ part_of z u) × SameShared z after }
{}

/// The waiting entries of all threads are steps, in any order of the threads: a legal history, followed by them, is legal.
pub fn waiting_entries_of_all_threads_are_steps()
    ensures steps { (z : State) → Sound z → (ws : List Waiter) → Waits z ws → (after : State) × Run z (waiting_of ws) after }
    ensures legal { (o : Options) (history : List Entry) (z : State) (ws : List Waiter) → Ends o history z → Waits z ws → Legal o (history ++ waiting_of ws) }
{}
