//! What holds of each state of a legal history.
ghost use Rattle.std.specs.Prelude.{◌≤◌, ◌+◌, Bool, List};
ghost use Rattle.az_base.specs.declared.block_id.BlockId.{BlockId};
ghost use Rattle.az_base.specs.declared.options.Options.{Options};
ghost use Rattle.zone_model.specs.declared.entry.Entry.{Entry};
ghost use Rattle.zone_model.specs.State.{State, opening};
ghost use Rattle.zone_model.specs.Quanta.{used_quanta, quanta_needed};
ghost use Rattle.zone_model.specs.Escape.{Tells, EscFrom, with_escaped};
ghost use Rattle.zone_model.specs.Step.{Step};
ghost use Rattle.zone_model.specs.History.{Ends};
ghost use Rattle.zone_model.specs.Sound.{Sound};
ghost use Rattle.zone_model.specs.InRange.{InRange, CallInRange};

/// Each state of a legal history is sound.
pub fn states_are_sound()
    ensures { (o : Options) (history : List Entry) (z : State) → Ends o history z → Sound z }
{}

/// It is so at first, each step keeps it, and so does the escape of all unescaped blocks to which given blocks lead, where
/// these fit into the option heap.
pub fn soundness_is_kept()
    ensures opening { (o : Options) → Sound (opening o) }
    ensures step { (z : State) (e : Entry) (after : State) → Sound z → Step z e after → Sound after }
    ensures escape { (z : State) (first : List BlockId) (need : BlockId → Bool) → Sound z → Tells need (EscFrom z first) → used_quanta z + quanta_needed z need ≤ z.options.heap_quanta → Sound (with_escaped z need) }
{}

/// Registers past 15 and roots past 255 are null, and stay so by each step of a call that is in range.
pub fn registers_and_roots_stay_in_range()
    ensures opening { (o : Options) → InRange (opening o) }
    ensures step { (z : State) (e : Entry) (after : State) → InRange z → CallInRange e.call → Step z e after → InRange after }
{}
