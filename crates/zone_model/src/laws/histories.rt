//! Legal histories: each entry has one next state, and two histories worked by hand.
ghost use Rattle.std.specs.Prelude.{◌≡◌, ◌∷◌, List, []};
ghost use Rattle.az_base.specs.declared.options.Options.{Options};
ghost use Rattle.az_base.specs.OptionRanges.{usual_options};
ghost use Rattle.zone_model.specs.declared.entry.Entry.{Entry};
ghost use Rattle.zone_model.specs.State.{State};
ghost use Rattle.zone_model.specs.Step.{Step};
ghost use Rattle.zone_model.specs.History.{Ends, Legal};
ghost use Rattle.zone_model.specs.Worked.{first_block, first_history};

/// A state and an entry have one next state.
pub fn steps_are_determined()
    ensures { (z : State) (e : Entry) (a b : State) → Step z e a → Step z e b → a ≡ b }
{}

/// The entries of a history determine its last state.
pub fn histories_end_once()
    ensures { (o : Options) (history : List Entry) (a b : State) → Ends o history a → Ends o history b → a ≡ b }
{}

/// A thread may make a block and leave, and its block is then reclaimed.
pub fn first_history_is_legal()
    ensures { Legal usual_options (first_history (first_block ∷ [])) }
{}

/// The same with nothing reclaimed at the leave is no legal history.
pub fn first_history_must_reclaim()
    ensures { ¬ Legal usual_options (first_history []) }
{}
