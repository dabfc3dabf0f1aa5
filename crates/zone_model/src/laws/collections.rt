//! Collections worked by hand: what is a legal history, and beside it one that is none.
ghost use Rattle.std.specs.Prelude.{◌++◌, ◌∷◌, []};
ghost use Rattle.az_base.specs.OptionRanges.{usual_options};
ghost use Rattle.zone_model.specs.History.{Legal};
ghost use Rattle.zone_model.specs.Worked.{first_block};
ghost use Rattle.zone_model.specs.WorkedCollections.{busy_history, two_cycles, held_block, garbage, garbage_history, kept_block, finaliser_history, dead_referrer, dead_referrer_history, old_referrer, old_referrer_history, second_block, condemned, finalised, settled};

/// A thread that asks for a collection while another one's is open finds the zone busy, and isn't let in.
pub fn a_second_cycle_is_busy()
    ensures legal { Legal usual_options busy_history }
    ensures twice { ¬ Legal usual_options two_cycles }
{}

/// Garbage is condemned and reclaimed; a Condemn of nothing leaves garbage that nothing reached since Begin, and one of a
/// block that a register and a root hold takes what is in use.
pub fn garbage_is_condemned_and_held_blocks_are_not()
    ensures legal { Legal usual_options garbage_history }
    ensures nothing { ¬ Legal usual_options (garbage ++ condemned [] ∷ []) }
    ensures held { ¬ Legal usual_options (held_block ++ condemned (first_block ∷ []) ∷ []) }
{}

/// A condemned block that its finaliser put into a root is kept; it isn't finalised again, nor reclaimed.
pub fn a_finaliser_may_keep_its_block()
    ensures legal { Legal usual_options finaliser_history }
    ensures twice { ¬ Legal usual_options (kept_block ++ finalised first_block ∷ []) }
    ensures reclaimed { ¬ Legal usual_options (kept_block ++ settled (first_block ∷ []) [] ∷ []) }
{}

/// A condemned block to which a block outside the condemned set refers is kept, though nothing holds either.
pub fn a_dead_block_outside_keeps_what_it_refers_to()
    ensures legal { Legal usual_options dead_referrer_history }
    ensures reclaimed { ¬ Legal usual_options (dead_referrer ++ settled (second_block ∷ []) [] ∷ []) }
{}

/// A young collection leaves a young block to which an old one refers, though nothing holds either.
pub fn an_old_block_keeps_what_it_refers_to_young()
    ensures legal { Legal usual_options old_referrer_history }
    ensures condemned { ¬ Legal usual_options (old_referrer ++ condemned (second_block ∷ []) ∷ []) }
{}
