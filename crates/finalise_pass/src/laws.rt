//! What settling keeps, against the definitions.
ghost use Rattle.std.specs.Prelude.{◌≡◌, List, IsTrue, ◌↔◌};
ghost use Rattle.az_base.specs.declared.block_id.BlockId.{BlockId};
ghost use Rattle.az_base.specs.Ids.{among};
ghost use Rattle.quantum_space.specs.Shapes.{Shape};
ghost use Rattle.zone_model.specs.State.{State};
ghost use Rattle.zone_model.specs.Collection.{IsKept, Lists};
ghost use Rattle.finalise_pass.specs.Kept.{IsKeptIn, IsWithin, ShowsState, inside};

/// Over a graph that shows a state, settling keeps exactly the condemned blocks that the definitions keep there.
pub fn settle_keeps_what_the_definitions_keep()
    ensures { (z : State) (s : Shape) (r : List BlockId) → ShowsState z s r → (b : BlockId) → IsTrue (among r b) → (IsKeptIn s r b ↔ IsKept z r b) }
{}

/// Where all condemned ids are blocks of the graph, those are settled.
pub fn condemned_blocks_are_settled()
    ensures { (s : Shape) (r : List BlockId) → IsWithin r s.blocks → inside s r ≡ r }
{}

/// So the lists of a settling are those that a reclaim of the definitions replies.
pub fn settled_lists_are_those_of_the_definitions()
    ensures { (z : State) (s : Shape) (r kept gone : List BlockId) → ShowsState z s r → Lists kept (λ b. IsTrue (among (inside s r) b) × IsKeptIn s (inside s r) b) → Lists gone (λ b. IsTrue (among (inside s r) b) × ¬ IsKeptIn s (inside s r) b) → Lists kept (λ b. IsTrue (among r b) × IsKept z r b) × Lists gone (λ b. IsTrue (among r b) × ¬ IsKept z r b) }
{}
