//! From what walks promise to what the definitions ask for. Each law is the contract of a function that does nothing.
ghost use Rattle.std.specs.Prelude.{◌≡◌, ◌+◌, ◌⊎◌, ℕ, IsTrue, IsFalse, List, None, filter, find};
ghost use Rattle.std.specs.List.Sorted.{IsStrictlySortedBy};
ghost use Rattle.az_base.specs.declared.action.Mode.{Mode};
ghost use Rattle.az_base.specs.declared.block_id.BlockId.{BlockId};
ghost use Rattle.az_base.specs.Ids.{id_cmp, among};
ghost use Rattle.quantum_space.specs.Shapes.{Shape, Shades, Has, edges};
ghost use Rattle.gen_marker.specs.Marking.{Begun, Finishes, Greys, NoGrey, Shut, Spreads, is_left};
ghost use Rattle.gen_marker.specs.Closure.{OfDark};
ghost use Rattle.gen_marker.specs.Tight.{AtBegin, Tight};
ghost use Rattle.finalise_pass.specs.Kept.{IsKeptIn, IsWatched, inside};
ghost use Rattle.zone_model.specs.State.{State, Cycle, moment, without};
ghost use Rattle.zone_model.specs.Reach.{AnchoredFor, is_old};
ghost use Rattle.zone_model.specs.Collection.{HasCondemned, Lists, MayCondemn, Reclaims, WasAnchored, awaits};
ghost use Rattle.zone_model.specs.Reached.{IsRooted, KeepsReached};
ghost use Rattle.zone_model.specs.Step.{with_moment};
ghost use Rattle.cycle_laws.specs.Shown.{HasStart, IsWithinScope, Shows, Watches};

/// After a begin what isn't white was anchored, where the remembered blocks are old.
pub fn begun_blocks_are_reached()
    ensures { (z : State) (c : Cycle) (s : Shape) (old new : Shades) → Shows c.mode z s → HasStart c s → KeepsReached z c → ((b : BlockId) → Has s.remembered b → IsTrue (is_old z b)) → Begun c.mode s old new → OfDark s new (WasAnchored c) }
{}

/// A slice keeps that what isn't white was anchored.
pub fn sliced_blocks_are_reached()
    ensures { (z : State) (c : Cycle) (s : Shape) (old new : Shades) → Shows c.mode z s → HasStart c s → KeepsReached z c → Spreads c.mode s old new → OfDark s old (WasAnchored c) → OfDark s new (WasAnchored c) }
{}

/// So does a call that changes the graph, where each block that it enlivens is anchored after it or was so before.
pub fn enlivened_blocks_are_reached()
    ensures { (after : State) (c : Cycle) (s t : Shape) (live : List BlockId) (old new : Shades) → c.condemned ≡ None → t.blocks ≡ s.blocks → Greys (AtBegin s live) old new → ((b : BlockId) → Has live b → Has s.blocks b → AnchoredFor c.mode after b ⊎ WasAnchored c b) → OfDark s old (WasAnchored c) → OfDark t new (WasAnchored (with_moment (moment after) c)) }
{}

/// What a finish leaves white may be condemned, where the graph was tight and what wasn't white was anchored.
pub fn what_is_left_may_be_condemned()
    ensures { (z : State) (c : Cycle) (s : Shape) (old new : Shades) → Shows c.mode z s → HasStart c s → IsRooted z → KeepsReached z c → Tight c.mode s old → OfDark s old (WasAnchored c) → Finishes c.mode s old new → Shut c.mode s new → NoGrey s.blocks new → (r : List BlockId) → IsStrictlySortedBy id_cmp r → ((b : BlockId) → among r b ≡ among (filter (is_left c.mode s new) s.blocks) b) → MayCondemn z c r }
{}

/// As marking ends, no edge of the graph leads into what is condemned.
pub fn nothing_leads_into_what_is_condemned()
    ensures { (m : Mode) (s : Shape) (f : Shades) (r : List BlockId) → Tight m s f → NoGrey s.blocks f → ((b : BlockId) → among r b ≡ among (filter (is_left m s f) s.blocks) b) → (a b : BlockId) → IsFalse (among r a) → IsTrue (among r b) → Has (edges s a) b → ⊥ }
{}

/// Where the escaped blocks that refer to condemned ones are remembered, settling finds each way into these.
pub fn settling_is_watched()
    ensures { (m : Mode) (z : State) (s : Shape) (r : List BlockId) → Shows m z s → IsRooted z → IsWithinScope m s r → Watches z s r → IsWatched s r }
{}

/// The lists of a settling over a graph that shows a state are those of a Reclaim from it, with nothing left to finalise.
pub fn settled_lists_are_a_reclaim()
    ensures { (m : Mode) (z : State) (s : Shape) (r : List BlockId) → Shows m z s → IsRooted z → IsWithinScope m s r → (t : ℕ) (kept gone : List BlockId) → HasCondemned z t r → find (awaits z) r ≡ None → Lists kept (λ b. IsTrue (among (inside s r) b) × IsKeptIn s (inside s r) b) → Lists gone (λ b. IsTrue (among (inside s r) b) × ¬ IsKeptIn s (inside s r) b) → Reclaims z t gone kept (record (without z gone) { reclaims = z.reclaims + 1; cycle = None }) }
{}
