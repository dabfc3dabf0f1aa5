//! Where a thread stands in its own cycle, what others leave of it, and what its steps make of it.
ghost use Rattle.std.specs.Prelude.{◌≡◌, ◌<◌, ◌+◌, ◌⊎◌, ℕ, List, false};
ghost use Rattle.az_base.specs.declared.action.Mode.{Mode};
ghost use Rattle.zone_model.specs.declared.entry.Reply.{Reply};
ghost use Rattle.zone_model.specs.declared.entry.Entry.{Entry};
ghost use Rattle.zone_model.specs.State.{State};
ghost use Rattle.zone_model.specs.Step.{Step};
ghost use Rattle.zone_model.specs.History.{Run, is_cycle_step};
ghost use Rattle.zone_model.specs.Sound.{Sound};
ghost use Rattle.zone_model.specs.Phases.{Free, Marking, Settling, CycleStays, NoneOf, left_in, May};
ghost use Rattle.zone_model.specs.Replies.{replied};
ghost use Rattle.zone_model.specs.declared.call.Call.TheVariants as call;
ghost use Rattle.zone_model.specs.declared.entry.Reply.TheVariants as reply;

/// What others do leaves a thread's cycle as it was, and so does a call that is no step of a cycle, whose ever it is.
pub fn cycles_stay_while_others_step()
    ensures others { (z : State) → Sound z → (es : List Entry) (a : State) (t : ℕ) → Run z es a → NoneOf t es → CycleStays t z a }
    ensures calls { (z : State) → Sound z → (e : Entry) (a : State) (t : ℕ) → Step z e a → is_cycle_step e.call ≡ false → CycleStays t z a }
{}

/// Where a thread's cycle stays, its phase does: free, marking, or settling with so many blocks left.
pub fn phases_stay_with_their_cycle()
    ensures free { (t : ℕ) (y z : State) → CycleStays t y z → Free y t → Free z t }
    ensures marking { (t : ℕ) (y z : State) → CycleStays t y z → Marking y t → Marking z t }
    ensures settling { (n t : ℕ) (y z : State) → CycleStays t y z → Settling n y t → Settling n z t }
{}

/// A Begin that isn't busy leads from free to marking, a Condemn to settling, each Finalise leaves one block less to be
/// finalised, and a Reclaim leads back to free.
pub fn steps_lead_from_phase_to_phase()
    ensures begin { (z : State) (t : ℕ) (r : Reply) (a : State) (m : Mode) → Free z t → Step z (replied t (call.Begin m) r) a → ((r ≡ reply.Busy) × Free a t) ⊎ ((r ≡ reply.Begun) × Marking a t) }
    ensures condemn { (z : State) (t : ℕ) (r : Reply) (a : State) → Step z (replied t call.Condemn r) a → Settling (left_in a) a t }
    ensures finalise { (z : State) (t : ℕ) (r : Reply) (a : State) (left : ℕ) → Settling left z t → Step z (replied t call.Finalise r) a → (left_in a + 1 ≡ left) × Settling (left_in a) a t }
    ensures reclaim { (z : State) (t : ℕ) (r : Reply) (a : State) → Step z (replied t call.Reclaim r) a → Free a t }
    ensures next { (n : ℕ) (z : State) (t : ℕ) → Settling n z t → (0 < n → May z t call.Finalise) × (n ≡ 0 → May z t call.Reclaim) }
{}
