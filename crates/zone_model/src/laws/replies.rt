//! A state and a call have one reply, but for the room of its lists.
ghost use Rattle.std.specs.Prelude.{◌≡◌, ◌≢◌, ℕ, List};
ghost use Rattle.zone_model.specs.declared.act.Act.{Act};
ghost use Rattle.zone_model.specs.declared.call.Call.{Call};
ghost use Rattle.zone_model.specs.declared.entry.Reply.{Reply};
ghost use Rattle.zone_model.specs.declared.entry.Entry.{Entry};
ghost use Rattle.zone_model.specs.State.{State};
ghost use Rattle.zone_model.specs.Step.{Step};
ghost use Rattle.zone_model.specs.History.{Run, IsGroup};
ghost use Rattle.zone_model.specs.Part.{Part, PartRun};
ghost use Rattle.zone_model.specs.LocalSteps.{LocalStep};
ghost use Rattle.zone_model.specs.Bare.{bare_reply, bare_entry};
ghost use Rattle.zone_model.specs.Replies.{replied, AllOf, NoCondemn, SameButRoom};
ghost use Rattle.zone_model.specs.declared.call.Call.TheVariants as call;

/// From one state a thread's call has one reply and one state after. A Condemn by itself is apart, since the collector
/// may keep what was dropped since Begin.
pub fn calls_have_one_reply()
    ensures { (z : State) (t : ℕ) (c : Call) (r s : Reply) (a b : State) → c ≢ call.Condemn → Step z (replied t c r) a → Step z (replied t c s) b → (bare_reply r ≡ bare_reply s) × (a ≡ b) }
{}

/// And so has the whole group of what a line asks for, a collection with its Condemn too.
pub fn groups_have_one_outcome()
    ensures { (t : ℕ) (z : State) (act : Act) (es fs : List Entry) (y x : State) → NoCondemn act → IsGroup act es → IsGroup act fs → AllOf t es → AllOf t fs → Run z es y → Run z fs x → SameButRoom es fs × (y ≡ x) }
{}

/// A part and a local call have one reply; and a part is determined by its thread's entries.
pub fn local_calls_have_one_reply()
    ensures reply { (p : Part) (t : ℕ) (e f : Entry) (a b : Part) → LocalStep p t e a → LocalStep p t f b → e.call ≡ f.call → bare_entry e ≡ bare_entry f }
    ensures part { (p : Part) (es fs : List Entry) (a b : Part) → PartRun p es a → PartRun p fs b → SameButRoom es fs → a ≡ b }
{}
