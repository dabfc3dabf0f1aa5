//! What weak locations show.
ghost use Rattle.std.specs.Prelude.{◌≡◌, ◌↔◌, ℕ, List, Option, Some, None, IsTrue};
ghost use Rattle.std.specs.FinMap.{get};
ghost use Rattle.az_base.specs.declared.block_id.BlockId.{BlockId};
ghost use Rattle.az_base.specs.declared.misuse.Misuse.{Misuse};
ghost use Rattle.az_base.specs.declared.options.Options.{Options};
ghost use Rattle.az_base.specs.declared.weak_loc.WeakLoc.{WeakLoc};
ghost use Rattle.az_base.specs.OptionRanges.{usual_options};
ghost use Rattle.zone_model.specs.declared.call.Loc.{Loc};
ghost use Rattle.zone_model.specs.declared.entry.Reply.{Reply};
ghost use Rattle.zone_model.specs.declared.entry.Entry.{Entry};
ghost use Rattle.zone_model.specs.State.{State, is_there};
ghost use Rattle.zone_model.specs.Effect.{weak_loc};
ghost use Rattle.zone_model.specs.Step.{Step};
ghost use Rattle.zone_model.specs.History.{Ends, Legal, NoCollection};
ghost use Rattle.zone_model.specs.WeakShows.{WeakShows};
ghost use Rattle.zone_model.specs.Replies.{replied};
ghost use Rattle.zone_model.specs.Worked.{first_block, first_weak, assigned_history, cleared_history};
ghost use Rattle.az_base.specs.declared.weak_loc.WeakLoc.TheVariants as weak;
ghost use Rattle.zone_model.specs.declared.call.Call.TheVariants as call;
ghost use Rattle.zone_model.specs.declared.entry.Reply.TheVariants as reply;

/// In each state of a legal history, a weak location that is there shows exactly what the entries say of it.
pub fn weak_locations_show_what_was_assigned()
    ensures { (o : Options) (history : List Entry) (z : State) (l : WeakLoc) (v : Option BlockId) → Ends o history z → IsTrue (is_there z l) → WeakShows o history l v ↔ (v ≡ get z.weak l) }
{}

/// Without a collection, so does every weak location, also one whose block is gone.
pub fn weak_locations_stay_without_collections()
    ensures { (o : Options) (history : List Entry) (z : State) (l : WeakLoc) (v : Option BlockId) → Ends o history z → NoCollection history → WeakShows o history l v ↔ (v ≡ get z.weak l) }
{}

/// A weak root to which a block was assigned shows this block, and then null where null was assigned.
pub fn weak_root_shows_the_last_assignment()
    ensures legal { Legal usual_options cleared_history }
    ensures block { WeakShows usual_options assigned_history (weak.Root first_weak) (Some first_block) }
    ensures null { WeakShows usual_options cleared_history (weak.Root first_weak) None }
    ensures gone { ¬ WeakShows usual_options cleared_history (weak.Root first_weak) (Some first_block) }
{}

/// A `readweak` that is no misuse replies what the entries before it say of its location.
pub fn weak_reads_reply_what_was_assigned()
    ensures { (o : Options) (history : List Entry) (z a : State) (t to : ℕ) (loc : Loc) (r : Reply) → Ends o history z → Step z (replied t (call.ReadWeak to loc) r) a → ((m : Misuse) → ¬ (r ≡ reply.Misuse m))
        → (v : Option BlockId) × (l : WeakLoc) × (r ≡ reply.Block v) × (weak_loc z t loc ≡ Some l) × WeakShows o history l v }
{}
