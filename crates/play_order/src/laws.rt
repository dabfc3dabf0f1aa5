//! Theorems over the definitions. Each is the contract of a function that does nothing.
ghost use Rattle.std.specs.Prelude.{◌≡◌, ◌≤◌, ℕ, List, ◌∷◌, ◌++◌, [], length, true, All};
ghost use Rattle.az_base.specs.declared.options.Options.{Options};
ghost use Rattle.zone_model.specs.declared.entry.Entry.{Entry};
ghost use Rattle.zone_model.specs.declared.entry.Stats.{Stats};
ghost use Rattle.zone_model.specs.History.{Ends, Legal, entries_of};
ghost use Rattle.zone_model.specs.LocalSteps.{LocalRun};
ghost use Rattle.zone_model.specs.Part.{Part, Solo, part_of};
ghost use Rattle.zone_model.specs.Replies.{SameButRoom};
ghost use Rattle.zone_model.specs.State.{State};
ghost use Rattle.zone_model.specs.Stats.{stats_of};
ghost use Rattle.zone_history.specs.Histories.{Request, IsHistoryOf};
ghost use Rattle.play_order.specs.Places.{Played, Singles, latest_first, waiting, waiting_entries, in_order};
ghost use Rattle.play_order.specs.Waiting.{Queues, InPlace, Plays};
ghost use Rattle.play_order.specs.Play.{IsProper, IsPlayOf, with_leaves};
ghost use Rattle.play_order.specs.Playing.{Seen, IsTold, Turn, SoFar};
ghost use Rattle.play_order.specs.Examples.{local_line, shared_line};

/// Lists of waiting entries, one a thread, keep the order of the places: whatever is published stands where the places
/// say, after each line.
pub fn waiting_lists_keep_the_order()
    ensures { (pending : ℕ) (lines : List Played) (line : Played) (d after : Queues) → InPlace pending lines d
        → (line.local ≡ true → length line.entries ≡ 1) → Plays pending d line after → InPlace pending (lines ++ line ∷ []) after }
{}

/// As many lines of a thread wait, by the recursion that says which lines publish, as there are entries of lines whose
/// place is past the last line.
pub fn as_many_wait_as_stand_past_the_end()
    ensures { (pending t : ℕ) (lines : List Played) → Singles lines → waiting pending t (latest_first [] lines) ≡ length (waiting_entries pending t lines) }
{}

/// No more entries wait than the option pending says.
pub fn no_more_wait_than_may()
    ensures { (pending t : ℕ) (lines : List Played) → 1 ≤ pending → Singles lines → length (waiting_entries pending t lines) ≤ pending }
{}

/// What `play` makes of what threads are asked for is a history of it: legal, with each thread's calls once and in their
/// order, and then its leave.
pub fn plays_are_histories()
    ensures { (o : Options) (requests : List Request) (history : List Entry) (stats : Stats) → All IsProper requests → IsPlayOf o requests history stats → IsHistoryOf o requests history stats }
{}

/// What a play is doesn't look at the room of the lists in its replies.
pub fn plays_do_not_look_at_room()
    ensures { (o : Options) (requests : List Request) (one other : List Entry) (stats : Stats) → SameButRoom one other → IsPlayOf o requests one stats → IsPlayOf o requests other stats }
{}

/// What is asked for has one history in the order of `play`, but for the room of the lists in its replies, and one end.
pub fn requests_are_played_in_one_way()
    ensures { (o : Options) (requests : List Request) (one other : List Entry) (stats its : Stats) → All IsProper requests
        → IsPlayOf o requests one stats → IsPlayOf o requests other its → SameButRoom one other × (stats ≡ its) }
{}

/// Where nothing is published and nothing waits, nothing was asked for yet.
pub fn at_first_nothing_is_asked_for()
    ensures { (w : Seen) → w.queues.journal ≡ [] → ((t : ℕ) → w.queues.waits t ≡ []) → SoFar [] w }
{}

/// A world that plays one more line, of a thread whose part is told by its entries, stays in order.
pub fn a_turn_stays_in_order()
    ensures { (requests : List Request) (w after : Seen) (r : Request) (line : Played) → IsTold w r.0 → SoFar requests w → Turn w r line after → SoFar (requests ++ r ∷ []) after }
{}

/// A thread's part is what its own entries make, the published and then the waiting ones.
pub fn parts_come_from_published_and_waiting_entries()
    ensures { (o : Options) (journal : List Entry) (z : State) (t : ℕ) (waits : List Entry) (last : Part) → Ends o journal z
        → LocalRun (part_of z t) t waits last → Solo o (entries_of t journal ++ waits) last }
{}

/// Once all lines and ends were played, the journal is what `play` makes of what was asked for.
pub fn all_turns_are_the_play()
    ensures { (requests : List Request) (w : Seen) (stats : Stats) → SoFar (with_leaves requests) w → (legal : Legal w.options w.queues.journal) → stats ≡ stats_of legal.0 → IsPlayOf w.options requests w.queues.journal stats }
{}

/// A local line waits for the next line of its thread that isn't local; where one entry may wait, the second local line
/// publishes the first and not itself; and a line that isn't local stands before an earlier local line of another thread.
pub fn small_orders()
    ensures waits { (a b c : Entry) → in_order 2 (local_line 1 a ∷ shared_line 2 b ∷ shared_line 1 c ∷ []) ≡ b ∷ a ∷ c ∷ [] }
    ensures full { (a b c d : Entry) → in_order 1 (local_line 1 a ∷ local_line 1 b ∷ shared_line 2 c ∷ shared_line 1 d ∷ []) ≡ a ∷ c ∷ b ∷ d ∷ [] }
    ensures room { (a b c d : Entry) → in_order 2 (local_line 1 a ∷ local_line 1 b ∷ shared_line 2 c ∷ shared_line 1 d ∷ []) ≡ c ∷ a ∷ b ∷ d ∷ [] }
    ensures ends { (a b x y : Entry) → in_order 2 (local_line 2 a ∷ local_line 1 b ∷ shared_line 1 x ∷ shared_line 2 y ∷ []) ≡ b ∷ x ∷ a ∷ y ∷ [] }
{}
