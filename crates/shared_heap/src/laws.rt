//! Theorems over heaps and the states for which they stand. Each is the contract of a function that does nothing.
ghost use Rattle.std.specs.Prelude.{◌≡◌, ◌<◌, ℕ, true, not, [], ◌∷◌, ◌++◌, List, None, Option};
ghost use Rattle.std.specs.FinMap.{get, retain_keys};
ghost use Rattle.az_base.specs.declared.action.Action.{Action};
ghost use Rattle.az_base.specs.declared.block_id.BlockId.{BlockId};
ghost use Rattle.az_base.specs.declared.word.Word.{Word};
ghost use Rattle.az_base.specs.Ids.{among, id_of, same_id};
ghost use Rattle.block_layouts.specs.declared.layout.Layout.{Layout};
ghost use Rattle.zone_model.specs.declared.call.Call.{Call};
ghost use Rattle.zone_model.specs.declared.call.Call.TheVariants as call;
ghost use Rattle.zone_model.specs.declared.entry.Reply.{Reply};
ghost use Rattle.zone_model.specs.declared.entry.Reply.TheVariants as reply;
ghost use Rattle.zone_model.specs.Collection.{HasCondemned};
ghost use Rattle.zone_model.specs.Escape.{with_escaped};
ghost use Rattle.zone_model.specs.Part.{part_of};
ghost use Rattle.zone_model.specs.Phases.{Free, Marking};
ghost use Rattle.zone_model.specs.Quanta.{is_born_escaped};
ghost use Rattle.zone_model.specs.Room.{WithRoom};
ghost use Rattle.zone_model.specs.SameShared.{SameShared};
ghost use Rattle.zone_model.specs.Sound.{Sound};
ghost use Rattle.zone_model.specs.State.{State};
ghost use Rattle.zone_model.specs.Step.{Step};
ghost use Rattle.heap_cycle.specs.Collector.{Collecting};
ghost use Rattle.shared_heap.specs.Cycles.{IsOpenOf, IsMarking, IsSettling};
ghost use Rattle.zone_model.specs.Holds.{holds_of};
ghost use Rattle.shared_heap.specs.Holding.{pair_of, pairs_in, replaced, HoldsAgree, HoldsAgreeBut, HoldsMore, HoldsBorn, HoldsSet, HoldsAdmitted, HoldsItsOwn, HoldsOnceMore, HoldsAsBefore, LeavesParts, ReadsTo};
ghost use Rattle.shared_heap.specs.Shared.{Shared};
ghost use Rattle.shared_heap.specs.Stands.{Stands, EscapedClosed};
ghost use Rattle.shared_heap.specs.Steps.{IsUnescaped};

/// A heap that stands for a state stands for each that is alike in what is shared: so what a thread does to its own
/// registers and unescaped blocks leaves the heap as it is, also where an open cycle has seen it.
pub fn what_is_shared_alike_is_stood_for_alike()
    ensures { (h : Shared) (z after : State) → Stands h z → SameShared z after → Stands h after }
{}

/// Where a thread stands in its own cycle, the heap and the states for which it stands say alike.
pub fn cycles_are_those_of_the_state()
    ensures free { (h : Shared) (z : State) (t : ℕ) → Stands h z → ((g : Collecting) → IsOpenOf h t g → ⊥) → Free z t }
    ensures none { (h : Shared) (z : State) (t : ℕ) (g : Collecting) → Stands h z → Free z t → IsOpenOf h t g → ⊥ }
    ensures marking { (h : Shared) (z : State) (t : ℕ) → Stands h z → Marking z t → IsMarking h t }
    ensures settling { (h : Shared) (z : State) (t : ℕ) (r : List BlockId) → Stands h z → HasCondemned z t r → IsSettling h t }
{}

/// A call that reads a block into a register counts the block that the register held before once more, for the thread,
/// and all else agrees.
pub fn reads_count_what_they_replace_once_more()
    ensures { (h new : Shared) (z after : State) (t to : ℕ) (c : Call) (r : Reply) → ReadsTo c to → to < 16 → Stands h z → HoldsAgree h z → HoldsMore h new t r
        → Step z (record { thread = t; call = c; reply = r }) after → HoldsOnceMore new after t (replaced r (z.registers t to)) }
{}

/// Where `hold_count` says the number of a thread and a block, these agree, and all that agreed before.
pub fn what_is_said_agrees()
    ensures { (h new : Shared) (z : State) (t : ℕ) (id : BlockId) (off : List (ℕ × BlockId)) → HoldsAgreeBut ((t, id) ∷ off) h z → HoldsSet h new t id (holds_of (part_of z t) id) → HoldsAgreeBut off new z }
{}

/// A birth counts the block that the register held before once more, for the thread, and all else agrees: nobody else
/// can hold the new block yet.
pub fn births_count_what_they_replace_once_more()
    ensures { (h new : Shared) (z after : State) (t to : ℕ) (layout : Layout) (actions : List Action) (r : Reply) → to < 16 → Sound z → is_born_escaped z t layout actions ≡ true → HoldsAgree h z
        → HoldsBorn h new t r → Step z (record { thread = t; call = call.New to layout actions; reply = r }) after → HoldsOnceMore new after t (replaced r (z.registers t to)) }
{}

/// A block that `admit` lets in counts as not held, and the escaped blocks in its words count as often as before, when
/// its thread held them by those words; all else agrees (`exact`). While several escape, what didn't agree before adds up
/// (`but`), and each thread still holds its own alone (`own`).
pub fn admitted_blocks_leave_the_holds_as_before()
    ensures exact { (h new : Shared) (z : State) (id : BlockId) (layout : Layout) (words : List Word) → HoldsAgree h z → IsUnescaped z id layout words → HoldsAdmitted h new id
        → HoldsAsBefore new (with_escaped z (same_id id)) id words }
    ensures but { (h new : Shared) (z : State) (id : BlockId) (layout : Layout) (words : List Word) (off : List (ℕ × BlockId)) → HoldsItsOwn z → HoldsAgreeBut off h z → IsUnescaped z id layout words → HoldsAdmitted h new id
        → HoldsAgreeBut ((id.thread, id) ∷ (pairs_in id.thread words ++ off)) new (with_escaped z (same_id id)) }
    ensures own { (z : State) (id : BlockId) (layout : Layout) (words : List Word) → HoldsItsOwn z → IsUnescaped z id layout words → HoldsItsOwn (with_escaped z (same_id id)) }
{}

/// What a sound state is to the heap's calls: what has escaped leads to what has escaped alone, each thread holds but what
/// has escaped and what is its own, and the next id of a thread is no block's.
pub fn sound_states_are_ready_for_heaps()
    ensures closed { (z : State) → Sound z → EscapedClosed z }
    ensures own { (z : State) → Sound z → HoldsItsOwn z }
    ensures next { (z : State) (t : ℕ) → Sound z → get z.blocks (id_of t (z.serials t)) ≡ None }
{}

/// Where all agrees but for what a register held before, it is that pair alone that doesn't; and where no pair is left,
/// all agrees.
pub fn once_more_is_one_pair()
    ensures pair { (h : Shared) (z : State) (t : ℕ) (before : Option BlockId) → HoldsOnceMore h z t before → HoldsAgreeBut (pair_of t before) h z }
    ensures none { (h : Shared) (z : State) → HoldsAgreeBut [] h z → HoldsAgree h z }
{}

/// A call that reads into no register, and that is given and writes to what has escaped alone, leaves the parts of the
/// threads as they are: so what agreed before agrees after it, as far as the table of holds stays.
pub fn other_calls_leave_the_holds()
    ensures { (h new : Shared) (z after : State) (t : ℕ) (c : Call) (r : Reply) → LeavesParts z t c → Sound z → HoldsAgree h z → new.holds ≡ h.holds
        → Step z (record { thread = t; call = c; reply = r }) after → HoldsAgree new after }
{}

/// A Reclaim takes the holds of the reclaimed blocks out of the table, and all else agrees as before.
pub fn reclaimed_blocks_leave_the_holds()
    ensures { (h new : Shared) (z after : State) (t : ℕ) (gone kept : WithRoom) → Sound z → HoldsAgree h z → new.holds ≡ retain_keys h.holds (λ b. not (among gone.list b))
        → Step z (record { thread = t; call = call.Reclaim; reply = reply.Settled gone kept }) after → HoldsAgree new after }
{}
