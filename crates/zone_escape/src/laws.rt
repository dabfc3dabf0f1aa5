//! Which sets belong to a core, and what is published of them leaves of its cycle. Each theorem is the contract of a function that does nothing.
ghost use Rattle.std.specs.Prelude.{◌≡◌, ◌==◌, ℕ, [], false};
ghost use Rattle.az_base.specs.declared.options.Options.{Options};
ghost use Rattle.zone_model.specs.declared.call.Call.{Call};
ghost use Rattle.zone_model.specs.declared.entry.Reply.{Reply};
ghost use Rattle.zone_model.specs.Part.{opening_part};
ghost use Rattle.zone_model.specs.Phases.{May};
ghost use Rattle.zone_model.specs.State.{State, opening};
ghost use Rattle.local_set.specs.Calls.{Made, Same};
ghost use Rattle.local_set.specs.LocalSets.{LocalSet, part_in};
ghost use Rattle.zone_escape.specs.Cores.{CoreShown, IsCore, IsCoreOf, BelongsTo, PartsStay, IsUnused, IsOfOther};
ghost use Rattle.zone_escape.specs.Publications.{Flushed, Stepped, Untouched, LeavesCycle, CyclesStay};

/// The set of a thread that has done nothing belongs to the core of a zone in which nothing has happened.
pub fn new_sets_belong_to_new_cores()
    ensures { (l : LocalSet) (k : CoreShown) (o : Options) → IsCoreOf k (opening o) → IsUnused l o → BelongsTo l k }
{}

/// A set belongs to a core after a local call, and where nothing but its room has changed.
pub fn local_calls_leave_sets_with_their_core()
    ensures made { (l m : LocalSet) (k : CoreShown) (c : Call) (r : Reply) → BelongsTo l k → Made l m c r → BelongsTo m k }
    ensures same { (l m : LocalSet) (k : CoreShown) → BelongsTo l k → Same l m → BelongsTo m k }
{}

/// The sets of other threads belong to a core after what a thread published and did, and all do where nothing has changed.
pub fn other_sets_stay_with_their_core()
    ensures others { (t : ℕ) (l : LocalSet) (k m : CoreShown) → IsCore k → PartsStay t k m → IsOfOther t l → BelongsTo l k → BelongsTo l m }
    ensures untouched { (l : LocalSet) (k m : CoreShown) → IsCore k → ((z : State) → IsCoreOf k z → IsCoreOf m z) → BelongsTo l k → BelongsTo l m }
{}

/// What waits of a thread leaves the open cycle when it is published, and so does a call that is no step of a cycle, or
/// that finds another thread's cycle open.
pub fn publications_leave_the_open_cycle()
    ensures flushed { (l m : LocalSet) (k n : CoreShown) → IsCore k → BelongsTo l k → Flushed l m k n → CyclesStay k n }
    ensures stepped { (l m : LocalSet) (k n : CoreShown) (c : Call) (r : Reply) → IsCore k → BelongsTo l k → LeavesCycle c r → Stepped l m k n c r → CyclesStay k n }
    ensures untouched { (l m : LocalSet) (k n : CoreShown) → IsCore k → Untouched l m k n → CyclesStay k n }
{}

/// Where the open cycle stays, each thread may make the calls that it might: so whether a thread may make a call can be
/// asked before what waits of it is published.
pub fn what_a_thread_may_do_stays_with_the_cycle()
    ensures { (k n : CoreShown) (t : ℕ) (c : Call) → IsCore k → CyclesStay k n → ((z : State) → IsCoreOf k z → May z t c) → (a : State) → IsCoreOf n a → May a t c }
{}
