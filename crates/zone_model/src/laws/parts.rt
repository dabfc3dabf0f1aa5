//! What a thread knows by itself, and what it may do by itself.
ghost use Rattle.std.specs.Prelude.{◌≡◌, ◌==◌, ℕ, List, true, false};
ghost use Rattle.az_base.specs.declared.options.Options.{Options};
ghost use Rattle.zone_model.specs.declared.entry.Entry.{Entry};
ghost use Rattle.zone_model.specs.State.{State};
ghost use Rattle.zone_model.specs.Step.{Step};
ghost use Rattle.zone_model.specs.History.{Ends, entries_of};
ghost use Rattle.zone_model.specs.Part.{Part, part_of, is_local, PartStep, PartRun, Solo};
ghost use Rattle.zone_model.specs.LocalSteps.{LocalStep, LocalRun};
ghost use Rattle.zone_model.specs.SameShared.{SameShared, GainsNone};
ghost use Rattle.zone_model.specs.Sound.{Sound};

/// A thread's part is what its own entries make of it: each step changes the part of its thread as the entry says, and
/// leaves the others.
pub fn parts_are_told_by_entries()
    ensures history { (o : Options) (history : List Entry) (z : State) (t : ℕ) → Ends o history z → Solo o (entries_of t history) (part_of z t) }
    ensures own { (z : State) → Sound z → (e : Entry) (a : State) → Step z e a → PartStep (part_of z e.thread) e.call e.reply (part_of a e.thread) }
    ensures others { (z : State) → Sound z → (e : Entry) (a : State) → Step z e a → (u : ℕ) → (e.thread == u) ≡ false → part_of a u ≡ part_of z u }
{}

/// A step whose call is local at its thread's part is a local step of that part; each local step of a thread's part is a
/// step of the zone; and local steps make of a part what its entries say.
pub fn local_calls_need_their_part_alone()
    ensures to { (z : State) → Sound z → (e : Entry) (a : State) → Step z e a → is_local (part_of z e.thread) e.call ≡ true → LocalStep (part_of z e.thread) e.thread e (part_of a e.thread) }
    ensures from { (z : State) → Sound z → (t : ℕ) (e : Entry) (after : Part) → LocalStep (part_of z t) t e after → (a : State) × Step z e a × (part_of a t ≡ after) }
    ensures own { (p : Part) (t : ℕ) (es : List Entry) (last : Part) → LocalRun p t es last → PartRun p es last }
{}

/// A local call changes nothing that isn't its thread's own, and gains no reference but to a block of its part.
pub fn local_calls_leave_what_is_shared()
    ensures shared { (z : State) → Sound z → (e : Entry) (a : State) → Step z e a → is_local (part_of z e.thread) e.call ≡ true → SameShared z a }
    ensures gains { (p : Part) (t : ℕ) (e : Entry) (after : Part) → LocalStep p t e after → GainsNone p after }
{}
