//! What an open cycle reaches until it is condemned.
ghost use Rattle.std.specs.Prelude.{◌≡◌, ◌⊎◌, ℕ, Bool, List, Option, Some, None, IsTrue, IsFalse};
ghost use Rattle.az_base.specs.declared.action.Mode.{Mode};
ghost use Rattle.az_base.specs.declared.block_id.BlockId.{BlockId};
ghost use Rattle.az_base.specs.declared.options.Options.{Options};
ghost use Rattle.zone_model.specs.declared.entry.Entry.{Entry};
ghost use Rattle.zone_model.specs.State.{State, Cycle, moment, with_word, reference};
ghost use Rattle.zone_model.specs.Reach.{Edge};
ghost use Rattle.zone_model.specs.Escape.{with_escaped};
ghost use Rattle.zone_model.specs.Collection.{IsReached, new_cycle};
ghost use Rattle.zone_model.specs.Step.{with_moment};
ghost use Rattle.zone_model.specs.History.{Ends};
ghost use Rattle.zone_model.specs.Reached.{KeepsReached, OpenReached, IsRooted, AddsToAnchored};

/// While a cycle is open and not condemned, what a reached block, or a block from outside the start, refers to is
/// reached, if it is of the start.
pub fn edges_stay_among_the_reached()
    ensures { (o : Options) (history : List Entry) (z : State) (c : Cycle) (a b : BlockId) → Ends o history z → z.cycle ≡ Some c → c.condemned ≡ None → IsReached c a ⊎ IsFalse (c.start a) → Edge z a b → IsTrue (c.start b) → IsReached c b }
{}

/// A cycle keeps what it has reached as it opens, after each change that adds edges to anchored blocks alone, and at each
/// turn of an escape.
pub fn reached_blocks_go_on()
    ensures opens { (z : State) (t : ℕ) (m : Mode) → IsRooted z → KeepsReached z (with_moment (moment z) (new_cycle z t m)) }
    ensures change { (z after : State) (c : Cycle) → c.condemned ≡ None → AddsToAnchored z after c → KeepsReached z c → KeepsReached after (with_moment (moment after) c) }
    ensures escape { (z : State) (need : BlockId → Bool) → OpenReached z → OpenReached (with_escaped z need) }
{}

/// A change of neither words nor associations adds no edge, and a store of what a register holds one to an anchored
/// block.
pub fn changes_that_add_edges_to_anchored_blocks()
    ensures same { (z after : State) (c : Cycle) → after.blocks ≡ z.blocks → after.assocs ≡ z.assocs → AddsToAnchored z after c }
    ensures store { (z : State) (a : Option BlockId) (at t r : ℕ) (c : Cycle) → AddsToAnchored z (with_word z a at (reference (z.registers t r))) c }
{}
