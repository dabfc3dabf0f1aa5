//! What collections take: blocks that nothing uses.
ghost use Rattle.std.specs.Prelude.{◌↔◌, ℕ, IsTrue};
ghost use Rattle.az_base.specs.declared.action.Mode.{Mode};
ghost use Rattle.az_base.specs.declared.block_id.BlockId.{BlockId};
ghost use Rattle.az_base.specs.Ids.{among};
ghost use Rattle.zone_model.specs.Room.{WithRoom};
ghost use Rattle.zone_model.specs.State.{State, Cycle, is_escaped};
ghost use Rattle.zone_model.specs.Reach.{AnchoredFor, Live, in_scope};
ghost use Rattle.zone_model.specs.Collection.{HasCycle, with_end};
ghost use Rattle.zone_model.specs.Step.{Step};
ghost use Rattle.zone_model.specs.Sound.{Sound};
ghost use Rattle.zone_model.specs.Replies.{replied};
ghost use Rattle.zone_model.specs.declared.call.Call.TheVariants as call;
ghost use Rattle.zone_model.specs.declared.entry.Reply.TheVariants as reply;
ghost use Rattle.az_base.specs.declared.action.Mode.TheVariants as mode;

/// No condemned block is anchored at its Condemn.
pub fn condemned_blocks_are_not_anchored()
    ensures { (z : State) → Sound z → (a : State) (t : ℕ) (c : Cycle) (r : WithRoom) → HasCycle z t c → Step z (replied t call.Condemn (reply.Condemned r)) a → (b : BlockId) → IsTrue (among r.list b) → ¬ AnchoredFor c.mode z b }
{}

/// Where nothing stands between Begin and Condemn the two sides meet: exactly the escaped blocks in scope that aren't
/// anchored are condemned.
pub fn a_condemn_at_once_is_exact()
    ensures { (z y a : State) (t : ℕ) (m : Mode) (r : WithRoom) → Step z (replied t (call.Begin m) reply.Begun) y → Step y (replied t call.Condemn (reply.Condemned r)) a
        → (b : BlockId) → IsTrue (among r.list b) ↔ (IsTrue (is_escaped z b) × IsTrue (in_scope m z b) × ¬ AnchoredFor m z b) }
{}

/// What a Reclaim reclaims isn't anchored.
pub fn reclaimed_blocks_are_not_anchored()
    ensures { (z : State) (t : ℕ) (gone kept : WithRoom) (after : State) → Sound z → Step z (replied t call.Reclaim (reply.Settled gone kept)) after → (b : BlockId) → IsTrue (among gone.list b) → ¬ AnchoredFor mode.Full z b }
{}

/// What a local collection reclaims isn't live, nor is what a Leave reclaims, once the registers of its thread are empty.
pub fn blocks_reclaimed_by_their_thread_are_not_live()
    ensures local { (z : State) (t : ℕ) (gone : WithRoom) (after : State) → Step z (replied t call.CollectLocal (reply.Reclaimed gone)) after → (b : BlockId) → IsTrue (among gone.list b) → ¬ Live z b }
    ensures leave { (z : State) (t : ℕ) (gone : WithRoom) (after : State) → Sound z → Step z (replied t call.Leave (reply.Reclaimed gone)) after → (b : BlockId) → IsTrue (among gone.list b) → ¬ Live (with_end z t) b }
{}
