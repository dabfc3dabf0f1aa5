//! What a pass needs of finalisers.
use az_base::{Action, BlockId};

/// The roots, and for each block its actions, at most eight, what its Strong words hold, and whether it is done.
pub trait Finals {
    ghost use Rattle.std.specs.Prelude.{◌≡◌, ◌≤◌, ℕ, length, slice_get, IsFalse};
    ghost use Rattle.zone_model.specs.State.{is_nil};
    ghost use Rattle.finalise_pass.specs.Finalisers.{Finalisers, IsActionOf, with_action, with_done};

    /// Roots, actions, Strong words, and done blocks.
    ghost finals: { Self → Finalisers };

    /// What else there is to it.
    ghost Rest: { Type 0 };

    /// Whatever else the object means. A pass leaves it as it is.
    ghost rest: { Self → Rest };

    /// The n-th action of a block, from 0; None exactly past the end. A block that isn't there has none.
    fn action(&self, id: BlockId, n: u32) -> Option<Action>
        ensures action { result ≡ slice_get ((finals self.now).actions id) n }
        ensures few { length ((finals self.now).actions id) ≤ 8 };

    /// Whether the block's finaliser has run.
    fn done(&self, id: BlockId) -> bool
        ensures { result ≡ (finals self.now).done id };

    /// Applies one of the block's actions: its root changes, and nothing else.
    fn run(&mut self, id: BlockId, action: Action)
        requires { IsActionOf (finals self.old) id action }
        ensures applied { finals self.new ≡ with_action id (finals self.old) action }
        ensures rest { rest self.new ≡ rest self.old };

    /// The block, which has an action, counts as done; nothing else changes.
    fn set_done(&mut self, id: BlockId)
        requires { IsFalse (is_nil ((finals self.old).actions id)) }
        ensures done { finals self.new ≡ with_done (finals self.old) id }
        ensures rest { rest self.new ≡ rest self.old };
}
