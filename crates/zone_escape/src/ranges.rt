//! What a call names is in range: it has no other registers and roots.
ghost use Rattle.std.specs.Prelude.{◌≤◌};
ghost use Rattle.std.specs.List.{AllByRecursion};
ghost use Rattle.zone_model.specs.InRange.{ActionInRange, CallInRange};

use az_base::{Action, Reg, RootNo};
use zone_model::{ActionList, Call};

/// The root is one that there is.
fn root_in_range(root: RootNo)
    ensures { root.0 ≤ 255 }
{
    let _number = root.0;
}

/// So is the root of an action.
fn action_in_range(action: Action)
    ensures { ActionInRange action }
{
    match action {
        Action::Keep(root) | Action::Pass(root, _) => root_in_range(root),
    }
}

/// And those of several actions.
fn actions_in_range(actions: &ActionList)
    ensures { AllByRecursion ActionInRange actions.now }
{
    for action in actions.as_slice() {
        action_in_range(*action);
    }
}

/// The register is one that there is.
fn register_in_range(to: Reg)
    ensures { to ≤ 15 }
{
    let _number = to.get();
}

/// The register or root to which the call gives a value is one that there is, and so are those of a new block's actions.
/// O(actions).
pub(crate) fn in_range(call: &Call)
    ensures { CallInRange call.now }
{
    match call {
        Call::New { to, actions, .. } => {
            register_in_range(*to);
            actions_in_range(actions);
        }
        Call::SetRoot { root, .. } => root_in_range(*root),
        Call::Load { to, .. }
        | Call::Copy { to, .. }
        | Call::GetRoot { to, .. }
        | Call::Take { to, .. }
        | Call::GetAssoc { to, .. }
        | Call::ReadWeak { to, .. } => register_in_range(*to),
        Call::Store { .. }
        | Call::Put { .. }
        | Call::Get { .. }
        | Call::DropReg { .. }
        | Call::CollectLocal
        | Call::Retain { .. }
        | Call::Release { .. }
        | Call::Count { .. }
        | Call::SetAssoc { .. }
        | Call::SetWeak { .. }
        | Call::Stats
        | Call::Begin { .. }
        | Call::Condemn
        | Call::Finalise
        | Call::Reclaim
        | Call::Leave => {}
    }
}
