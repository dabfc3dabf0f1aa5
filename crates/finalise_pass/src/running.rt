//! Running the actions of one finaliser.
ghost use Rattle.std.specs.Prelude.{◌≡◌, ◌≤◌, fold, length, slice_get};
ghost use Rattle.std.specs.Option.{option_to_list};
ghost use Rattle.finalise_pass.specs.Finalisers.{awaits, with_action};

use crate::finals::Finals;
use az_base::BlockId;

/// Whether the block has an action and isn't done.
pub fn awaits<F: Finals>(finals: &F, id: BlockId) -> bool
    ensures { result ≡ awaits (F.finals finals.now) id }
{
    finals.action(id, 0).is_some() && !finals.done(id)
}

/// Applies the block's actions in their order.
pub fn run_all<F: Finals>(finals: &mut F, id: BlockId)
    ensures applied { F.finals finals.new ≡ fold (with_action id) (F.finals finals.old) ((F.finals finals.old).actions id) }
    ensures rest { F.rest finals.new ≡ F.rest finals.old }
{
    for n in 0..8 {
        run_nth(finals, id, n);
    }
}

/// Applies the block's action at this place, if there is one.
fn run_nth<F: Finals>(finals: &mut F, id: BlockId, n: u32)
    ensures applied { F.finals finals.new ≡ fold (with_action id) (F.finals finals.old) (option_to_list (slice_get ((F.finals finals.old).actions id) n)) }
    ensures few { length ((F.finals finals.old).actions id) ≤ 8 }
    ensures rest { F.rest finals.new ≡ F.rest finals.old }
{
    if let Some(action) = finals.action(id, n) {
        finals.run(id, action);
    }
}
