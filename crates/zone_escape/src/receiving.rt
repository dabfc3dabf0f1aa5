//! What a shared call gives to a register.
ghost use Rattle.std.specs.Prelude.{◌≡◌, []};
ghost use Rattle.zone_model.specs.State.{State};
ghost use Rattle.shared_heap.specs.Holding.{HoldsAgree};
ghost use Rattle.shared_heap.specs.Stands.{Stands};
ghost use Rattle.escape_plan.specs.Together.{Together};
ghost use Rattle.zone_escape.specs.Receiving.{Receives, CountsOnceMore};

use az_base::{BlockId, Reg};
use local_set::Local;
use shared_heap::Heap;
use zone_model::Reply;

/// A call's reply goes to a register: where it gives a block or null, the register has that, and the heap, which counted the
/// block for the thread as the call read it, is told how often the thread still holds what the register held before. It takes no
/// memory. O(1) expected, and O(threads that hold the block from before).
pub fn receive(local: &mut Local, heap: &mut Heap, to: Reg, reply: &Reply)
    requires called { (z : State) × Receives local.old heap.old to reply.now z }
    requires out { local.old.waiting ≡ [] }
    ensures together { (z : State) → Receives local.old heap.old to reply.now z → Together local.new heap.new z }
    ensures local { local.new ≡ record local.old { registers = local.new.registers; published = local.new.published; changed = local.new.changed } }
    ensures heap { heap.new ≡ record heap.old { holds = heap.new.holds } }
{
    // `get` tells the range of the number.
    let _ = to.get();
    let Reply::Block(id) = reply else {
        return;
    };
    let before = &local.register(to);
    local.receive(to, *id);
    local.mark_published();
    drop_hold(local, heap, *before);
}

/// The heap is told how often the thread still holds what a register held before.
fn drop_hold(local: &Local, heap: &mut Heap, before: Option<BlockId>)
    requires counted { (z : State) × CountsOnceMore local.now heap.old before z }
    ensures agree { (z : State) → CountsOnceMore local.now heap.old before z → HoldsAgree heap.new z }
    ensures stands { (z : State) → Stands heap.old z → Stands heap.new z }
    ensures rest { heap.new ≡ record heap.old { holds = heap.new.holds } }
{
    let Some(id) = before else { return };
    let id = &id;
    if !heap.has(*id) {
        return;
    }
    let Ok(()) = heap.hold_count(local.thread(), *id, local.holds_of(*id)) else {
        unreachable!()
    };
}
