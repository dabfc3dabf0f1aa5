//! The second stage of an escape: what was planned is moved into the heap.
ghost use Rattle.std.specs.Prelude.{◌≡◌, ◌≤◌, ◌+◌, [], ◌∷◌, List, true};
ghost use Rattle.az_base.specs.declared.block_id.BlockId.{BlockId as ABlockId};
ghost use Rattle.az_base.specs.Ids.{among};
ghost use Rattle.zone_model.specs.State.{State};
ghost use Rattle.zone_model.specs.Escape.{with_escaped};
ghost use Rattle.shared_heap.specs.Holding.{refers_to};
ghost use Rattle.local_set.specs.LocalSets.{part_in};
ghost use Rattle.escape_plan.specs.Together.{Belongs, IsHeapOf, Together};
ghost use Rattle.escape_plan.specs.Escapes.{KeepsCycle};
ghost use Rattle.escape_plan.specs.Planning.{IsWhole, PlanFits, lengths_of};
ghost use Rattle.escape_plan.specs.Moving.{Agree, refer_to, Told, CanTell, CanMove, Moves};

use crate::plan::EscapePlan;
use az_base::{BlockId, Word};
use local_set::Local;
use shared_heap::Heap;

/// Tells the heap how often the thread holds the block to which a word refers, if it is one of the heap's.
fn tell_word(local: &Local, heap: &mut Heap, word: Word)
    requires { CanTell local.now heap.old (λ q. refers_to q word) }
    ensures { Told local.now heap.old heap.new (λ q. refers_to q word) }
{
    let Word::Block(id) = word else {
        return;
    };
    let id = &id;
    if !heap.has(*id) {
        return;
    }
    let holds = local.holds_of(*id);
    let Ok(()) = heap.hold_count(local.thread(), *id, holds) else {
        unreachable!()
    };
}

/// Tells the heap how often the thread holds each of its blocks to which these words refer.
fn tell_words(local: &Local, heap: &mut Heap, words: &[Word])
    requires { CanTell local.now heap.old (refer_to words.now) }
    ensures { Told local.now heap.old heap.new (refer_to words.now) }
{
    for word in words {
        tell_word(local, heap, *word);
    }
}

/// A block is moved to the heap.
fn move_one(local: &mut Local, heap: &mut Heap, id: BlockId)
    requires agree { (z : State) × Agree local.old heap.old z }
    requires can { (more : List ABlockId) × CanMove local.old heap.old (id ∷ more) }
    ensures { Moves local.old local.new heap.old heap.new id }
{
    let id = &id;
    let (layout, words) = local.take_out(*id);
    tell_words(local, heap, &words);
    heap.admit(*id, layout, words);
    let Ok(()) = heap.hold_count(local.thread(), *id, local.holds_of(*id)) else {
        unreachable!()
    };
}

/// The blocks are moved to the heap, one after another.
fn move_all(local: &mut Local, heap: &mut Heap, ids: &[BlockId])
    requires agree { (z : State) × Agree local.old heap.old z }
    requires can { CanMove local.old heap.old ids.now }
    ensures agree { (z : State) → Agree local.old heap.old z → Agree local.new heap.new (with_escaped z (among ids.now)) }
    ensures local { local.new ≡ record local.old { blocks = local.new.blocks } }
    ensures ready { heap.new.ready ≡ heap.old.ready }
    ensures room { heap.new.room ≡ [] }
    ensures cycle { KeepsCycle heap.old heap.new }
{
    for id in ids {
        move_one(local, heap, *id);
    }
}

/// The blocks of the plan escape. Since it was prepared, the set had no call that changes it, and the heap none but `ready`.
/// It takes no memory. O(words of the blocks) expected.
pub fn commit(plan: EscapePlan, local: &mut Local, heap: &mut Heap)
    requires state { (z : State) × Belongs local.old z × IsHeapOf heap.old z }
    requires out { local.old.waiting ≡ [] }
    requires whole { IsWhole (part_in local.old) plan }
    requires room { heap.old.room ≡ lengths_of (part_in local.old).blocks plan.ids }
    requires fits { PlanFits plan heap.old }
    ensures escaped { (z : State) → Belongs local.old z → IsHeapOf heap.old z → Together local.new heap.new (with_escaped z (among plan.ids)) }
    ensures local { local.new ≡ record local.old { blocks = local.new.blocks } }
    ensures ready { heap.new.ready ≡ heap.old.ready }
    ensures cycle { KeepsCycle heap.old heap.new }
{
    move_all(local, heap, plan.ids());
}
