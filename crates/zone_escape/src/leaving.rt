//! The end of a thread.
ghost use Rattle.std.specs.Prelude.{◌≡◌, ◌∷◌, true, [], IfOk, OnOk, OnErr, IsTrue};
ghost use Rattle.az_base.specs.Ids.{same_id, among};
ghost use Rattle.zone_model.specs.declared.call.Call.TheVariants as call;
ghost use Rattle.zone_model.specs.Bare.{bare_reply};
ghost use Rattle.zone_model.specs.Collection.{Lists};
ghost use Rattle.zone_model.specs.Part.{is_in};
ghost use Rattle.local_set.specs.LocalSets.{part_in};
ghost use Rattle.shared_heap.specs.Holding.{refers_to};
ghost use Rattle.escape_plan.specs.Escapes.{KeepsCycle};
ghost use Rattle.escape_plan.specs.Moving.{Told, refer_to};
ghost use Rattle.zone_escape.specs.Making.{CanMake, Makes, Stays};
ghost use Rattle.zone_escape.specs.Telling.{below, emptied, stands_at, refer_from, LetsGo};

use crate::answers::Answer;
use az_base::{BlockId, NoMemory, Reg, Word};
use local_set::Local;
use shared_heap::Heap;
use std::alloc::Global;
use zone_model::Reply;

/// Tells the heap that the thread no longer holds the block, if it is one of the heap's.
fn let_go(local: &Local, heap: &mut Heap, id: BlockId)
    ensures { Told (emptied local.now) heap.old heap.new (same_id id) }
{
    let id = &id;
    if !heap.has(*id) {
        return;
    }
    let Ok(()) = heap.hold_count(local.thread(), *id, 0) else {
        unreachable!()
    };
}

/// Tells the heap that the thread no longer holds what the register holds.
fn let_register_go(local: &Local, heap: &mut Heap, reg: Reg)
    ensures { Told (emptied local.now) heap.old heap.new (stands_at local.now reg) }
{
    match local.register(reg) {
        None => {}
        Some(id) => let_go(local, heap, id),
    }
}

/// Tells the heap that the thread no longer holds what its registers hold.
fn let_registers_go(local: &Local, heap: &mut Heap)
    ensures { Told (emptied local.now) heap.old heap.new (below (stands_at local.now) 16) }
{
    for n in 0..16 {
        let Some(reg) = Reg::new(n) else {
            unreachable!()
        };
        let_register_go(local, heap, reg);
    }
}

/// Tells the heap that the thread no longer holds the block to which the word refers, if it refers to one.
fn let_word_go(local: &Local, heap: &mut Heap, word: Word)
    ensures { Told (emptied local.now) heap.old heap.new (λ q. refers_to q word) }
{
    match word {
        Word::Block(id) => let_go(local, heap, id),
        Word::Null | Word::Number(_) => {}
    }
}

/// Tells the heap that the thread no longer holds the blocks to which these words refer.
fn let_words_go(local: &Local, heap: &mut Heap, words: &[Word])
    ensures { Told (emptied local.now) heap.old heap.new (refer_to words.now) }
{
    for word in words {
        let_word_go(local, heap, *word);
    }
}

/// Tells the heap that the thread no longer holds the blocks to which words of these unescaped blocks refer.
fn let_blocks_go(local: &Local, heap: &mut Heap, ids: &[BlockId])
    requires { (q : BlockId) → among ids.now q ≡ true → is_in (part_in local.now) q ≡ true }
    ensures { Told (emptied local.now) heap.old heap.new (refer_from local.now ids.now) }
{
    for id in ids {
        let (_, words) = local.block_of(*id);
        let_words_go(local, heap, words);
    }
}

/// Tells the heap that the thread no longer holds any block, where these are all its unescaped ones. It takes no memory.
fn let_all_go(local: &Local, heap: &mut Heap, own: &[BlockId])
    requires { Lists own.now (λ b. IsTrue (is_in (part_in local.now) b)) }
    ensures { LetsGo local.now heap.old heap.new }
{
    let_registers_go(local, heap);
    let_blocks_go(local, heap, own);
}

/// The call `leave`: the thread ends, and its unescaped blocks are gone. O(their words, and n log n for n of them)
/// expected.
pub(crate) fn leave(alloc: Global, local: &mut Local, heap: &mut Heap) -> Result<Answer, NoMemory>
    requires { CanMake local.old heap.old call.Leave }
    ensures ok { IfOk result (λ answer. Makes local.old local.new heap.old heap.new call.Leave answer.reply) }
    ensures same { IfOk result (λ answer. bare_reply answer.copy ≡ bare_reply answer.reply) }
    ensures ended { OnOk result (local.new.ended ≡ true) }
    ensures err { OnErr result (Stays local.old local.new heap.old heap.new) }
    ensures cycle { KeepsCycle heap.old heap.new }
{
    let gone = local.own_ids(alloc)?;
    let copy = gone.try_copy(alloc)?;
    let_all_go(local, heap, gone.as_slice());
    local.clear();
    Ok(Answer {
        reply: Reply::Reclaimed(gone),
        copy: Reply::Reclaimed(copy),
    })
}
