//! The steps of a thread's own cycle.
//!
//! A Begin takes the journal's room for all entries of its cycle, and owes it to them: a Condemn, a Finalise for each block
//! that may wait for its finaliser, and a Reclaim. So none of these is refused, whatever others publish meanwhile. The
//! lists in their replies are copied into lists that the heap lends, which it made at Begin.
ghost use Rattle.std.specs.Prelude.{◌≡◌, ◌≤◌, ◌+◌, ◌∷◌, ◌++◌, [], false, length, if◌then◌else◌, IfOk, OnOk, OnErr};
ghost use Rattle.std.specs.Result.{IsOk};
ghost use Rattle.zone_model.specs.Bare.{bare_entry, bare_reply};
ghost use Rattle.zone_model.specs.History.{Legal};
ghost use Rattle.zone_model.specs.Phases.{May};
ghost use Rattle.zone_model.specs.State.{State};
ghost use Rattle.zone_model.specs.declared.call.Call.TheVariants as call;
ghost use Rattle.zone_model.specs.declared.entry.Reply.TheVariants as replies;
ghost use Rattle.shared_heap.specs.Cycles.{black_in};
ghost use Rattle.heap_cycle.specs.Waiting.{unfinalised_by};
ghost use Rattle.zone_escape.specs.declared.cycles.Closing.TheVariants as closing;
ghost use Rattle.zone_escape.specs.Cores.{BelongsTo, HasLists, IsCore, IsCoreOf, steps_left};
ghost use Rattle.zone_escape.specs.Cycles.{Advances, CanClose, IsClosing, call_of, is_begun};
ghost use Rattle.zone_escape.specs.Publications.{Flushed, Refused, Stepped};

use crate::answers::{Answer, twice};
use crate::publishing::publish;
use crate::zone_core::Core;
use az_base::{BlockId, Mode, NoMemory};
use local_set::Local;
use shared_heap::Heap;
use std::alloc::Global;
use zone_history::Journal;
use zone_model::{Call, Entry, IdList, Reply};

/// A step that goes on with a cycle.
#[derive(Clone, Copy)]
pub(crate) enum Closing {
    Condemn,
    Finalise,
    Reclaim,
}

impl Closing {
    fn call(self) -> Call
        ensures { result ≡ call_of self }
    {
        match self {
            Closing::Condemn => Call::Condemn,
            Closing::Finalise => Call::Finalise,
            Closing::Reclaim => Call::Reclaim,
        }
    }
}

/// What waits is published, and room is taken for a Begin and for as many entries of its cycle as there may be: the number
/// of these. NoMemory leaves all as it was, or what waits was published.
fn take_steps(local: &mut Local, core: &mut Core) -> Result<u64, NoMemory>
    requires { BelongsTo local.old core.old }
    ensures ok { OnOk result (Flushed local.old local.new core.old core.new) }
    ensures steps { IfOk result (λ steps. steps ≡ unfinalised_by core.new.heap.blocks + 2) }
    ensures room { IfOk result (λ steps. core.new.journal.owed + (steps + 1) ≤ core.new.journal.spare) }
    ensures err { OnErr result (Refused local.old local.new core.old core.new) }
    ensures legal { Legal core.new.heap.options core.new.journal.entries }
    ensures state { IsCore core.new }
{
    let _ = &core.journal;
    publish(local, core, 0)?;
    let steps = u64::from(core.heap.unfinalised()) + 2;
    core.journal.reserve(steps + 1)?;
    Ok(steps)
}

/// The journal owes this room where a cycle has begun.
fn owe_steps(journal: &mut Journal, reply: &Reply, steps: u64)
    requires { journal.old.owed + steps ≤ journal.old.spare }
    ensures { journal.new ≡ record journal.old { owed = if is_begun reply.now then journal.old.owed + steps else journal.old.owed } }
{
    if let Reply::Begun = reply {
        journal.owe(steps);
    }
}

/// Begins a cycle of the thread, of which none is open; Busy where another thread's is. NoMemory leaves all as it was, or
/// what waits was published and nothing else has happened. O(blocks) beside what is published.
pub(crate) fn begin(
    alloc: Global,
    local: &mut Local,
    core: &mut Core,
    mode: Mode,
) -> Result<Reply, NoMemory>
    requires belongs { BelongsTo local.old core.old }
    requires running { local.old.ended ≡ false }
    requires may { (z : State) → IsCoreOf core.old z → May z local.old.thread (call.Begin mode) }
    ensures ok { IfOk result (λ reply. Stepped local.old local.new core.old core.new (call.Begin mode) reply) }
    ensures white { IfOk result (λ reply. reply ≡ replies.Begun → black_in core.new.heap ≡ 0) }
    ensures err { OnErr result (Refused local.old local.new core.old core.new) }
    ensures legal { Legal core.new.heap.options core.new.journal.entries }
    ensures state { IsCore core.new }
{
    let _ = &core.journal;
    let steps = take_steps(local, core)?;
    let reply = core.heap.begin(alloc, local.thread(), mode)?;
    let answer = twice(reply);
    core.journal.push_reserved(Entry {
        thread: local.thread(),
        call: Call::Begin { mode },
        reply: answer.copy,
    });
    owe_steps(&mut core.journal, &answer.reply, steps);
    Ok(answer.reply)
}

/// The same ids in an empty list that has room for them. It takes no memory.
fn fill(room: IdList, ids: &[BlockId]) -> IdList
    requires empty { room.list ≡ [] }
    requires room { length ids.now ≤ room.spare }
    ensures { result.list ≡ ids.now }
{
    let mut filled = room;
    for id in ids {
        filled.push(*id);
    }
    filled
}

/// Condemns; the reply twice, the second time in a list that the heap lends.
fn condemn(local: &Local, heap: &mut Heap) -> Answer
    requires { CanClose local.now heap.old closing.Condemn }
    ensures makes { Advances local.now heap.old heap.new call.Condemn result.reply }
    ensures same { bare_reply result.copy ≡ bare_reply result.reply }
    ensures left { steps_left heap.new + 1 ≤ steps_left heap.old }
    ensures closing { IsClosing heap.new }
    ensures lists { HasLists heap.new }
{
    let room = heap.lend_room();
    let reply = heap.condemn(local.thread());
    let Reply::Condemned(ids) = &reply else {
        unreachable!()
    };
    let copy = Reply::Condemned(fill(room, ids.as_slice()));
    Answer { reply, copy }
}

/// Runs the next finaliser; the reply twice.
fn finalise(local: &Local, heap: &mut Heap) -> Answer
    requires { CanClose local.now heap.old closing.Finalise }
    ensures makes { Advances local.now heap.old heap.new call.Finalise result.reply }
    ensures same { bare_reply result.copy ≡ bare_reply result.reply }
    ensures left { steps_left heap.new + 1 ≤ steps_left heap.old }
    ensures closing { IsClosing heap.new }
    ensures lists { HasLists heap.new }
{
    let reply = heap.finalise_next(local.thread());
    twice(reply)
}

/// Reclaims; the reply twice, the second time in lists that the heap lends.
fn reclaim(local: &Local, heap: &mut Heap) -> Answer
    requires { CanClose local.now heap.old closing.Reclaim }
    ensures makes { Advances local.now heap.old heap.new call.Reclaim result.reply }
    ensures same { bare_reply result.copy ≡ bare_reply result.reply }
    ensures left { steps_left heap.new + 1 ≤ steps_left heap.old }
    ensures closing { IsClosing heap.new }
    ensures lists { HasLists heap.new }
{
    let first = heap.lend_room();
    let second = heap.lend_room();
    let reply = heap.reclaim(local.thread());
    let Reply::Settled { reclaimed, kept } = &reply else {
        unreachable!()
    };
    let copy = Reply::Settled {
        reclaimed: fill(first, reclaimed.as_slice()),
        kept: fill(second, kept.as_slice()),
    };
    Answer { reply, copy }
}

/// Makes the step on the heap.
fn go_on(local: &Local, heap: &mut Heap, step: Closing) -> Answer
    requires { CanClose local.now heap.old step }
    ensures makes { Advances local.now heap.old heap.new (call_of step) result.reply }
    ensures same { bare_reply result.copy ≡ bare_reply result.reply }
    ensures left { steps_left heap.new + 1 ≤ steps_left heap.old }
    ensures closing { IsClosing heap.new }
    ensures lists { HasLists heap.new }
{
    match step {
        Closing::Condemn => condemn(local, heap),
        Closing::Finalise => finalise(local, heap),
        Closing::Reclaim => reclaim(local, heap),
    }
}

/// How many entries of the open cycle are still to come, where it is condemned; 0 where none is open.
fn still_to_come(heap: &Heap) -> u64
    requires { IsClosing heap.now }
    ensures { result ≡ steps_left heap.now }
{
    match heap.cycle() {
        Some(_) => u64::from(heap.to_finalise()) + 1,
        None => 0,
    }
}

/// The entry goes into the room that was owed to it, and from then on so much is owed, which is less than was.
fn push_step(journal: &mut Journal, entry: Entry, left: u64)
    requires { left + 1 ≤ journal.old.owed }
    ensures entries { journal.new.entries ≡ journal.old.entries ++ bare_entry entry ∷ [] }
    ensures owed { journal.new.owed ≡ left }
{
    journal.push_owed(entry);
    let _owed = journal.owed();
    journal.forgive();
    journal.owe(left);
}

/// Goes on with the thread's own cycle. NoMemory only where something waits, and then it leaves all as it was. O(blocks, and
/// edges of the condemned and of the remembered ones) beside what is published.
pub(crate) fn close(local: &mut Local, core: &mut Core, step: Closing) -> Result<Reply, NoMemory>
    requires belongs { BelongsTo local.old core.old }
    requires running { local.old.ended ≡ false }
    requires may { (z : State) → IsCoreOf core.old z → May z local.old.thread (call_of step) }
    ensures ok { IfOk result (λ reply. Stepped local.old local.new core.old core.new (call_of step) reply) }
    ensures err { OnErr result (Refused local.old local.new core.old core.new) }
    ensures sure { local.old.waiting ≡ [] → IsOk result }
    ensures legal { Legal core.new.heap.options core.new.journal.entries }
    ensures state { IsCore core.new }
{
    let _ = &core.journal;
    publish(local, core, 0)?;
    let _left = core.heap.to_finalise();
    let answer = go_on(local, &mut core.heap, step);
    let left = still_to_come(&core.heap);
    push_step(
        &mut core.journal,
        Entry {
            thread: local.thread(),
            call: step.call(),
            reply: answer.copy,
        },
        left,
    );
    Ok(answer.reply)
}
