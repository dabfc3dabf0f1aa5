//! A thread's step.
ghost use Rattle.std.specs.Prelude.{◌≡◌, true, false, [], IfOk, OnOk, OnErr, IsTrue, ◌↔◌};
ghost use Rattle.std.specs.Result.{IsOk};
ghost use Rattle.az_base.specs.declared.action.Mode.{Mode};
ghost use Rattle.zone_model.specs.declared.call.Call.TheVariants as calls;
ghost use Rattle.zone_model.specs.declared.entry.Reply.TheVariants as replies;
ghost use Rattle.zone_model.specs.Bare.{bare_reply};
ghost use Rattle.zone_model.specs.History.{Legal, is_cycle_step};
ghost use Rattle.zone_model.specs.Part.{is_local as is_local_at};
ghost use Rattle.zone_model.specs.Phases.{May, is_closing};
ghost use Rattle.zone_model.specs.State.{State};
ghost use Rattle.shared_heap.specs.Cycles.{black_in};
ghost use Rattle.local_set.specs.LocalSets.{part_in};
ghost use Rattle.escape_plan.specs.Escapes.{KeepsCycle};
ghost use Rattle.zone_escape.specs.Cores.{BelongsTo, IsCore, IsCoreOf};
ghost use Rattle.zone_escape.specs.Making.{CanMake, Makes, Stays};
ghost use Rattle.zone_escape.specs.Publications.{Refused, Stepped, is_leave};

use crate::answers::{Answer, twice};
use crate::assocs::{get_assoc, set_assoc};
use crate::births::make_block;
use crate::counts::{count, release, retain, take};
use crate::cycles::{Closing, begin, close};
use crate::leaving::leave;
use crate::publishing::publish;
use crate::ranges::in_range;
use crate::roots::{get_root, set_root};
use crate::weak::{read_weak, set_weak};
use crate::words::{get, load, put, store};
use crate::zone_core::Core;
use az_base::NoMemory;
use local_set::Local;
use shared_heap::Heap;
use std::alloc::Global;
use zone_model::{Call, Entry, Reply};

/// The call `stats`: the statistics of the zone. O(1).
fn stats(_local: &Local, heap: &Heap) -> Reply
    requires { CanMake _local.now heap.now calls.Stats }
    ensures { Makes _local.now _local.now heap.now heap.now calls.Stats result }
{
    Reply::Stats(heap.stats())
}

/// Makes a call of which the reply has no list.
#[inline(always)]
fn make_plain(
    alloc: Global,
    local: &mut Local,
    heap: &mut Heap,
    call: &Call,
) -> Result<Reply, NoMemory>
    requires can { CanMake local.old heap.old call.now }
    requires built { is_cycle_step call.now ≡ false }
    requires stays { is_leave call.now ≡ false }
    ensures ok { IfOk result (λ reply. Makes local.old local.new heap.old heap.new call.now reply) }
    ensures err { OnErr result (Stays local.old local.new heap.old heap.new) }
    ensures cycle { KeepsCycle heap.old heap.new }
{
    match call {
        Call::New {
            to,
            layout,
            actions,
        } => make_block(alloc, local, heap, *to, layout, actions),
        Call::Load { to, from, at } => load(local, heap, *to, *from, *at),
        Call::Store { into, at, from } => store(alloc, local, heap, *into, *at, *from),
        Call::Put { into, at, number } => Ok(put(local, heap, *into, *at, *number)),
        Call::Get { from, at } => Ok(get(local, heap, *from, *at)),
        Call::SetRoot { root, from } => set_root(alloc, local, heap, *root, *from),
        Call::GetRoot { to, root } => get_root(local, heap, *to, *root),
        Call::Retain { reg } => retain(alloc, local, heap, *reg),
        Call::Release { reg } => Ok(release(local, heap, *reg)),
        Call::Count { reg } => Ok(count(local, heap, *reg)),
        Call::Take { to, id } => take(local, heap, *to, *id),
        Call::SetAssoc { object, key, value } => {
            set_assoc(alloc, local, heap, *object, *key, *value)
        }
        Call::GetAssoc { to, object, key } => get_assoc(local, heap, *to, *object, *key),
        Call::SetWeak { loc, from } => set_weak(alloc, local, heap, *loc, *from),
        Call::ReadWeak { to, loc } => read_weak(local, heap, *to, *loc),
        Call::Stats => Ok(stats(local, heap)),
        Call::Copy { .. }
        | Call::DropReg { .. }
        | Call::CollectLocal
        | Call::Begin { .. }
        | Call::Condemn
        | Call::Finalise
        | Call::Reclaim
        | Call::Leave => unreachable!(),
    }
}

/// Makes a call that is no step of a cycle and isn't local, of a thread of which nothing waits.
#[inline(always)]
fn make(alloc: Global, local: &mut Local, heap: &mut Heap, call: &Call) -> Result<Answer, NoMemory>
    requires can { CanMake local.old heap.old call.now }
    requires built { is_cycle_step call.now ≡ false }
    ensures ok { IfOk result (λ answer. Makes local.old local.new heap.old heap.new call.now answer.reply) }
    ensures same { IfOk result (λ answer. bare_reply answer.copy ≡ bare_reply answer.reply) }
    ensures ended { OnOk result (local.new.ended ≡ is_leave call.now) }
    ensures err { OnErr result (Stays local.old local.new heap.old heap.new) }
    ensures cycle { KeepsCycle heap.old heap.new }
{
    if let Call::Leave = call {
        return leave(alloc, local, heap);
    }
    let reply = make_plain(alloc, local, heap, call)?;
    Ok(twice(reply))
}

/// Publishes what waits, and then makes a call that is no step of a cycle.
fn share(alloc: Global, local: &mut Local, core: &mut Core, call: &Call) -> Result<Reply, NoMemory>
    requires belongs { BelongsTo local.old core.old }
    requires running { local.old.ended ≡ false }
    requires shared { is_local_at (part_in local.old) call.now ≡ false }
    requires quiet { is_cycle_step call.now ≡ false }
    requires may { (z : State) → IsCoreOf core.old z → May z local.old.thread call.now }
    ensures ok { IfOk result (λ reply. Stepped local.old local.new core.old core.new call.now reply) }
    ensures err { OnErr result (Refused local.old local.new core.old core.new) }
    ensures legal { Legal core.new.heap.options core.new.journal.entries }
    ensures state { IsCore core.new }
{
    let _ = &core.journal;
    in_range(call);
    let copy = call.try_copy(alloc)?;
    publish(local, core, 1)?;
    let answer = make(alloc, local, &mut core.heap, call)?;
    core.journal.push_reserved(Entry {
        thread: local.thread(),
        call: copy,
        reply: answer.copy,
    });
    Ok(answer.reply)
}

/// Publishes what waits, and then makes the call, which the thread may make (`may`). NoMemory leaves all as it was, or what
/// waits was published and nothing else has happened. Once a cycle has begun, its Condemn, each Finalise and its Reclaim
/// are never refused where nothing waits. O(waiting entries, what changed since the last publication, and words of the
/// blocks that escape) expected, and O(journal) where that grows; a Begin is O(blocks) besides, and a Condemn and a Reclaim
/// O(blocks and edges).
pub fn step(
    alloc: Global,
    local: &mut Local,
    core: &mut Core,
    call: &Call,
) -> Result<Reply, NoMemory>
    requires belongs { BelongsTo local.old core.old }
    requires running { local.old.ended ≡ false }
    requires shared { is_local_at (part_in local.old) call.now ≡ false }
    requires may { (z : State) → IsCoreOf core.old z → May z local.old.thread call.now }
    ensures ok { IfOk result (λ reply. Stepped local.old local.new core.old core.new call.now reply) }
    ensures err { OnErr result (Refused local.old local.new core.old core.new) }
    ensures sure { is_closing call.now ≡ true → local.old.waiting ≡ [] → IsOk result }
    ensures white { (mode : Mode) → call.now ≡ calls.Begin mode → IfOk result (λ reply. reply ≡ replies.Begun → black_in core.new.heap ≡ 0) }
    ensures legal { Legal core.new.heap.options core.new.journal.entries }
    ensures state { IsCore core.new }
{
    match call {
        Call::Begin { mode } => begin(alloc, local, core, *mode),
        Call::Condemn => close(local, core, Closing::Condemn),
        Call::Finalise => close(local, core, Closing::Finalise),
        Call::Reclaim => close(local, core, Closing::Reclaim),
        _ => share(alloc, local, core, call),
    }
}
