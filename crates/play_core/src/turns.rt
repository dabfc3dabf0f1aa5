//! A call of a thread, on its own set and the core.
ghost use Rattle.std.specs.Prelude.{◌≡◌, ◌≤◌, true, false, [], length, IfOk, OnErr};
ghost use Rattle.std.specs.Result.{IsOk};
ghost use Rattle.az_base.specs.declared.action.Mode.{Mode};
ghost use Rattle.zone_model.specs.declared.call.Call.TheVariants as calls;
ghost use Rattle.zone_model.specs.declared.entry.Reply.TheVariants as replies;
ghost use Rattle.zone_model.specs.Part.{is_local as is_local_at};
ghost use Rattle.zone_model.specs.Phases.{May, is_closing};
ghost use Rattle.zone_model.specs.State.{State};
ghost use Rattle.shared_heap.specs.Cycles.{black_in};
ghost use Rattle.local_set.specs.LocalSets.{part_in};
ghost use Rattle.zone_escape.specs.Cores.{BelongsTo, IsCore, IsCoreOf};
ghost use Rattle.play_core.specs.Turning.{Turned, Stopped};

use az_base::NoMemory;
use local_set::{Local, LocalErr};
use std::alloc::Global;
use zone_escape::{Core, flush, step};
use zone_model::{Call, Reply};

/// What waits is published, since no more may wait, and then a local call waits.
fn flush_and_wait(
    alloc: Global,
    local: &mut Local,
    core: &mut Core,
    call: &Call,
) -> Result<Reply, NoMemory>
    requires belongs { BelongsTo local.old core.old }
    requires running { local.old.ended ≡ false }
    requires own { is_local_at (part_in local.old) call.now ≡ true }
    requires pending { 1 ≤ local.old.options.pending }
    requires full { length local.old.waiting ≡ local.old.options.pending }
    ensures ok { IfOk result (λ reply. Turned local.old local.new core.old core.new call.now reply) }
    ensures err { OnErr result (Stopped local.old local.new core.old core.new) }
    ensures state { IsCore core.new }
{
    flush(local, core)?;
    match local.call(alloc, call) {
        Ok(made) => Ok(made),
        Err(LocalErr::NoMemory) => Err(NoMemory),
        Err(LocalErr::NotLocal | LocalErr::PendingFull) => unreachable!(),
    }
}

/// The thread makes the call. At most the cost of the call, twice looked at, and of what it publishes.
#[inline(always)]
pub fn turn(
    alloc: Global,
    local: &mut Local,
    core: &mut Core,
    call: &Call,
) -> Result<Reply, NoMemory>
    requires belongs { BelongsTo local.old core.old }
    requires running { local.old.ended ≡ false }
    requires pending { 1 ≤ local.old.options.pending }
    requires state { IsCore core.old }
    requires may { (z : State) → IsCoreOf core.old z → May z local.old.thread call.now }
    ensures ok { IfOk result (λ reply. Turned local.old local.new core.old core.new call.now reply) }
    ensures err { OnErr result (Stopped local.old local.new core.old core.new) }
    ensures sure { is_closing call.now ≡ true → local.old.waiting ≡ [] → IsOk result }
    ensures white { (mode : Mode) → call.now ≡ calls.Begin mode → IfOk result (λ reply. reply ≡ replies.Begun → black_in core.new.heap ≡ 0) }
    ensures state { IsCore core.new }
{
    match local.call(alloc, call) {
        Ok(reply) => Ok(reply),
        Err(LocalErr::NotLocal) => step(alloc, local, core, call),
        Err(LocalErr::PendingFull) => flush_and_wait(alloc, local, core, call),
        Err(LocalErr::NoMemory) => Err(NoMemory),
    }
}
