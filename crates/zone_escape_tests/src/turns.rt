//! The turn of a thread.
ghost use Rattle.std.specs.Prelude.{◌≡◌, true, false};
ghost use Rattle.zone_model.specs.Part.{is_local as is_local_at};
ghost use Rattle.zone_model.specs.Phases.{May};
ghost use Rattle.zone_model.specs.State.{State};
ghost use Rattle.local_set.specs.LocalSets.{part_in};
ghost use Rattle.zone_escape.specs.Cores.{IsCore, IsCoreOf, BelongsTo};
ghost use Rattle.zone_escape_tests.specs.Turns.{Turned};

use local_set::Local;
use std::alloc::Global;
use zone_escape::{Core, flush, may, step};
use zone_model::{Call, Reply};

/// What waits is published; whether it was.
pub fn publishes(local: &mut Local, core: &mut Core) -> bool
    requires state { IsCore core.old }
    requires belongs { BelongsTo local.old core.old }
    ensures { Turned local.old local.new core.old core.new }
{
    flush(local, core).is_ok()
}

/// The reply to a local call; None where it was refused.
fn make_local(alloc: Global, local: &mut Local, core: &Core, call: &Call) -> Option<Reply>
    requires running { local.old.ended ≡ false }
    requires state { IsCore core.now }
    requires belongs { BelongsTo local.old core.now }
    ensures { Turned local.old local.new core.now core.now }
{
    let _ = core;
    match local.call(alloc, call) {
        Ok(reply) => Some(reply),
        Err(_) => None,
    }
}

/// The reply to another call.
fn make_shared(alloc: Global, local: &mut Local, core: &mut Core, call: &Call) -> Option<Reply>
    requires running { local.old.ended ≡ false }
    requires state { IsCore core.old }
    requires belongs { BelongsTo local.old core.old }
    requires shared { is_local_at (part_in local.old) call.now ≡ false }
    requires may { (z : State) → IsCoreOf core.old z → May z local.old.thread call.now }
    ensures { Turned local.old local.new core.old core.new }
{
    match step(alloc, local, core, call) {
        Ok(reply) => Some(reply),
        Err(_) => None,
    }
}

/// The reply to a call; None where it was refused, the thread may not make it, or it has ended.
pub fn make(alloc: Global, local: &mut Local, core: &mut Core, call: &Call) -> Option<Reply>
    requires state { IsCore core.old }
    requires belongs { BelongsTo local.old core.old }
    ensures { Turned local.old local.new core.old core.new }
{
    if local.has_ended() {
        return None;
    }
    if local.is_local(call) {
        return make_local(alloc, local, core, call);
    }
    if !may(local, core, call) {
        return None;
    }
    make_shared(alloc, local, core, call)
}
