//! One turn of a thread at the gate.
ghost use Rattle.std.specs.Prelude.{◌≡◌, false, IfOk, OnOk, OnErr};
ghost use Rattle.zone_model.specs.declared.call.Call.TheVariants as call;
ghost use Rattle.zone_model.specs.History.{is_cycle_step};
ghost use Rattle.zone_model.specs.Part.{is_local};
ghost use Rattle.zone_gate.specs.Shown.{IsSeatOf};
ghost use Rattle.local_set.specs.LocalSets.{part_in};
ghost use Rattle.zone_escape.specs.Publications.{is_leave};
ghost use Rattle.auto_zone.specs.Sessions.{Always, SamePlace, Called, CalledOff, Synced, NotSynced};

use crate::gated::Gated;
use az_base::NoMemory;
use local_set::Local;
use std::alloc::Global;
use std::sync::Wait;
use zone_gate::{Gate, Seat};
use zone_model::{Call, Reply};

/// A shared call in a turn of its own.
pub(crate) fn turn<R: Wait>(
    rt: &R,
    alloc: Global,
    gate: &Gate<Gated>,
    seat: Seat,
    local: &mut Local,
    call: &Call,
) -> (Seat, Result<Reply, NoMemory>)
    requires gate { IsSeatOf gate.now seat }
    requires always { Always seat local.old }
    requires shared { is_local (part_in local.old) call.now ≡ false }
    requires kind { is_cycle_step call.now ≡ false }
    requires stays { is_leave call.now ≡ false }
    ensures place { SamePlace seat result.0 }
    ensures always { Always result.0 local.new }
    ensures ok { IfOk result.1 (λ r. Called seat result.0 local.old local.new call.now r) }
    ensures err { OnErr result.1 (CalledOff seat result.0 local.old local.new) }
{
    let mut held = gate.hold(rt, seat);
    let reply = held.value().step(alloc, local, call);
    (gate.give_back(held), reply)
}

/// The waiting entries in a turn of their own.
pub(crate) fn publish<R: Wait>(
    rt: &R,
    gate: &Gate<Gated>,
    seat: Seat,
    local: &mut Local,
) -> (Seat, Result<(), NoMemory>)
    requires gate { IsSeatOf gate.now seat }
    requires always { Always seat local.old }
    ensures place { SamePlace seat result.0 }
    ensures always { Always result.0 local.new }
    ensures ok { OnOk result.1 (Synced seat result.0 local.old local.new) }
    ensures err { OnErr result.1 (NotSynced seat result.0 local.old local.new) }
{
    let mut held = gate.hold(rt, seat);
    let done = held.value().flush(local);
    (gate.give_back(held), done)
}

/// The waiting entries and the end of the thread, in a turn of their own.
pub(crate) fn last<R: Wait>(
    rt: &R,
    alloc: Global,
    gate: &Gate<Gated>,
    seat: Seat,
    local: &mut Local,
) -> (Seat, Result<Reply, NoMemory>)
    requires gate { IsSeatOf gate.now seat }
    requires always { Always seat local.old }
    ensures place { SamePlace seat result.0 }
    ensures always { OnErr result.1 (Always result.0 local.new) }
    ensures ok { IfOk result.1 (λ r. Called seat result.0 local.old local.new call.Leave r) }
    ensures err { OnErr result.1 (CalledOff seat result.0 local.old local.new) }
{
    let mut held = gate.hold(rt, seat);
    let reply = held.value().step(alloc, local, &Call::Leave);
    (gate.give_back(held), reply)
}
