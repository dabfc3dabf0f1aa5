//! A collection, with the gate given back after each of its steps and slices.
ghost use Rattle.std.specs.Prelude.{◌≡◌, ◌<◌, [], true, IfOk, OnErr, replicate};
ghost use Rattle.zone_model.specs.declared.call.Call.TheVariants as call;
ghost use Rattle.auto_zone.specs.Stages.{InStage, OutStage, Opened, Tells, begun_reply};
ghost use Rattle.zone_model.specs.Phases.{Marking, Settling};
ghost use Rattle.zone_gate.specs.Shown.{IsSeatOf};
ghost use Rattle.auto_zone.specs.Sessions.{AlwaysIn, Always, SamePlace, Called, CalledOff};
ghost use Rattle.auto_zone.specs.Collects.{OneSlice, NewSlices, Steps, Closes, Collected, IsNarrow};

use crate::gated::Gated;
use az_base::{Mode, NoMemory};
use local_set::Local;
use std::alloc::Global;
use std::sync::Wait;
use zone_gate::{Gate, Seat};
use zone_model::{Call, Reply};

/// Begin, in a turn of its own, and whether a cycle was begun.
fn opened<R: Wait>(
    rt: &R,
    alloc: Global,
    gate: &Gate<Gated>,
    seat: Seat,
    local: &mut Local,
    mode: Mode,
) -> (Seat, Result<bool, NoMemory>)
    requires gate { IsSeatOf gate.now seat }
    requires always { Always seat local.old }
    ensures place { SamePlace seat result.0 }
    ensures always { OnErr result.1 (Always result.0 local.new) }
    ensures phase { IfOk result.1 (λ b. AlwaysIn (Opened b) result.0 local.new) }
    ensures ok { IfOk result.1 (λ b. Called seat result.0 local.old local.new (call.Begin mode) (begun_reply b)) }
    ensures narrow { IfOk result.1 (λ b. IsNarrow b seat result.0) }
    ensures err { OnErr result.1 (CalledOff seat result.0 local.old local.new) }
{
    let mut held = gate.hold(rt, seat);
    let begun = held.value().begin(alloc, local, mode);
    (gate.give_back(held), begun)
}

/// One slice, in a turn of its own, and whether marking is done.
fn slice_turn<R: Wait>(
    rt: &R,
    gate: &Gate<Gated>,
    seat: Seat,
    local: &Local,
    budget: u32,
) -> (Seat, bool)
    requires gate { IsSeatOf gate.now seat }
    requires always { AlwaysIn Marking seat local.now }
    requires budget { 0 < budget }
    ensures always { AlwaysIn Marking result.0 local.now }
    ensures slice { OneSlice seat result.0 budget result.1 }
{
    let mut held = gate.hold(rt, seat);
    let done = held.value().slice(local, budget);
    (gate.give_back(held), done)
}

/// Slices go on until one is done.
fn mark<R: Wait>(rt: &R, gate: &Gate<Gated>, seat: Seat, local: &Local, budget: u32) -> Seat
    requires gate { IsSeatOf gate.now seat }
    requires always { AlwaysIn Marking seat local.now }
    requires budget { 0 < budget }
    ensures always { AlwaysIn Marking result local.now }
    ensures slices { NewSlices seat result budget true }
{
    let (mut seat, mut done) = slice_turn(rt, gate, seat, local, budget);
    for _ in rt.forever() {
        if done {
            break;
        }
        let (after, is_done) = slice_turn(rt, gate, seat, local, budget);
        seat = after;
        done = is_done;
    }
    seat
}

/// A step of a cycle that was begun, in a turn of its own, and how many blocks then wait for their finaliser.
fn closing<R: Wait>(
    rt: &R,
    alloc: Global,
    gate: &Gate<Gated>,
    seat: Seat,
    local: &mut Local,
    call: &Call,
    left: u32,
) -> (Seat, Reply, u32)
    requires gate { IsSeatOf gate.now seat }
    requires always { AlwaysIn (InStage call.now left) seat local.old }
    requires out { local.old.waiting ≡ [] }
    ensures place { SamePlace seat result.0 }
    ensures always { AlwaysIn (OutStage call.now left result.2) result.0 local.new }
    ensures called { Called seat result.0 local.old local.new call.now result.1 }
    ensures tells { Tells call.now result.1 }
{
    let mut held = gate.hold(rt, seat);
    let (reply, rest) = held.value().close(alloc, local, call);
    (gate.give_back(held), reply, rest)
}

/// Each block that waits for its finaliser.
fn finalise<R: Wait>(
    rt: &R,
    alloc: Global,
    gate: &Gate<Gated>,
    mut seat: Seat,
    local: &mut Local,
    mut left: u32,
) -> Seat
    requires gate { IsSeatOf gate.now seat }
    requires always { AlwaysIn (Settling left) seat local.old }
    requires out { local.old.waiting ≡ [] }
    ensures always { AlwaysIn (Settling 0) result local.new }
    ensures out { local.new.waiting ≡ [] }
    ensures steps { Steps seat result (replicate left call.Finalise) }
{
    while left > 0 {
        let (after, _, rest) = closing(rt, alloc, gate, seat, local, &Call::Finalise, left);
        seat = after;
        left = rest;
    }
    seat
}

/// The rest of a collection that has begun.
fn settle<R: Wait>(
    rt: &R,
    alloc: Global,
    gate: &Gate<Gated>,
    seat: Seat,
    local: &mut Local,
    budget: u32,
) -> (Seat, Reply)
    requires gate { IsSeatOf gate.now seat }
    requires always { AlwaysIn Marking seat local.old }
    requires out { local.old.waiting ≡ [] }
    requires budget { 0 < budget }
    ensures always { Always result.0 local.new }
    ensures out { local.new.waiting ≡ [] }
    ensures closes { Closes seat result.0 budget result.1 }
{
    let seat = mark(rt, gate, seat, local, budget);
    let (seat, _, left) = closing(rt, alloc, gate, seat, local, &Call::Condemn, 0);
    let seat = finalise(rt, alloc, gate, seat, local, left);
    let (seat, reply, _) = closing(rt, alloc, gate, seat, local, &Call::Reclaim, 0);
    (seat, reply)
}

/// A collection.
pub(crate) fn collect<R: Wait>(
    rt: &R,
    alloc: Global,
    gate: &Gate<Gated>,
    seat: Seat,
    local: &mut Local,
    mode: Mode,
    budget: u32,
) -> (Seat, Result<Reply, NoMemory>)
    requires gate { IsSeatOf gate.now seat }
    requires always { Always seat local.old }
    requires budget { 0 < budget }
    ensures place { SamePlace seat result.0 }
    ensures always { Always result.0 local.new }
    ensures ok { IfOk result.1 (λ r. Collected seat result.0 local.old local.new mode budget r) }
    ensures err { OnErr result.1 (CalledOff seat result.0 local.old local.new) }
{
    let (seat, begun) = opened(rt, alloc, gate, seat, local, mode);
    let Ok(begun) = begun else {
        return (seat, Err(NoMemory));
    };
    if !begun {
        return (seat, Ok(Reply::Busy));
    }
    let (seat, reply) = settle(rt, alloc, gate, seat, local, budget);
    (seat, Ok(reply))
}
