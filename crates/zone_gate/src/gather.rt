//! The seats of a gate, all together: as they are dealt, and as they come back.
ghost use Rattle.std.specs.Prelude.{◌≡◌, ◌<◌, ◌≤◌, [], ◌∷◌, map, length, All, IfOk};
ghost use Rattle.std.specs.Vec.{vec_capacity};
ghost use mathlib.Core.List.{IsPrefix};
ghost use Rattle.zone_gate.specs.Owning.{Has, fresh, most_threads};
ghost use Rattle.zone_gate.specs.Views.{resting};
ghost use Rattle.zone_gate.specs.Tokens.{IsSized, AtRest, SameToken};
ghost use Rattle.zone_gate.specs.Shown.{new_seat};
ghost use Rattle.zone_gate.specs.Gathering.{KnowsAll};

use crate::cuts::Cuts;
use crate::held::Token;
use crate::kept::Kept;
use crate::seat::Seat;
use crate::steps::{GateTable, split_first, unite};
use az_base::{NoMemory, ThreadNo};
use std::alloc::Global;

// A copy of the threads, each asked for its number, which tells its range.
pub(crate) fn copied(alloc: Global, threads: &[ThreadNo]) -> Result<Vec<ThreadNo>, NoMemory>
    ensures { IfOk result (λ v. (v.items ≡ threads.now) × All (λ t. (0 < t) × (t ≤ most_threads)) v.items) }
{
    let mut copy = Vec::new(alloc);
    for thread in threads {
        let thread = *thread;
        let _number = thread.get();
        let Ok(()) = copy.push(thread) else {
            return Err(NoMemory);
        };
    }
    Ok(copy)
}

// A seat for each thread, cut off from the first token, which had all of them.
pub(crate) fn deal_seats<V: Kept>(
    table: &GateTable<V>,
    mut token: Token<V>,
    threads: &[ThreadNo],
    mut seats: Vec<Seat>,
) -> Vec<Seat>
    requires table { token.table_id ≡ table.now.table_id }
    requires sized { IsSized table.now.table_id }
    requires fresh { token.me ≡ (resting token.me.0.options [] (fresh threads.now), []) }
    requires room { (seats.items ≡ []) × (length threads.now ≤ vec_capacity seats) }
    ensures { result.items ≡ map (new_seat table.now.table_id token.me.0.options) threads.now }
{
    for thread in threads {
        let first = split_first::<V>(table, &mut token);
        let seat = Seat {
            badge: first.into_badge(),
            thread: *thread,
            cuts: Cuts::new(),
        };
        seats.push_reserved(seat);
    }
    seats
}

// Takes in all seats, one by one.
pub(crate) fn unite_all<V: Kept>(table: &GateTable<V>, token: &mut Token<V>, mut seats: Vec<Seat>)
    requires table { token.old.table_id ≡ table.now.table_id }
    requires sized { IsSized table.now.table_id }
    requires rest { AtRest token.old.me }
    requires gate { All (λ s. s.gate ≡ table.now.table_id) seats.items }
    ensures same { SameToken token.old token.new × AtRest token.new.me }
    ensures knows { KnowsAll token.new.me.0 seats.items }
    ensures seen { IsPrefix token.old.me.0.seen token.new.me.0.seen }
    ensures own { (x : _) → Has x token.old.me.0.own → Has x token.new.me.0.own }
    ensures options { token.new.me.0.options ≡ token.old.me.0.options }
{
    while let Some(seat) = seats.pop() {
        let Seat {
            badge,
            thread: _,
            cuts: _,
        } = seat;
        unite::<V>(table, token, badge.into_seat::<Option<V>>());
    }
}
