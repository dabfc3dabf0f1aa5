//! What one thread has of a zone.
ghost use Rattle.std.specs.Prelude.{◌≡◌, ◌<◌, ◌≤◌, ◌++◌, length, false, IfOk, OnOk, OnErr};
ghost use mathlib.Core.List.{IsPrefix};
ghost use Rattle.zone_model.specs.History.{Legal, is_cycle_step};
ghost use Rattle.zone_model.specs.Part.{Solo, is_local};
ghost use Rattle.zone_gate.specs.Shown.{IsSeatOf};
ghost use Rattle.zone_gate.specs.Views.{longer};
ghost use Rattle.local_set.specs.Calls.{Answers, Same};
ghost use Rattle.local_set.specs.LocalSets.{part_in};
ghost use Rattle.zone_escape.specs.Publications.{is_leave};
ghost use Rattle.auto_zone.specs.Collects.{Collected};
ghost use Rattle.auto_zone.specs.Sessions.{Always, SamePlace, Called, CalledOff, Synced, NotSynced};

use crate::collect::collect;
use crate::turn::{publish, turn};
use crate::zone::Zone;
use az_base::{Mode, NoMemory};
use local_set::{Local, LocalErr};
use std::alloc::Global;
use std::marker::Model;
use std::sync::Wait;
use zone_gate::Seat;
use zone_model::{Call, Reply};

/// A seat at the gate, which is there but in the midst of a call, and the thread's own set.
#[derive(Drop)]
pub struct Session {
    seat: Option<Seat>,
    local: Local,
}

impl Model for Session {
    ghost use Rattle.auto_zone.specs.Shown.{SessionShown, seat_in};
    ghost use Rattle.auto_zone.specs.Sessions.{Sits};

    ghost Value = { SessionShown };

    ghost view = { λ s. record { seat = seat_in s.seat; local = s.local } };

    ghost invariant = { λ s. Sits s.seat s.local };
}

impl Session {
    pub(crate) fn of(seat: Seat, local: Local) -> Session
        requires { Always seat local }
        ensures { (result.seat ≡ seat) × (result.local ≡ local) }
    {
        Session {
            seat: Some(seat),
            local,
        }
    }

    pub(crate) fn taken(self) -> (Seat, Local)
        ensures parts { (result.0 ≡ self.seat) × (result.1 ≡ self.local) }
        ensures always { Always result.0 result.1 }
    {
        let Session { seat, local } = self;
        let Some(seat) = seat else { unreachable!() };
        (seat, local)
    }

    /// The thread's own set, for reading alone, and what always holds of a session: what it has seen is legal, and its part
    /// is what its own entries and those that wait make of it. O(1).
    pub fn part(&self) -> &Local
        ensures part { result.now ≡ self.now.local }
        ensures always { Always self.now.seat self.now.local }
        ensures legal { Legal self.now.seat.options self.now.seat.seen }
        ensures solo { Solo self.now.seat.options (self.now.seat.own ++ self.now.local.waiting) (part_in self.now.local) }
    {
        &self.local
    }

    /// Takes room for at least `n` more waiting entries. NoMemory changes nothing. O(1), and O(entries) where their list
    /// grows.
    pub fn reserve_pending(&mut self, n: u32) -> Result<(), NoMemory>
        ensures seat { self.new.seat ≡ self.old.seat }
        ensures same { Same self.old.local self.new.local }
        ensures room { OnOk result (n ≤ self.new.local.spare) }
        ensures grows { self.old.local.spare ≤ self.new.local.spare }
        ensures err { OnErr result (self.new.local ≡ self.old.local) }
    {
        self.local.reserve_pending(n)
    }

    /// A call that needs the thread's own set alone; it waits there. It takes neither the zone nor the runtime. NotLocal
    /// exactly where the call isn't local, then PendingFull, then NoMemory; after each of these nothing has changed. The
    /// cost of the call of a local set.
    pub fn local(&mut self, alloc: Global, call: &Call) -> Result<Reply, LocalErr>
        ensures answers { Answers self.old.local self.new.local call.now result }
        ensures few { length self.old.local.waiting ≤ self.old.local.options.pending }
        ensures seat { self.new.seat ≡ self.old.seat }
    {
        self.local.call(alloc, call)
    }

    /// A shared call: what waits is published, and then the call is made, in one turn at the gate. After NoMemory nothing
    /// of this call was published; what waited may have been. In its turn, the cost of a `step` of `zone_escape`.
    pub fn call<R: Wait>(
        &mut self,
        rt: &R,
        alloc: Global,
        zone: &Zone,
        call: &Call,
    ) -> Result<Reply, NoMemory>
        requires zone { IsSeatOf zone.now self.old.seat }
        requires shared { is_local (part_in self.old.local) call.now ≡ false }
        requires kind { is_cycle_step call.now ≡ false }
        requires stays { is_leave call.now ≡ false }
        ensures place { SamePlace self.old.seat self.new.seat }
        ensures ok { IfOk result (λ r. Called self.old.seat self.new.seat self.old.local self.new.local call.now r) }
        ensures err { OnErr result (CalledOff self.old.seat self.new.seat self.old.local self.new.local) }
    {
        let Some(seat) = self.seat.take() else {
            unreachable!()
        };
        let (seat, reply) = turn(rt, alloc, &zone.gate, seat, &mut self.local, call);
        self.seat = Some(seat);
        reply
    }

    /// A collection: Begin, slices of marking of at most `budget` scans each, Condemn, each Finalise, and Reclaim, with a
    /// turn at the gate for each. It replies Busy, where another thread's cycle is open, or Settled. NoMemory comes from
    /// Begin alone; what waited may then have been published.
    pub fn collect<R: Wait>(
        &mut self,
        rt: &R,
        alloc: Global,
        zone: &Zone,
        mode: Mode,
        budget: u32,
    ) -> Result<Reply, NoMemory>
        requires zone { IsSeatOf zone.now self.old.seat }
        requires budget { 0 < budget }
        ensures place { SamePlace self.old.seat self.new.seat }
        ensures ok { IfOk result (λ r. Collected self.old.seat self.new.seat self.old.local self.new.local mode budget r) }
        ensures err { OnErr result (CalledOff self.old.seat self.new.seat self.old.local self.new.local) }
    {
        let Some(seat) = self.seat.take() else {
            unreachable!()
        };
        let (seat, reply) = collect(rt, alloc, &zone.gate, seat, &mut self.local, mode, budget);
        self.seat = Some(seat);
        reply
    }

    /// Both have then seen the longer of the two lists that they had seen; the other begins it. O(1), without memory or
    /// waiting.
    pub fn meet(&mut self, zone: &Zone, other: &mut Session)
        requires one { IsSeatOf zone.now self.old.seat }
        requires two { IsSeatOf zone.now other.old.seat }
        ensures one { self.new ≡ record self.old { seat = record self.old.seat { seen = longer self.old.seat.seen other.old.seat.seen } } }
        ensures two { other.new ≡ record other.old { seat = record other.old.seat { seen = longer self.old.seat.seen other.old.seat.seen } } }
        ensures begins { IsPrefix self.old.seat.seen self.new.seat.seen × IsPrefix other.old.seat.seen self.new.seat.seen }
    {
        let Some(mut one) = self.seat.take() else {
            unreachable!()
        };
        let Some(mut two) = other.seat.take() else {
            unreachable!()
        };
        zone.gate.meet(&mut one, &mut two);
        self.seat = Some(one);
        other.seat = Some(two);
    }

    /// Publishes what waits, in one turn at the gate. NoMemory publishes nothing. In its turn, the cost of a `flush` of
    /// `zone_escape`.
    pub fn sync<R: Wait>(&mut self, rt: &R, zone: &Zone) -> Result<(), NoMemory>
        requires { IsSeatOf zone.now self.old.seat }
        ensures place { SamePlace self.old.seat self.new.seat }
        ensures ok { OnOk result (Synced self.old.seat self.new.seat self.old.local self.new.local) }
        ensures err { OnErr result (NotSynced self.old.seat self.new.seat self.old.local self.new.local) }
    {
        let Some(seat) = self.seat.take() else {
            unreachable!()
        };
        let (seat, done) = publish(rt, &zone.gate, seat, &mut self.local);
        self.seat = Some(seat);
        done
    }
}
