//! A zone that threads share.
ghost use Rattle.std.specs.Prelude.{◌≡◌, ◌<◌, ◌≤◌, ◌↔◌, [], vec_len, length, map, All, AllPairs, IfOk, MatchResult, IsTrue};
ghost use Rattle.std.specs.Vec.{vec_capacity};
ghost use Rattle.az_base.specs.OptionRanges.{IsValid};
ghost use Rattle.zone_gate.specs.Shown.{IsSeatOf, HasAllThreads, new_seat};
ghost use Rattle.zone_escape.specs.Cores.{IsUnused};
ghost use Rattle.auto_zone.specs.Endings.{has_thread, have_threads};
ghost use Rattle.auto_zone.specs.Sessions.{IsClosed};

use crate::ended::Ended;
use crate::gated::Gated;
use crate::session::Session;
use az_base::{NoMemory, Options, ThreadNo};
use local_set::Local;
use std::alloc::Global;
use std::marker::Model;
use zone_gate::{Gate, Seat};
use zone_history::Journal;
use zone_model::Stats;

/// The core behind a gate. Contracts see which gate it is, the options, and the threads.
#[derive(Drop)]
pub struct Zone {
    pub(crate) gate: Gate<Gated>,
    threads: Vec<ThreadNo>,
}

impl Model for Zone {
    ghost use Rattle.std.specs.Prelude.{◌≡◌};
    ghost use Rattle.zone_gate.specs.Shown.{GateShown};

    ghost Value = { GateShown };

    ghost view = { λ z. z.gate };

    ghost invariant = { λ z. z.threads.items ≡ z.gate.threads };
}

/// What is left of a zone: the journal, and the statistics of its end.
#[derive(Drop)]
pub struct Closed {
    pub journal: Journal,
    pub stats: Stats,
}

/// A session on each seat, in room that is there.
fn sessions_of(
    alloc: Global,
    options: Options,
    seats: Vec<Seat>,
    mut sessions: Vec<Session>,
) -> Vec<Session>
    requires options { IsValid options }
    requires seats { All (λ s. s ≡ new_seat s.gate options s.thread) seats.items }
    requires empty { sessions.items ≡ [] }
    requires room { vec_len seats ≤ vec_capacity sessions }
    ensures seats { map (λ s. s.seat) result.items ≡ seats.items }
    ensures unused { All (λ s. IsUnused s.local options) result.items }
{
    for seat in seats {
        let local = Local::new(alloc, seat.thread(), options);
        sessions.push_reserved(Session::of(seat, local));
    }
    sessions
}

/// The seats of ended sessions, in room that is there.
fn seats_of(ended: Vec<Ended>, mut seats: Vec<Seat>) -> Vec<Seat>
    requires { (seats.items ≡ []) × (vec_len ended ≤ vec_capacity seats) }
    ensures { result.items ≡ ended.items }
{
    for one in ended {
        let Ended { seat } = one;
        seats.push_reserved(seat);
    }
    seats
}

/// Whether one of these is of the thread.
fn is_in(thread: ThreadNo, ended: &[Ended]) -> bool
    ensures { result ≡ has_thread ended.now thread }
{
    ended.iter().any(|one| one.thread() == thread)
}

/// Whether each of the threads has ended.
fn are_in(threads: &[ThreadNo], ended: &[Ended]) -> bool
    ensures { result ≡ have_threads ended.now threads.now }
{
    threads.iter().all(|thread| is_in(*thread, ended))
}

impl Zone {
    /// A zone in which nothing has happened, and a session for each thread, in their order. O(threads).
    pub fn create(
        alloc: Global,
        options: Options,
        threads: &[ThreadNo],
    ) -> Result<(Zone, Vec<Session>), NoMemory>
        requires options { IsValid options }
        requires some { 0 < length threads.now }
        requires ascending { AllPairs (λ t u. t < u) threads.now }
        ensures zone { IfOk result (λ r. (r.0.options ≡ options) × (r.0.threads ≡ threads.now)) }
        ensures sessions { IfOk result (λ r. map (λ s. s.seat) r.1.items ≡ map (new_seat r.0.id options) threads.now) }
        ensures unused { IfOk result (λ r. All (λ s. IsUnused s.local options) r.1.items) }
    {
        let copy = threads.to_vec(alloc)?;
        let Ok(room) = Vec::with_capacity(alloc, threads.len()) else {
            return Err(NoMemory);
        };
        let core = Gated::new(alloc, options)?;
        let (gate, seats) = Gate::new(alloc, core, threads)?;
        let sessions = sessions_of(alloc, options, seats, room);
        Ok((
            Zone {
                gate,
                threads: copy,
            },
            sessions,
        ))
    }

    /// Whether each thread of the zone has ended. O(threads of the zone and ended ones, multiplied).
    pub fn all_in(&self, ended: &[Ended]) -> bool
        ensures { IsTrue result ↔ HasAllThreads self.now ended.now }
    {
        are_in(self.threads.as_slice(), ended)
    }

    /// The journal, once all sessions have ended, and the statistics of its end. It is legal, begins with all that they
    /// saw, and has their entries and no others. NoMemory hands all back. O(blocks, and threads).
    pub fn close(
        self,
        alloc: Global,
        ended: Vec<Ended>,
    ) -> Result<Closed, (Zone, Vec<Ended>, NoMemory)>
        requires of { All (λ s. IsSeatOf self s) ended.items }
        requires all { HasAllThreads self ended.items }
        ensures { MatchResult result (λ c. IsClosed self.options self.threads ended.items c.journal.entries c.stats) (λ e. (e.0 ≡ self) × (e.1 ≡ ended)) }
    {
        let Ok(room) = Vec::with_capacity(alloc, ended.len()) else {
            return Err((self, ended, NoMemory));
        };
        let Zone { gate, threads: _ } = self;
        let core = gate.close(seats_of(ended, room));
        let (journal, stats) = core.ended();
        Ok(Closed { journal, stats })
    }
}
