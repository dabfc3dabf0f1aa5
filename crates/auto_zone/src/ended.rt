//! The end of a session.
ghost use Rattle.std.specs.Prelude.{◌≡◌, MatchResult};
ghost use Rattle.zone_gate.specs.Shown.{IsSeatOf};
ghost use Rattle.auto_zone.specs.Sessions.{SamePlace, Left, CalledOff};

use crate::session::Session;
use crate::turn::last;
use crate::zone::Zone;
use az_base::{NoMemory, ThreadNo};
use std::alloc::Global;
use std::marker::Model;
use std::sync::Wait;
use zone_gate::Seat;

/// The seat of a thread that has left.
#[derive(Drop)]
pub struct Ended {
    pub(crate) seat: Seat,
}

impl Model for Ended {
    ghost use Rattle.zone_gate.specs.Shown.{SeatShown};

    ghost Value = { SeatShown };

    ghost view = { λ e. e.seat };
}

impl Ended {
    /// The thread that has left. O(1).
    pub fn thread(&self) -> ThreadNo
        ensures { result ≡ self.now.thread }
    {
        self.seat.thread()
    }
}

impl Session {
    /// The thread leaves: what waits is published, and then a Leave. NoMemory hands the session back; what waited may then
    /// have been published. One turn at the gate; in it, the cost of a `step` of `zone_escape`.
    pub fn leave<R: Wait>(
        self,
        rt: &R,
        alloc: Global,
        zone: &Zone,
    ) -> Result<Ended, (Session, NoMemory)>
        requires { IsSeatOf zone.now self.seat }
        ensures { MatchResult result (λ u. SamePlace self.seat u × Left self.seat u self.local) (λ e. SamePlace self.seat e.0.seat × CalledOff self.seat e.0.seat self.local e.0.local) }
    {
        let (seat, mut local) = self.taken();
        let (seat, reply) = last(rt, alloc, &zone.gate, seat, &mut local);
        match reply {
            Ok(_) => Ok(Ended { seat }),
            Err(e) => Err((Session::of(seat, local), e)),
        }
    }
}
