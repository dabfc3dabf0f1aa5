//! Where a thread stands in its own cycle.
ghost use Rattle.std.specs.Prelude.{◌≡◌, IsTrue, ◌↔◌};
ghost use Rattle.zone_model.specs.Phases.{May};
ghost use Rattle.zone_model.specs.State.{State};
ghost use Rattle.zone_escape.specs.Cores.{IsCoreOf};
ghost use Rattle.zone_escape.specs.Phases.{IsIn, is_free, is_marking, has_left, is_settled, may_in};

use crate::zone_core::Core;
use local_set::Local;
use zone_model::Call;

/// Where a thread stands in its own cycle.
#[derive(Clone, Copy)]
enum Phase {
    /// No cycle of it is open.
    Free,
    /// Its cycle isn't condemned yet.
    Marking,
    /// Its cycle is condemned, and so many blocks wait for their finaliser.
    Settling(u32),
}

/// Where the thread stands. O(1).
fn phase_of(local: &Local, core: &Core) -> Phase
    ensures { (z : State) → IsCoreOf core.now z → IsIn z local.now.thread result }
{
    match core.heap.cycle() {
        Some((owner, condemned)) => {
            if owner != local.thread() {
                Phase::Free
            } else if condemned {
                Phase::Settling(core.heap.to_finalise())
            } else {
                Phase::Marking
            }
        }
        None => Phase::Free,
    }
}

impl Phase {
    fn is_free(self) -> bool
        ensures { result ≡ is_free self }
    {
        match self {
            Phase::Free => true,
            Phase::Marking | Phase::Settling(_) => false,
        }
    }

    fn is_marking(self) -> bool
        ensures { result ≡ is_marking self }
    {
        match self {
            Phase::Marking => true,
            Phase::Free | Phase::Settling(_) => false,
        }
    }

    /// Whether a block waits for its finaliser.
    fn has_left(self) -> bool
        ensures { result ≡ has_left self }
    {
        match self {
            Phase::Settling(left) => left > 0,
            Phase::Free | Phase::Marking => false,
        }
    }

    /// Whether all finalisers have run.
    fn is_settled(self) -> bool
        ensures { result ≡ is_settled self }
    {
        match self {
            Phase::Settling(left) => left == 0,
            Phase::Free | Phase::Marking => false,
        }
    }

    /// Whether the call may be made in this phase.
    fn may(self, call: &Call) -> bool
        ensures { result ≡ may_in self call.now }
    {
        match call {
            Call::Begin { .. } | Call::Leave => self.is_free(),
            Call::Condemn => self.is_marking(),
            Call::Finalise => self.has_left(),
            Call::Reclaim => self.is_settled(),
            _ => true,
        }
    }
}

/// Whether the thread may make the call, as far as its own cycle is concerned: false for a Begin and a Leave while that is
/// open, for a Condemn where it isn't marking, for a Finalise where no condemned block waits for its finaliser, and for a
/// Reclaim where one does, or nothing is condemned. O(1).
pub fn may(local: &Local, core: &Core, call: &Call) -> bool
    ensures { (z : State) → IsCoreOf core.now z → IsTrue result ↔ May z local.now.thread call.now }
{
    phase_of(local, core).may(call)
}
