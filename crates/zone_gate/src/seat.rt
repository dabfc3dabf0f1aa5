//! A thread's seat at a gate, and a note of what it has seen.
ghost use Rattle.std.specs.Prelude.{◌≡◌};

use crate::cuts::Cuts;
use crate::view::View;
use atomic_table::Badge;
use az_base::ThreadNo;
use std::marker::Model;

/// The seat of one thread. Contracts see its gate and options, its thread, the thread's own entries, `seen`, which
/// begins the gate's list, and `cuts`, one for each turn. It holds no memory: threads may send each other their seats.
#[derive(Drop)]
pub struct Seat {
    pub(crate) badge: Badge<View>,
    pub(crate) thread: ThreadNo,
    pub(crate) cuts: Cuts,
}

impl Model for Seat {
    ghost use Rattle.std.specs.Prelude.{◌≡◌, [], ◌∷◌};
    ghost use Rattle.zone_gate.specs.Shown.{SeatShown};
    ghost use Rattle.zone_gate.specs.Tokens.{view_in, entries_in};
    ghost use Rattle.zone_gate.specs.Owning.{owned};
    ghost use Rattle.zone_gate.specs.Views.{resting};

    ghost Value = { SeatShown };

    ghost view = { λ s. record { gate = s.badge.table_id; options = (view_in s.badge.views).options; thread = s.thread; own = entries_in (view_in s.badge.views).own; seen = (view_in s.badge.views).seen; cuts = s.cuts.list } };

    ghost invariant = { λ s. s.badge.views ≡ resting (view_in s.badge.views).options (view_in s.badge.views).seen (owned s.thread (entries_in (view_in s.badge.views).own) ∷ []) ∷ [] };
}

impl Seat {
    pub fn thread(&self) -> ThreadNo
        ensures { result ≡ self.now.thread }
    {
        self.thread
    }
}

/// What a seat had seen, for another seat of the same gate to take in. It has no bytes.
#[derive(Drop)]
pub struct Note {
    pub(crate) badge: Badge<View>,
}

impl Model for Note {
    ghost use Rattle.std.specs.Prelude.{◌≡◌, [], ◌∷◌};
    ghost use Rattle.zone_gate.specs.Shown.{NoteShown};
    ghost use Rattle.zone_gate.specs.Tokens.{view_in};
    ghost use Rattle.zone_gate.specs.Views.{resting};

    ghost Value = { NoteShown };

    ghost view = { λ s. record { gate = s.badge.table_id; options = (view_in s.badge.views).options; seen = (view_in s.badge.views).seen } };

    ghost invariant = { λ s. s.badge.views ≡ resting (view_in s.badge.views).options (view_in s.badge.views).seen [] ∷ [] };
}
