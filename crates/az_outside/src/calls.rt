//! Which calls of an end in memory fail.
use std::marker::Model;

/// Counts the calls, and those that failed. The calls whose number from 1 is listed fail.
#[derive(Drop)]
pub struct Calls {
    failing: Vec<u64>,
    made: u64,
    faults: u64,
}

impl Model for Calls {
    ghost use Rattle.az_outside.specs.CallCounts.{CallCounts};

    ghost Value = { CallCounts };

    ghost view = { λ c. record { failing = c.failing.items; made = c.made; faults = c.faults } };
}

impl Calls {
    ghost use Rattle.std.specs.Prelude.{◌≡◌, ◌≤◌, ◌||◌};
    ghost use Rattle.az_outside.specs.CallCounts.{no_call, next_fails, after_call};

    pub fn new(failing: Vec<u64>) -> Calls
        ensures { result ≡ no_call failing.items }
    {
        Calls {
            failing,
            made: 0,
            faults: 0,
        }
    }

    /// Counts one call more, and says whether it fails: by its number, or because something else refuses it.
    /// O(length of the list).
    pub fn next_fails(&mut self, refused: bool) -> bool
        ensures answer { result ≡ (refused || next_fails self.old) }
        ensures counted { self.new ≡ after_call self.old result }
        ensures later { self.old.faults ≤ self.new.faults }
    {
        self.made = self.made.saturating_add(1);
        let fails = refused || self.failing.contains(&self.made);
        if fails {
            self.faults = self.faults.saturating_add(1);
        }
        fails
    }
}
