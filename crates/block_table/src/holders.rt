//! How often each thread holds one block.
ghost use Rattle.std.specs.Prelude.{◌≡◌, ◌<◌, ◌⊎◌, ◌==◌, IsOk, OnOk, OnErr, position, filter, not};
ghost use Rattle.std.specs.FinMap.{empty};
ghost use Rattle.block_table.specs.Holds.{times, with_times, is_held_by};

use az_base::{NoMemory, ThreadNo};
use smallvec::SmallVec;
use std::alloc::Global;
use std::marker::Model;

/// The threads that hold a block, by number, each with how often it does. One of them takes no memory.
#[derive(Drop)]
pub struct Holders {
    counts: SmallVec<(u32, u32), 1>,
}

impl Model for Holders {
    ghost use Rattle.std.specs.Prelude.{◌≤◌};
    ghost use Rattle.std.specs.FinMap as map;
    ghost use Rattle.std.specs.Coded.{coded_ℕ};
    ghost use Rattle.block_table.specs.Holds.{ArePositive, Holds};

    ghost Value = { Holds };

    ghost coded = { map.code coded_ℕ coded_ℕ };

    ghost view = { λ h. map.from_entries h.counts.items };

    ghost invariant = { λ h. (1 ≤ h.counts.capacity) × ArePositive h.counts.items };
}

impl Holders {
    /// Nobody.
    pub fn new(alloc: Global) -> Holders
        ensures { result ≡ empty }
    {
        Holders {
            counts: SmallVec::new(alloc),
        }
    }

    /// How often the thread holds the block. O(threads that hold it).
    pub fn times(&self, t: ThreadNo) -> u32
        ensures { result ≡ times self.now t }
    {
        match place_of(self.counts.as_slice(), t.get()) {
            Some(place) => self.counts.as_slice()[place].1,
            None => 0,
        }
    }

    /// Whether a thread holds the block. O(1).
    pub fn is_any(&self) -> bool
        ensures { result ≡ is_held_by self.now }
    {
        !self.counts.is_empty()
    }

    /// From now on the thread holds the block `n` times. O(threads that hold it).
    pub fn set(&mut self, t: ThreadNo, n: u32) -> Result<(), NoMemory>
        ensures ok { OnOk result (self.new ≡ with_times self.old t n) }
        ensures err { OnErr result (self.new ≡ self.old) }
        ensures sure { (n ≡ 0) ⊎ ((0 < times self.old t) ⊎ (self.old ≡ empty)) → IsOk result }
    {
        let thread = t.get();
        if n == 0 {
            drop_thread(&mut self.counts, thread);
            return Ok(());
        }
        match place_of(self.counts.as_slice(), thread) {
            Some(place) => {
                self.counts.as_mut_slice()[place] = (thread, n);
                Ok(())
            }
            None => match self.counts.push((thread, n)) {
                Ok(()) => Ok(()),
                Err(_) => Err(NoMemory),
            },
        }
    }
}

/// The place of the thread's count.
fn place_of(counts: &[(u32, u32)], thread: u32) -> Option<usize>
    ensures { result ≡ position (λ hold. hold.0 == thread) counts.now }
{
    counts.iter().position(|hold| hold.0 == thread)
}

/// The thread has no count.
fn drop_thread(counts: &mut SmallVec<(u32, u32), 1>, thread: u32)
    ensures items { counts.new.items ≡ filter (λ hold. not (hold.0 == thread)) counts.old.items }
    ensures capacity { counts.new.capacity ≡ counts.old.capacity }
{
    counts.retain(|hold| hold.0 != thread);
}
