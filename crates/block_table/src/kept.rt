//! What is kept of one block beside what lies in the space.
ghost use Rattle.std.specs.Prelude.{◌≡◌, ◌<◌, ◌≤◌, ◌⊎◌, slice_get, length, true, false, IsOk, OnOk, OnErr};
ghost use Rattle.std.specs.FinMap.{empty};
ghost use Rattle.block_table.specs.Holds.{times, with_times, is_held_by};

use crate::holders::Holders;
use az_base::{Action, NoMemory, ThreadNo};
use std::alloc::Global;
use std::marker::Model;

/// The actions of a block, who holds it, and whether its finaliser has run.
#[derive(Drop)]
pub struct Kept {
    actions: Vec<Action>,
    holders: Holders,
    finalised: bool,
}

impl Model for Kept {
    ghost use Rattle.std.specs.Prelude.{◌≤◌, length};
    ghost use Rattle.block_table.specs.Lying.{Kept'};
    ghost use Rattle.block_table.specs.Codes.{coded_part};

    ghost Value = { Kept' };

    ghost coded = { coded_part };

    ghost view = { λ k. record { actions = k.actions.items; holds = k.holders; finalised = k.finalised } };

    ghost invariant = { λ k. length k.actions.items ≤ 8 };
}

impl Kept {
    /// Of a block that has just escaped: it isn't finalised, and nobody holds it. It takes no memory.
    pub fn new(alloc: Global, actions: Vec<Action>) -> Kept
        requires { length actions.items ≤ 8 }
        ensures { result ≡ record { actions = actions.items; holds = empty; finalised = false } }
    {
        Kept {
            actions,
            holders: Holders::new(alloc),
            finalised: false,
        }
    }

    /// An action; None exactly past the end. There are at most eight.
    pub fn action(&self, n: u32) -> Option<Action>
        ensures action { result ≡ slice_get self.now.actions n }
        ensures few { length self.now.actions ≤ 8 }
    {
        self.actions.get(n as usize).copied()
    }

    /// How often the thread holds the block.
    pub fn times(&self, t: ThreadNo) -> u32
        ensures { result ≡ times self.now.holds t }
    {
        self.holders.times(t)
    }

    /// From now on the thread holds the block `n` times.
    pub fn set_times(&mut self, t: ThreadNo, n: u32) -> Result<(), NoMemory>
        ensures ok { OnOk result (self.new ≡ record self.old { holds = with_times self.old.holds t n }) }
        ensures err { OnErr result (self.new ≡ self.old) }
        ensures sure { (n ≡ 0) ⊎ ((0 < times self.old.holds t) ⊎ (self.old.holds ≡ empty)) → IsOk result }
    {
        self.holders.set(t, n)
    }

    /// Whether a thread holds the block.
    pub fn is_held(&self) -> bool
        ensures { result ≡ is_held_by self.now.holds }
    {
        self.holders.is_any()
    }

    pub fn is_finalised(&self) -> bool
        ensures { result ≡ self.now.finalised }
    {
        self.finalised
    }

    /// Its finaliser has run.
    pub fn set_finalised(&mut self)
        ensures { self.new ≡ record self.old { finalised = true } }
    {
        self.finalised = true;
    }
}
