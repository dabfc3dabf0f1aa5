//! The heap and the journal.
ghost use Rattle.std.specs.Prelude.{◌≡◌, [], IfOk, map, option_map};
ghost use Rattle.az_base.specs.OptionRanges.{IsValid};
ghost use Rattle.zone_model.specs.Bare.{bare_entry};
ghost use Rattle.zone_model.specs.History.{Legal};
ghost use Rattle.zone_model.specs.Phases.{left_in};
ghost use Rattle.zone_model.specs.State.{State, Cycle, opening};
ghost use Rattle.zone_model.specs.Stats.{stats_of};
ghost use Rattle.zone_escape.specs.Cores.{IsCore, IsCoreOf};

use az_base::{NoMemory, Options, ThreadNo};
use shared_heap::Heap;
use std::alloc::Global;
use std::marker::Model;
use zone_history::Journal;
use zone_model::{Entry, Stats};

/// The heap of the escaped blocks, and the journal of all that was published: its entries are a legal history, at whose end
/// the heap has what is shared.
#[derive(Drop)]
pub struct Core {
    pub(crate) heap: Heap,
    pub(crate) journal: Journal,
}

impl Model for Core {
    ghost use Rattle.std.specs.Coded.{codes};
    ghost use Rattle.shared_heap.specs.Codes.{coded_shared};
    ghost use Rattle.zone_escape.specs.Cores.{CoreShown, IsCore};

    ghost Value = { CoreShown };

    ghost coded = { Prim.hlevel (codes, coded_shared) };

    ghost view = { λ k. record { heap = k.heap; journal = k.journal } };

    ghost invariant = { λ k. IsCore (record { heap = k.heap; journal = k.journal }) };
}

impl Core {
    /// The core of a zone in which nothing has happened. O(1).
    pub fn new(alloc: Global, options: Options) -> Result<Core, NoMemory>
        requires { IsValid options }
        ensures entries { IfOk result (λ k. k.journal.entries ≡ []) }
        ensures owed { IfOk result (λ k. k.journal.owed ≡ 0) }
        ensures options { IfOk result (λ k. k.heap.options ≡ options) }
        ensures opened { IfOk result (λ k. IsCoreOf k (opening options)) }
    {
        let heap = Heap::new(alloc, options)?;
        Ok(Core {
            heap,
            journal: Journal::new(alloc),
        })
    }

    /// The options of the zone. O(1).
    pub fn options(&self) -> Options
        ensures options { result ≡ self.now.heap.options }
        ensures state { IsCore self.now }
    {
        self.heap.options()
    }

    /// What was published, in its order. O(1).
    pub fn entries(&self) -> &[Entry]
        ensures entries { map bare_entry result.now ≡ self.now.journal.entries }
        ensures legal { Legal self.now.heap.options self.now.journal.entries }
        ensures state { IsCore self.now }
    {
        self.journal.entries()
    }

    /// The statistics of the zone as published. O(1).
    pub fn stats(&self) -> Stats
        ensures stats { (z : State) → IsCoreOf self.now z → result ≡ stats_of z }
        ensures state { IsCore self.now }
    {
        self.heap.stats()
    }

    /// The thread whose cycle is open; None exactly where none is. O(1).
    pub fn open_cycle(&self) -> Option<ThreadNo>
        ensures owner { (z : State) → IsCoreOf self.now z → result ≡ option_map (λ (c : Cycle). c.owner) z.cycle }
        ensures state { IsCore self.now }
    {
        self.heap.cycle().map(|cycle| cycle.0)
    }

    /// How many condemned blocks wait for their finaliser; 0 where nothing is condemned. O(1).
    pub fn to_finalise(&self) -> u32
        ensures left { (z : State) → IsCoreOf self.now z → result ≡ left_in z }
        ensures state { IsCore self.now }
    {
        self.heap.to_finalise()
    }

    /// The journal; the heap is let go. O(blocks).
    pub fn into_journal(self) -> Journal
        ensures journal { result ≡ self.journal }
        ensures legal { Legal self.heap.options self.journal.entries }
    {
        self.journal
    }
}
