//! The heap: its tables, the weak locations, the options, and the open cycle.
ghost use Rattle.std.specs.Prelude.{◌≡◌, ◌≤◌, ℕ, IfOk};
ghost use Rattle.std.specs.FinMap.{contains_key};
ghost use Rattle.az_base.specs.declared.block_id.BlockId.{BlockId};
ghost use Rattle.zone_model.specs.declared.call.Call.TheVariants as call;
ghost use Rattle.zone_model.specs.declared.entry.Reply.TheVariants as reply;
ghost use Rattle.zone_model.specs.State.{State, opening, is_escaped};
ghost use Rattle.zone_model.specs.Quanta.{used_quanta};
ghost use Rattle.block_table.specs.Table.{used_by};
ghost use Rattle.shared_heap.specs.Shared.{stats_in, new_heap};
ghost use Rattle.shared_heap.specs.Stands.{Stands};
ghost use Rattle.shared_heap.specs.Steps.{Runs, Stepped};

mod admission;
mod assocs;
mod births;
mod counts;
mod cycles;
mod ready;
mod roots;
mod telling;
mod weak;
mod words;

use az_base::{BlockId, NoMemory, Options};
use heap_cycle::OpenCycle;
use heap_tables::Tables;
use std::alloc::Global;
use std::marker::Model;
use weak_table::Weak;
use zone_model::Stats;

/// The escaped blocks, the roots and the tables of a zone. A block that a call is given is one of the heap's, unless the call says
/// otherwise.
#[derive(Drop)]
pub struct Heap {
    options: Options,
    tables: Tables,
    weak: Weak,
    /// How many of the blocks have actions and aren't finalised.
    unfinalised: u32,
    /// The open cycle, if there is one.
    open_cycle: Option<OpenCycle>,
}

impl Model for Heap {
    ghost use Rattle.shared_heap.specs.Shared.{Shared};
    ghost use Rattle.shared_heap.specs.Codes.{coded_shared};
    ghost use Rattle.heap_cycle.specs.Collects.{collector_of};

    ghost Value = { Shared };

    ghost coded = { coded_shared };

    ghost use Rattle.shared_heap.specs.Inside.{IsHeap};

    ghost view = { λ h. record { options = h.options; blocks = h.tables.blocks.blocks; holds = h.tables.blocks.holds; roots = h.tables.roots; counts = h.tables.counts.counts; assocs = h.tables.assocs.pairs; weak = h.weak.shown; ready = record { counts = h.tables.counts.spare; object = h.tables.assocs.ready; value = h.weak.ready }; room = h.tables.blocks.room; gc = collector_of h.tables h.open_cycle } };

    ghost invariant = { IsHeap };
}

impl Heap {
    /// A heap with no block, with null roots, and with empty tables.
    pub fn new(alloc: Global, options: Options) -> Result<Heap, NoMemory>
        ensures value { IfOk result (λ h. h ≡ new_heap options) }
        ensures stands { IfOk result (λ h. Stands h (opening options)) }
    {
        let tables = Tables::new(alloc)?;
        Ok(Heap {
            options,
            tables,
            weak: Weak::new(alloc),
            unfinalised: 0,
            open_cycle: None,
        })
    }

    /// The options that it was made with. O(1).
    pub fn options(&self) -> Options
        ensures value { result ≡ self.now.options }
        ensures stands { (z : State) → Stands self.now z → result ≡ z.options }
    {
        self.options
    }

    /// The small quanta of the blocks, at most the option heap. O(1).
    pub fn used(&self) -> u32
        ensures value { result ≡ used_by self.now.blocks }
        ensures stands { (z : State) → Stands self.now z → result ≡ used_quanta z }
        ensures fits { result ≤ self.now.options.heap_quanta }
    {
        // It is no more than that, and so fits in 32 bits.
        let _most = self.options.heap_quanta;
        self.tables.blocks.used() as u32
    }

    /// Whether it is a block of the heap. O(1) expected.
    pub fn has(&self, id: BlockId) -> bool
        ensures value { result ≡ contains_key self.now.blocks id }
        ensures stands { (z : State) → Stands self.now z → result ≡ is_escaped z id }
    {
        self.tables.blocks.has(id)
    }

    /// The statistics. O(1).
    pub fn stats(&self) -> Stats
        ensures value { result ≡ stats_in self.now }
        ensures step { (z : State) (t : ℕ) → Runs self.now z t → Stepped self.now z t call.Stats (reply.Stats result) }
    {
        Stats {
            blocks: u64::from(self.tables.blocks.len()),
            quanta: self.tables.blocks.used(),
            retained: self.tables.counts.len() as u64,
            weak: self.weak.registered() as u64,
            assocs: self.tables.assocs.len() as u64,
        }
    }
}
