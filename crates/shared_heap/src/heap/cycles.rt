//! The calls of a cycle.
ghost use Rattle.std.specs.Prelude.{◌≡◌, ◌<◌, ◌≤◌, ◌+◌, [], Some, is_some, IfOk, IfSome, OnErr, MatchOption, length, not, true, if◌then◌else◌, option_map};
ghost use Rattle.std.specs.FinMap.{retain_keys};
ghost use Rattle.gen_marker.specs.Progress.{Ends};
ghost use Rattle.heap_cycle.specs.Collector.{Collecting, shade_in};
ghost use Rattle.heap_cycle.specs.Waiting.{unfinalised_by};
ghost use Rattle.zone_model.specs.declared.call.Call.TheVariants as call;
ghost use Rattle.zone_model.specs.declared.entry.Reply.TheVariants as reply;
ghost use Rattle.zone_model.specs.Phases.{left_in};
ghost use Rattle.zone_model.specs.State.{State, Cycle, is_word_of};
ghost use Rattle.shared_heap.specs.Cycles.{IsOpenOf, IsMarking, IsSettling, AfterBegin, AfterCondemn, AfterFinalise, AfterReclaim, Darkens, black_in, one_lent};
ghost use Rattle.shared_heap.specs.Holding.{Serves};
ghost use Rattle.shared_heap.specs.Shared.{finalisers_left, is_busy, with_gc};
ghost use Rattle.shared_heap.specs.Stands.{Stands};
ghost use Rattle.shared_heap.specs.Steps.{Stepped};

use crate::heap::Heap;
use az_base::{BlockId, Mode, NoMemory, Steps, ThreadNo};
use finalise_pass::Settled;
use gen_marker::Progress;
use heap_cycle::{OpenCycle, Phase};
use std::alloc::Global;
use std::sync::ledger::Ledger;
use weak_table::Weak;
use zone_model::{IdList, Reply};

impl Heap {
    /// Opens a cycle of the thread, of which no cycle is open, and begins to mark; Busy where another thread's cycle is
    /// open. It takes the room for all that the cycle does: the mark stack, the condemned list, and the lists of the
    /// replies and of their entries. O(blocks).
    pub fn begin(&mut self, alloc: Global, t: ThreadNo, mode: Mode) -> Result<Reply, NoMemory>
        requires own { (g : Collecting) → IsOpenOf self.old t g → ⊥ }
        ensures reply { IfOk result (λ r. r ≡ (if is_busy self.old t then reply.Busy else reply.Begun)) }
        ensures busy { is_busy self.old t ≡ true → IfOk result (λ r. r ≡ reply.Busy) × (OnErr result ⊥) }
        ensures value { self.new ≡ with_gc self.old self.new.gc }
        ensures cycle { IfOk result (λ r. AfterBegin self.old t mode r self.new.gc) }
        ensures step { IfOk result (λ r. (z : State) → Serves self.old z t → Stepped self.new z t (call.Begin mode) r) }
        ensures err { OnErr result (self.new ≡ self.old) }
    {
        if self.open_cycle.is_some() {
            return Ok(Reply::Busy);
        }
        let cycle = OpenCycle::begin(alloc, &mut self.tables, t, mode, self.unfinalised)?;
        self.tables.are_tables();
        put(&mut self.open_cycle, cycle);
        Ok(Reply::Begun)
    }

    /// Scans grey blocks of the thread's cycle, at most `budget`, one tick each. More exactly where so many were scanned
    /// and a grey one is left. O(budget, and edges of the scanned blocks).
    pub fn mark_slice<L: Ledger>(
        &mut self,
        t: ThreadNo,
        budget: u32,
        steps: &mut Steps<L>,
    ) -> Progress
        requires marking { IsMarking self.old t }
        requires budget { 1 ≤ budget }
        ensures value { self.new ≡ with_gc self.old self.new.gc }
        ensures cycle { Darkens self.old.gc self.new.gc }
        ensures ticks { steps.new + black_in self.old ≡ steps.old + black_in self.new }
        ensures within { steps.new ≤ steps.old + budget }
        ensures ends { IfSome self.new.gc.cycle (λ g. Ends result g.start (shade_in g) (steps.new ≡ steps.old + budget)) }
        ensures stands { (z : State) → Serves self.old z t → Stands self.new z }
    {
        self.tables.are_tables();
        match &mut self.open_cycle {
            Some(cycle) => cycle.slice(&mut self.tables, budget, steps),
            None => unreachable!(),
        }
    }

    /// Marks to the end, and condemns what is white then. It takes no memory, and the room that was ready for a weak location
    /// is gone. O(blocks and edges, and c log c for c condemned blocks).
    pub fn condemn(&mut self, t: ThreadNo) -> Reply
        requires marking { IsMarking self.old t }
        ensures after { AfterCondemn self.old result self.new }
        ensures step { (z : State) → Serves self.old z t → Stepped self.new z t call.Condemn result }
    {
        self.tables.are_tables();
        let Some(cycle) = self.open_cycle.take() else {
            unreachable!()
        };
        let (cycle, reply) = cycle.condemn(&mut self.tables);
        self.weak.condemn(reply.as_slice());
        put(&mut self.open_cycle, cycle);
        Reply::Condemned(reply)
    }

    /// Runs the finaliser of the least condemned block that waits for it. It takes no memory. O(the condemned blocks
    /// between this one and the last).
    pub fn finalise_next(&mut self, t: ThreadNo) -> Reply
        requires settling { IsSettling self.old t }
        requires waiting { 0 < finalisers_left self.old }
        ensures after { AfterFinalise self.old result self.new }
        ensures one { finalisers_left self.new + 1 ≡ finalisers_left self.old }
        ensures step { (z : State) → Serves self.old z t → Stepped self.new z t call.Finalise result }
    {
        // There are 256 roots.
        let _roots = self.tables.roots.as_slice();
        let Some(cycle) = &mut self.open_cycle else {
            unreachable!()
        };
        let id = cycle.finalise_next(&mut self.tables);
        self.unfinalised -= 1;
        Reply::Finalised(id)
    }

    /// Reclaims the condemned blocks to which nothing leads, and closes the cycle. It takes no memory, and the room of
    /// `reserve_admit` is given up. O(blocks, and edges of the condemned and of the remembered ones).
    pub fn reclaim(&mut self, t: ThreadNo) -> Reply
        requires settling { IsSettling self.old t }
        requires finalised { finalisers_left self.old ≡ 0 }
        ensures after { AfterReclaim self.old result self.new }
        ensures step { (z : State) → Serves self.old z t → Stepped self.new z t call.Reclaim result }
    {
        self.tables.are_tables();
        let Some(cycle) = self.open_cycle.take() else {
            unreachable!()
        };
        let Settled { kept, reclaimed } = cycle.reclaim(&mut self.tables);
        forget_words(&mut self.weak, reclaimed.as_slice());
        Reply::Settled { reclaimed, kept }
    }

    /// How many condemned blocks wait for their finaliser. O(1).
    pub fn to_finalise(&self) -> u32
        ensures value { result ≡ finalisers_left self.now }
        ensures stands { (z : State) → Stands self.now z → result ≡ left_in z }
    {
        self.tables.are_tables();
        match &self.open_cycle {
            Some(cycle) => match &cycle.phase {
                Phase::Marking { .. } => 0,
                Phase::Settling { .. } => cycle.left,
            },
            None => 0,
        }
    }

    /// How many blocks have actions and aren't finalised. O(1).
    pub fn unfinalised(&self) -> u32
        ensures value { result ≡ unfinalised_by self.now.blocks }
    {
        self.unfinalised
    }

    /// The open cycle's owner, and whether it is condemned; None exactly where there is none. O(1).
    pub fn cycle(&self) -> Option<(ThreadNo, bool)>
        ensures value { result ≡ option_map (λ (g : Collecting). (g.owner, is_some g.condemned)) self.now.gc.cycle }
        ensures stands { (z : State) → Stands self.now z → result ≡ option_map (λ (c : Cycle). (c.owner, is_some c.condemned)) z.cycle }
    {
        match &self.open_cycle {
            Some(cycle) => Some((cycle.owner, cycle.is_condemned())),
            None => None,
        }
    }

    /// An empty list with room for the blocks of the open cycle's start. It takes no memory. O(1).
    pub fn lend_room(&mut self) -> IdList
        requires rooms { MatchOption self.old.gc.cycle ⊥ (λ g. 0 < g.rooms) }
        ensures empty { result.list ≡ [] }
        ensures room { IfSome self.old.gc.cycle (λ g. length g.start ≤ result.spare) }
        ensures value { self.new ≡ with_gc self.old (one_lent self.old.gc) }
    {
        let Some(cycle) = &mut self.open_cycle else {
            unreachable!()
        };
        cycle.lend_room()
    }
}

/// The cycle is open from now on, in place of none.
fn put(slot: &mut Option<OpenCycle>, cycle: OpenCycle)
    ensures { slot.new ≡ Some cycle }
{
    let _before = slot.replace(cycle);
}

/// No word of the blocks shows anything. It takes no memory. O(the blocks, and their words that showed something).
fn forget_words(weak: &mut Weak, gone: &[BlockId])
    ensures { weak.new.shown ≡ retain_keys weak.old.shown (λ l. not (is_word_of gone.now l)) }
{
    for id in gone {
        weak.forget_in(*id);
    }
}
