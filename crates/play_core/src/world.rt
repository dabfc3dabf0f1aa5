//! The world.
ghost use Rattle.std.specs.Prelude.{◌≡◌, ◌<◌, ◌==◌, ◌∷◌, ◌++◌, ◌↔◌, ◌+◌, ◌≤◌, [], ℕ, List, Some, None, MatchOption, true, false, map, option_map, position, slice_get, length, IfOk, IfSome, OnOk, OnErr, IsTrue};
ghost use Rattle.az_base.specs.OptionRanges.{IsValid};
ghost use Rattle.std.specs.List.{list_any};
ghost use Rattle.std.specs.Result.{IsOk};
ghost use Rattle.zone_model.specs.Bare.{bare_entry};
ghost use Rattle.zone_model.specs.History.{Ends, Legal};
ghost use Rattle.gen_marker.specs.Progress.{Ends as SliceEnds};
ghost use Rattle.az_base.specs.declared.action.Mode.{Mode};
ghost use Rattle.zone_model.specs.declared.call.Call.TheVariants as calls;
ghost use Rattle.zone_model.specs.declared.entry.Reply.TheVariants as replies;
ghost use Rattle.zone_model.specs.Phases.{Marking, May, is_closing, left_in};
ghost use Rattle.zone_model.specs.State.{State, Cycle};
ghost use Rattle.zone_model.specs.Stats.{stats_of};
ghost use Rattle.heap_cycle.specs.Collector.{shade_in};
ghost use Rattle.local_set.specs.LocalSets.{LocalSet};
ghost use Rattle.zone_escape.specs.Publications.{LeavesCycle};
ghost use Rattle.play_order.specs.Playing.{IsTold};
ghost use Rattle.play_core.specs.Worlds.{AtEnd, IsQuiet, CyclesStay, Ascending, EachOnce, threads_in, local_of, waits_of, all_waiting, scanned, seen, is_running, Steps, Stops};
ghost use Rattle.play_core.specs.Opening.{AreNew, opening_seen};
ghost use Rattle.play_core.specs.Playing.{Turns, ends_among, ends_of, EndStops};

use crate::turns::turn;
use az_base::{NoMemory, Options, Steps as Ticks, ThreadNo};
use gen_marker::Progress;
use local_set::Local;
use std::alloc::Global;
use std::marker::Model;
use std::sync::ledger::Ledger;
use zone_escape::Core;
use zone_history::Journal;
use zone_model::{Call, Entry, Reply, Stats};

/// The heap and the journal, and what each thread has for itself.
#[derive(Drop)]
pub struct World {
    core: Core,
    // in ascending order of the threads
    locals: Vec<Local>,
}

impl Model for World {
    ghost use Rattle.std.specs.Coded.{codes};
    ghost use Rattle.heap_cycle.specs.Codes.{coded_collecting};
    ghost use Rattle.play_core.specs.Worlds.{WorldShown};

    ghost Value = { WorldShown };

    ghost coded = { Prim.hlevel (codes, coded_collecting) };

    ghost view = { λ w. record { options = w.core.heap.options; journal = w.core.journal.entries; locals = w.locals.items; cycle = w.core.heap.gc.cycle } };

    ghost use Rattle.play_core.specs.Inside.{IsWorld};

    ghost invariant = { IsWorld };
}

/// A set for each of the threads, with nothing in it.
fn sets(alloc: Global, threads: &[ThreadNo], options: Options) -> Result<Vec<Local>, NoMemory>
    requires { IsValid options }
    ensures { IfOk result (λ locals. AreNew options threads.now locals.items) }
{
    let mut locals = Vec::with_capacity(alloc, threads.len())?;
    for thread in threads {
        locals.push_reserved(Local::new(alloc, *thread, options));
    }
    Ok(locals)
}

/// The place of the thread's set.
fn place_of(locals: &[Local], thread: ThreadNo) -> Option<usize>
    ensures { result ≡ position (λ l. l.thread == thread) locals.now }
{
    locals.iter().position(|local| local.thread() == thread)
}

impl World {
    /// A world in which nothing has happened. The threads are ascending, and there may be none. O(threads).
    pub fn new(alloc: Global, threads: &[ThreadNo], options: Options) -> Result<World, NoMemory>
        requires options { IsValid options }
        requires ascending { Ascending threads.now }
        ensures threads { IfOk result (λ w. threads_in w.locals ≡ threads.now) }
        ensures running { IfOk result (λ w. (t : ℕ) → is_running w t ≡ list_any (λ u. u == t) threads.now) }
        ensures seen { IfOk result (λ w. seen w ≡ opening_seen options) }
    {
        let locals = sets(alloc, threads, options)?;
        let core = Core::new(alloc, options)?;
        Ok(World { core, locals })
    }

    /// The thread's own set.
    fn local(&self, thread: ThreadNo) -> Option<&Local>
        ensures { MatchOption result (local_of self.now thread ≡ None) (λ l. local_of self.now thread ≡ Some l.now) }
    {
        let at = place_of(&self.locals, thread)?;
        Some(&self.locals[at])
    }

    /// Whether the thread is there and hasn't left. O(threads).
    pub fn is_running(&self, thread: ThreadNo) -> bool
        ensures { result ≡ is_running self.now thread }
    {
        match self.local(thread) {
            Some(local) => !local.has_ended(),
            None => false,
        }
    }

    /// Whether the thread may make the call: it is there, hasn't left, and its own cycle stands so. O(threads).
    pub fn may(&self, thread: ThreadNo, call: &Call) -> bool
        ensures { AtEnd self.now (λ z. IsTrue result ↔ (IsTrue (is_running self.now thread) × May z thread call.now)) }
    {
        // the core is that of a state
        let _options = self.core.options();
        match self.local(thread) {
            Some(local) => !local.has_ended() && zone_escape::may(local, &self.core, call),
            None => false,
        }
    }

    /// The thread makes the call, which it may make (`may`). NoMemory leaves all as it was, or what waited of the thread was
    /// published and nothing else has happened. Once a cycle has begun, its Condemn, each Finalise and its Reclaim are never
    /// refused where nothing waits. O(threads) beside the call, and what it publishes.
    #[inline(always)]
    pub fn step(&mut self, alloc: Global, thread: ThreadNo, call: &Call) -> Result<Reply, NoMemory>
        requires running { is_running self.old thread ≡ true }
        requires may { AtEnd self.old (λ z. May z thread call.now) }
        ensures told { IsTold (seen self.old) thread }
        ensures ok { IfOk result (λ reply. Steps self.old self.new thread call.now reply) }
        ensures err { OnErr result (Stops (seen self.old) (seen self.new) thread) }
        ensures sure { is_closing call.now ≡ true → waits_of self.old thread ≡ [] → IsOk result }
        // as a cycle begins no block is scanned
        ensures white { (mode : Mode) → call.now ≡ calls.Begin mode → IfOk result (λ reply. reply ≡ replies.Begun → scanned self.new ≡ 0) }
        // a call that is no step of a cycle leaves the open one, and so does one that is busy or refused
        ensures cycle { IfOk result (λ reply. LeavesCycle call.now reply → CyclesStay self.old self.new) }
        ensures refused { OnErr result (CyclesStay self.old self.new) }
        ensures legal { Legal self.new.options self.new.journal }
        ensures threads { threads_in self.new.locals ≡ threads_in self.old.locals }
    {
        // the core is that of a state
        let _options = self.core.options();
        let Some(at) = place_of(&self.locals, thread) else {
            unreachable!();
        };
        turn(alloc, &mut self.locals[at], &mut self.core, call)
    }

    /// Marks in the thread's own open cycle, which isn't condemned: grey blocks are scanned, at most `budget`, one tick each.
    /// More exactly where so many were scanned and a grey one is left. It takes no memory, and nothing but the shades of
    /// blocks changes, which no state has. O(threads, budget, and edges of the scanned blocks).
    pub fn slice<L: Ledger>(
        &mut self,
        thread: ThreadNo,
        budget: u32,
        ticks: &mut Ticks<L>,
    ) -> Progress
        requires running { is_running self.old thread ≡ true }
        requires marking { AtEnd self.old (λ z. Marking z thread) }
        requires budget { 1 ≤ budget }
        ensures value { self.new ≡ record self.old { cycle = self.new.cycle } }
        ensures ticks { ticks.new + scanned self.old ≡ ticks.old + scanned self.new }
        ensures within { ticks.new ≤ ticks.old + budget }
        ensures ends { IfSome self.new.cycle (λ g. SliceEnds result g.start (shade_in g) (ticks.new ≡ ticks.old + budget)) }
    {
        // the core is that of a state
        let _options = self.core.options();
        let Some(at) = place_of(&self.locals, thread) else {
            unreachable!();
        };
        zone_escape::slice(&self.locals[at], &mut self.core, budget, ticks)
    }

    /// What was published, in its order. Followed by what waits of threads, each of them once and in any order, it is a
    /// legal history; and the part of each thread that is there is what its own entries make. O(1).
    pub fn journal(&self) -> &[Entry]
        ensures entries { map bare_entry result.now ≡ self.now.journal }
        ensures legal { (ts : List ℕ) → EachOnce ts → Legal self.now.options (self.now.journal ++ all_waiting self.now ts) }
        ensures told { (t : ℕ) (l : LocalSet) → local_of self.now t ≡ Some l → IsTold (seen self.now) t }
    {
        self.core.entries()
    }

    /// What waits of the thread, the oldest first; nothing where it isn't there. O(threads).
    pub fn waiting(&self, thread: ThreadNo) -> &[Entry]
        ensures { map bare_entry result.now ≡ waits_of self.now thread }
    {
        match self.local(thread) {
            Some(local) => local.pending(),
            None => &[],
        }
    }

    /// The statistics of the zone as published. O(1).
    pub fn stats(&self) -> Stats
        ensures stats { (z : State) → Ends self.now.options self.now.journal z → result ≡ stats_of z }
        ensures legal { Legal self.now.options self.now.journal }
    {
        self.core.stats()
    }

    /// The thread whose cycle is open; None exactly where none is. O(1).
    pub fn open_cycle(&self) -> Option<ThreadNo>
        ensures { AtEnd self.now (λ z. result ≡ option_map (λ (c : Cycle). c.owner) z.cycle) }
    {
        self.core.open_cycle()
    }

    /// How many condemned blocks wait for their finaliser; 0 where nothing is condemned. O(1).
    pub fn to_finalise(&self) -> u32
        ensures left { AtEnd self.now (λ z. result ≡ left_in z) }
        ensures legal { Legal self.now.options self.now.journal }
    {
        self.core.to_finalise()
    }

    /// How many threads have a set. O(1).
    fn count(&self) -> usize
        ensures { result ≡ length self.now.locals }
    {
        self.locals.len()
    }

    /// The thread of the set at this place. O(1).
    fn thread_at(&self, at: usize) -> ThreadNo
        requires { at < length self.now.locals }
        ensures thread { slice_get (threads_in self.now.locals) at ≡ Some result }
        ensures ascending { Ascending (threads_in self.now.locals) }
    {
        self.locals[at].thread()
    }

    /// The thread leaves, where it is there and hasn't left.
    fn leave(&mut self, alloc: Global, thread: ThreadNo) -> Result<(), NoMemory>
        requires quiet { IsQuiet self.old }
        ensures quiet { OnOk result (IsQuiet self.new) }
        ensures ok { OnOk result (Turns (seen self.old) (ends_among self.old (thread ∷ [])) (seen self.new)) }
        ensures err { OnErr result (Stops (seen self.old) (seen self.new) thread) }
        ensures others { OnOk result ((u : ℕ) → (thread == u) ≡ false → local_of self.new u ≡ local_of self.old u) }
        ensures threads { threads_in self.new.locals ≡ threads_in self.old.locals }
    {
        if self.is_running(thread) {
            self.step(alloc, thread, &Call::Leave)?;
        }
        Ok(())
    }

    /// Each thread that hasn't left leaves, in ascending number; the statistics of the end. A thread with an open cycle may
    /// not leave, so none is open. Where memory is wanting, those that left before stay left, and what waited of the next
    /// one may have been published. O(what it publishes, blocks).
    pub fn end(&mut self, alloc: Global) -> Result<Stats, NoMemory>
        requires quiet { IsQuiet self.old }
        ensures ok { OnOk result (Turns (seen self.old) (ends_of self.old) (seen self.new)) }
        ensures stats { IfOk result (λ stats. (z : State) → Ends self.new.options self.new.journal z → stats ≡ stats_of z) }
        ensures legal { OnOk result (Legal self.new.options self.new.journal) }
        ensures err { OnErr result (EndStops self.old self.new) }
    {
        for at in 0..self.count() {
            let thread = self.thread_at(at);
            self.leave(alloc, thread)?;
        }
        Ok(self.stats())
    }

    /// The journal; all else is let go. O(blocks).
    pub fn into_journal(self) -> Journal
        ensures entries { result.entries ≡ self.journal }
        ensures legal { Legal self.options self.journal }
    {
        self.core.into_journal()
    }
}
