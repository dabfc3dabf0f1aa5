//! The core in the gate's slot.
ghost use Rattle.std.specs.Prelude.{◌≡◌, ◌≤◌, ◌-◌, ◌<◌, [], true, false, IfOk, OnOk, OnErr};
ghost use Rattle.az_base.specs.OptionRanges.{IsValid};
ghost use Rattle.zone_model.specs.declared.call.Call.TheVariants as call;
ghost use Rattle.zone_model.specs.History.{Ends, Legal};
ghost use Rattle.zone_model.specs.Part.{is_local};
ghost use Rattle.zone_model.specs.Phases.{Free, May, Marking, is_closing, left_in};
ghost use Rattle.zone_model.specs.State.{State};
ghost use Rattle.zone_model.specs.Stats.{stats_of};
ghost use Rattle.gen_marker.specs.declared.scanning.Progress.TheVariants as progress;
ghost use Rattle.shared_heap.specs.Cycles.{black_in};
ghost use Rattle.local_set.specs.LocalSets.{part_in};
ghost use Rattle.escape_plan.specs.Together.{Belongs};
ghost use Rattle.zone_escape.specs.Cores.{BelongsTo, IsCore, IsCoreOf};
ghost use Rattle.zone_escape.specs.Publications.{Flushed, Stepped, Refused, Untouched};
ghost use Rattle.auto_zone.specs.Shown.{StateOf, grey_in};
ghost use Rattle.auto_zone.specs.Stages.{begun_reply, is_begun};

use az_base::{Mode, NoMemory, Options, Steps};
use gen_marker::Progress;
use local_set::Local;
use std::alloc::Global;
use std::marker::{Brand, Model};
use std::sync::ledger::{Blank, Ledger};
use zone_escape::{Core, flush, slice, step};
use zone_gate::Kept;
use zone_history::Journal;
use zone_model::{Call, Entry, Reply, Stats};

/// The core, as the gate keeps it.
#[derive(Drop)]
pub(crate) struct Gated {
    core: Core,
}

impl Model for Gated {
    ghost use Rattle.std.specs.Coded.{codes};
    ghost use Rattle.shared_heap.specs.Codes.{coded_shared};
    ghost use Rattle.zone_escape.specs.Cores.{CoreShown};

    ghost Value = { CoreShown };

    ghost coded = { Prim.hlevel (codes, coded_shared) };

    ghost view = { λ g. g.core };
}

impl Kept for Gated {
    ghost list = { λ k. k.journal.entries };

    ghost chosen = { λ k. k.heap.options };

    ghost grey = { λ k. grey_in k.heap };

    ghost black = { λ k. black_in k.heap };

    fn entries(&self) -> &[Entry] {
        self.core.entries()
    }

    fn options(&self) -> Options {
        self.core.options()
    }
}

/// A slice, in which nobody counts the steps.
fn slice_uncounted<L: Ledger>(local: &Local, core: &mut Core, budget: u32, blank: Blank) -> Progress
    requires name { blank.name ≡ L.name }
    requires parts { blank.parts ≡ L.parts }
    requires some { 0 < L.parts }
    requires belongs { BelongsTo local.now core.old }
    requires running { local.now.ended ≡ false }
    requires marking { (z : State) → IsCoreOf core.old z → Marking z local.now.thread }
    requires budget { 0 < budget }
    ensures journal { core.new.journal ≡ core.old.journal }
    ensures options { core.new.heap.options ≡ core.old.heap.options }
    ensures scanned { black_in core.new.heap - black_in core.old.heap ≤ budget }
    ensures grey { result ≡ progress.Done → grey_in core.new.heap ≡ 0 }
    ensures stays { (z : State) → IsCoreOf core.old z → IsCoreOf core.new z }
    ensures legal { Legal core.new.heap.options core.new.journal.entries }
{
    let mut steps = Steps::<L>::new(blank);
    slice(local, core, budget, &mut steps)
}

/// Whether a cycle was begun.
fn is_begun(reply: &Reply) -> bool
    ensures { result ≡ is_begun reply.now }
{
    matches!(reply, Reply::Begun)
}

impl Gated {
    /// The core of a zone in which nothing has happened.
    pub(crate) fn new(alloc: Global, options: Options) -> Result<Gated, NoMemory>
        requires { IsValid options }
        ensures entries { IfOk result (λ k. k.journal.entries ≡ []) }
        ensures options { IfOk result (λ k. k.heap.options ≡ options) }
    {
        let core = Core::new(alloc, options)?;
        Ok(Gated { core })
    }

    /// Publishes what waits.
    pub(crate) fn flush(&mut self, local: &mut Local) -> Result<(), NoMemory>
        requires { BelongsTo local.old self.old }
        ensures ok { OnOk result (Flushed local.old local.new self.old self.new) }
        ensures err { OnErr result (Untouched local.old local.new self.old self.new) }
        ensures legal { Legal self.new.heap.options self.new.journal.entries }
        ensures state { IsCore self.new }
    {
        flush(local, &mut self.core)
    }

    /// Publishes what waits, and then makes the call.
    pub(crate) fn step(
        &mut self,
        alloc: Global,
        local: &mut Local,
        call: &Call,
    ) -> Result<Reply, NoMemory>
        requires belongs { BelongsTo local.old self.old }
        requires running { local.old.ended ≡ false }
        requires shared { is_local (part_in local.old) call.now ≡ false }
        requires may { (z : State) → IsCoreOf self.old z → May z local.old.thread call.now }
        ensures ok { IfOk result (λ reply. Stepped local.old local.new self.old self.new call.now reply) }
        ensures err { OnErr result (Refused local.old local.new self.old self.new) }
        ensures legal { Legal self.new.heap.options self.new.journal.entries }
        ensures state { IsCore self.new }
    {
        step(alloc, local, &mut self.core, call)
    }

    /// Begin, and whether a cycle was begun: none is where another thread's is open.
    pub(crate) fn begin(
        &mut self,
        alloc: Global,
        local: &mut Local,
        mode: Mode,
    ) -> Result<bool, NoMemory>
        requires running { local.old.ended ≡ false }
        requires near { (z : State) → StateOf self.old z → Belongs local.old z × Free z local.old.thread }
        ensures ok { IfOk result (λ b. Stepped local.old local.new self.old self.new (call.Begin mode) (begun_reply b)) }
        ensures white { IfOk result (λ b. b ≡ true → black_in self.new.heap ≡ 0) }
        ensures err { OnErr result (Refused local.old local.new self.old self.new) }
        ensures legal { Legal self.new.heap.options self.new.journal.entries }
        ensures state { IsCore self.new }
    {
        let reply = step(alloc, local, &mut self.core, &Call::Begin { mode })?;
        Ok(is_begun(&reply))
    }

    /// A Condemn, a Finalise or a Reclaim of a cycle that was begun, and how many blocks then wait for their finaliser.
    pub(crate) fn close(&mut self, alloc: Global, local: &mut Local, call: &Call) -> (Reply, u32)
        requires belongs { BelongsTo local.old self.old }
        requires running { local.old.ended ≡ false }
        requires kind { is_closing call.now ≡ true }
        requires out { local.old.waiting ≡ [] }
        requires may { (z : State) → IsCoreOf self.old z → May z local.old.thread call.now }
        ensures stepped { Stepped local.old local.new self.old self.new call.now result.0 }
        ensures left { (z : State) → StateOf self.new z → result.1 ≡ left_in z }
        ensures legal { Legal self.new.heap.options self.new.journal.entries }
        ensures state { IsCore self.new }
    {
        let Ok(reply) = step(alloc, local, &mut self.core, call) else {
            unreachable!()
        };
        let left = self.core.to_finalise();
        (reply, left)
    }

    /// A slice of the thread's own marking, and whether that is done.
    pub(crate) fn slice(&mut self, local: &Local, budget: u32) -> bool
        requires belongs { BelongsTo local.now self.old }
        requires running { local.now.ended ≡ false }
        requires marking { (z : State) → IsCoreOf self.old z → Marking z local.now.thread }
        requires budget { 0 < budget }
        ensures journal { self.new.journal ≡ self.old.journal }
        ensures options { self.new.heap.options ≡ self.old.heap.options }
        ensures scanned { black_in self.new.heap - black_in self.old.heap ≤ budget }
        ensures grey { result ≡ true → grey_in self.new.heap ≡ 0 }
        ensures legal { Legal self.new.heap.options self.new.journal.entries }
    {
        let progress = slice_uncounted::<Brand>(local, &mut self.core, budget, Blank::new(1));
        progress == Progress::Done
    }

    /// The journal, and the statistics of its end.
    pub(crate) fn ended(self) -> (Journal, Stats)
        ensures journal { result.0 ≡ self.journal }
        ensures stats { (z : State) → StateOf self z → result.1 ≡ stats_of z }
        ensures legal { Legal self.heap.options self.journal.entries }
    {
        let Gated { core } = self;
        let stats = core.stats();
        (core.into_journal(), stats)
    }
}
