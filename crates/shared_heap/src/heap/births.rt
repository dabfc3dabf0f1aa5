//! Blocks that are born escaped.
ghost use Rattle.std.specs.Prelude.{◌≡◌, ◌≤◌, ◌+◌, ℕ, [], None, true, IfOk, IfSome, OnOk, OnErr, ◌==◌, if◌then◌else◌, length};
ghost use Rattle.std.specs.FinMap.{get};
ghost use Rattle.std.specs.List.{list_any};
ghost use Rattle.az_base.specs.declared.block_id.BlockId.{BlockId};
ghost use Rattle.block_layouts.specs.Layouts.{len_of, quanta};
ghost use Rattle.zone_model.specs.declared.call.Call.TheVariants as call;
ghost use Rattle.zone_model.specs.declared.entry.Reply.TheVariants as reply;
ghost use Rattle.zone_model.specs.Quanta.{is_born_escaped};
ghost use Rattle.zone_model.specs.State.{State, is_nil};
ghost use Rattle.shared_heap.specs.Holding.{HoldsBorn};
ghost use Rattle.block_table.specs.Table.{used_by};
ghost use Rattle.shared_heap.specs.Shared.{held, with_birth};
ghost use Rattle.shared_heap.specs.Steps.{Runs, Stepped, next_id, after_birth, names};
ghost use Rattle.shared_heap.specs.Words.{passes_past, passes_other, is_full, birth_misuse, PlansBirth, reply_or};

use crate::heap::Heap;
use az_base::{Action, BlockId, Class, Misuse, NoMemory, ThreadNo};
use block_layouts::Layout;
use std::alloc::Global;
use zone_model::{ActionList, Reply};

/// Whether the action passes a word past the end.
fn passes_past(layout: &Layout, action: Action) -> bool
    ensures { result ≡ passes_past layout.now action }
{
    match action {
        Action::Keep(_) => false,
        Action::Pass(_, at) => layout.len() <= at,
    }
}

/// Whether the action passes a word that isn't Strong.
fn passes_other(layout: &Layout, action: Action) -> bool
    ensures { result ≡ passes_other layout.now action }
{
    match action {
        Action::Keep(_) => false,
        Action::Pass(_, at) => match layout.class_at(at) {
            Some(class) => class != Class::Strong,
            None => false,
        },
    }
}

/// Whether an action passes a word past the end.
fn any_past(layout: &Layout, actions: &[Action]) -> bool
    ensures { result ≡ list_any (passes_past layout.now) actions.now }
{
    actions.iter().any(|action| passes_past(layout, *action))
}

/// Whether an action passes a word that isn't Strong.
fn any_other(layout: &Layout, actions: &[Action]) -> bool
    ensures { result ≡ list_any (passes_other layout.now) actions.now }
{
    actions.iter().any(|action| passes_other(layout, *action))
}

impl Heap {
    /// A `new` of the thread whose block is born escaped, with its next id, or None where its serials are used up: the
    /// new block, which the thread then holds once, or NoWord, WrongClass, SerialsUsed or ZoneFull. O(1) expected, and
    /// O(words).
    pub fn new_shared(
        &mut self,
        alloc: Global,
        t: ThreadNo,
        id: Option<BlockId>,
        layout: &Layout,
        actions: &ActionList,
    ) -> Result<Reply, NoMemory>
        requires room { self.old.room ≡ [] }
        requires absent { IfSome id (λ b. get self.old.blocks b ≡ None) }
        ensures reply { IfOk result (λ r. r ≡ reply_or (birth_misuse self.old id layout.now actions.now) (reply.Block id)) }
        ensures value { IfOk result (λ r. self.new ≡ after_birth self.old t layout.now actions.now r) }
        ensures held { IfOk result (λ r. HoldsBorn self.old self.new t r) }
        ensures step { IfOk result (λ r. (z : State) (to : ℕ) → Runs self.old z t → is_born_escaped z t layout.now actions.now ≡ true → id ≡ next_id z t → Stepped self.new z t (call.New to layout.now actions.now) r) }
        ensures err { OnErr result (self.new ≡ self.old) }
    {
        match self.plan_birth(id, layout, actions.as_slice()) {
            Err(misuse) => Ok(Reply::Misuse(misuse)),
            Ok(id) => {
                self.add_born(alloc, t, id, layout, actions.as_slice())?;
                Ok(Reply::Block(Some(id)))
            }
        }
    }

    /// The id of the block that may be born, or what is wrong.
    fn plan_birth(
        &self,
        id: Option<BlockId>,
        layout: &Layout,
        actions: &[Action],
    ) -> Result<BlockId, Misuse>
        ensures { PlansBirth self.now id layout.now actions.now result }
    {
        if any_past(layout, actions) {
            return Err(Misuse::NoWord);
        }
        if any_other(layout, actions) {
            return Err(Misuse::WrongClass);
        }
        let Some(id) = id else {
            return Err(Misuse::SerialsUsed);
        };
        if self.is_full(layout.quanta()) {
            return Err(Misuse::ZoneFull);
        }
        Ok(id)
    }

    /// Whether the quanta of the blocks and these are above the option heap.
    fn is_full(&self, quanta: u32) -> bool
        ensures { result ≡ is_full self.now quanta }
    {
        u64::from(self.options.heap_quanta) < self.tables.blocks.used() + u64::from(quanta)
    }

    /// A new block, which the thread holds once.
    fn add_born(
        &mut self,
        alloc: Global,
        t: ThreadNo,
        id: BlockId,
        layout: &Layout,
        actions: &[Action],
    ) -> Result<(), NoMemory>
        requires room { self.old.room ≡ [] }
        requires absent { get self.old.blocks id ≡ None }
        requires fits { used_by self.old.blocks + quanta (len_of layout.now) ≤ self.old.options.heap_quanta }
        requires few { length actions.now ≤ 8 }
        ensures ok { OnOk result (self.new ≡ with_birth self.old t id layout.now actions.now) }
        ensures err { OnErr result (self.new ≡ self.old) }
    {
        let waiting = waiting(actions);
        let words = layout.first_words(alloc)?;
        let actions = Vec::from_slice(alloc, actions)?;
        let own = layout.try_copy(alloc)?;
        self.reserve_admit(alloc, &[layout.len()])?;
        self.tables.are_tables();
        self.tables.blocks.insert(id, own, words, actions, Some(t));
        self.unfinalised += waiting;
        Ok(())
    }
}

/// How many finalisers a block with these actions has to run: one, or none.
fn waiting(actions: &[Action]) -> u32
    ensures { result ≡ (if is_nil actions.now then 0 else 1) }
{
    if actions.is_empty() { 0 } else { 1 }
}
