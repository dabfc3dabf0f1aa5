//! All calls of a local set, by one that takes them as values.
ghost use Rattle.std.specs.Prelude.{◌≡◌, ◌≤◌, false, length};
ghost use Rattle.zone_model.specs.declared.call.Call.TheVariants as call;
ghost use Rattle.local_set.specs.Calls.{Answers};

use crate::errors::LocalErr;
use crate::local::Local;
use az_base::Reg;
use block_layouts::Layout;
use std::alloc::Global;
use zone_model::{ActionList, Call, Reply};

impl Local {
    /// Whether the thread has ended, after which it makes no call. O(1).
    pub fn has_ended(&self) -> bool
        ensures { result ≡ self.now.ended }
    {
        self.ended
    }

    /// The call `new`, with the layout behind a reference.
    fn new_of(
        &mut self,
        alloc: Global,
        to: Reg,
        layout: &Layout,
        actions: &ActionList,
    ) -> Result<Reply, LocalErr>
        requires { self.old.ended ≡ false }
        ensures { Answers self.old self.new (call.New to layout.now actions.now) result }
    {
        if !actions.is_empty() || self.passes_local(layout) {
            return Err(LocalErr::NotLocal);
        }
        self.ready()?;
        let Ok(copy) = layout.try_copy(alloc) else {
            return Err(LocalErr::NoMemory);
        };
        self.new_block(alloc, to, copy)
    }

    /// Makes the call, and its entry waits. NotLocal exactly where `is_local` says no, then PendingFull, then NoMemory;
    /// after each of these nothing has changed. At most the cost of the call of that name.
    pub fn call(&mut self, alloc: Global, call: &Call) -> Result<Reply, LocalErr>
        requires { self.old.ended ≡ false }
        ensures answer { Answers self.old self.new call.now result }
        ensures few { length self.old.waiting ≤ self.old.options.pending }
    {
        let _ = &self.waiting;
        match call {
            Call::New {
                to,
                layout,
                actions,
            } => self.new_of(alloc, *to, layout, actions),
            Call::Load { to, from, at } => self.load(*to, *from, *at),
            Call::Store { into, at, from } => self.store(*into, *at, *from),
            Call::Put { into, at, number } => self.put(*into, *at, *number),
            Call::Get { from, at } => self.get(*from, *at),
            Call::Copy { to, from } => self.copy(*to, *from),
            Call::DropReg { reg } => self.drop_reg(*reg),
            Call::CollectLocal => self.collect_local(alloc),
            Call::SetRoot { .. }
            | Call::GetRoot { .. }
            | Call::Retain { .. }
            | Call::Release { .. }
            | Call::Count { .. }
            | Call::Take { .. }
            | Call::SetAssoc { .. }
            | Call::GetAssoc { .. }
            | Call::SetWeak { .. }
            | Call::ReadWeak { .. }
            | Call::Stats
            | Call::Begin { .. }
            | Call::Condemn
            | Call::Finalise
            | Call::Reclaim
            | Call::Leave => Err(LocalErr::NotLocal),
        }
    }
}
