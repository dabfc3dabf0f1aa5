//! New unescaped blocks.
ghost use Rattle.std.specs.Prelude.{◌≡◌, ◌+◌, [], Some, None, false, ◌≢◌, OnOk, OnErr};
ghost use Rattle.zone_model.specs.declared.call.Call.TheVariants as call;
ghost use Rattle.zone_model.specs.Part.{passes_local, put_new};
ghost use Rattle.local_set.specs.LocalSets.{part_in, table_in};
ghost use Rattle.local_set.specs.Tables.{NotesChange};
ghost use Rattle.local_set.specs.Calls.{Answers, next_of};

use crate::errors::LocalErr;
use crate::local::Local;
use az_base::{BlockId, Misuse, NoMemory, Reg};
use block_layouts::Layout;
use std::alloc::Global;
use zone_model::{ActionList, Call, Reply};

/// The call `new` without actions.
fn birth(to: Reg, layout: Layout) -> Call
    ensures { result ≡ call.New to layout [] }
{
    Call::New {
        to,
        layout,
        actions: ActionList::new(),
    }
}

impl Local {
    /// A new block with the thread's next id.
    fn add_block(&mut self, alloc: Global, id: BlockId, layout: &Layout) -> Result<(), NoMemory>
        requires next { next_of self.old ≡ Some id }
        requires fits { passes_local (part_in self.old) layout.now ≡ false }
        ensures part { OnOk result (part_in self.new ≡ put_new (part_in self.old) layout.now [] (Some id)) }
        ensures notes { OnOk result (NotesChange (table_in self.old) (table_in self.new)) }
        ensures rest { self.new ≡ record self.old { blocks = self.new.blocks; serials = self.new.serials } }
        ensures err { OnErr result (self.new ≡ self.old) }
    {
        self.blocks.add(alloc, id, layout)?;
        self.serials += 1;
        Ok(())
    }

    /// The call `new` without actions: a register gets a new block, or the reply is SerialsUsed. O(words) expected.
    pub fn new_block(&mut self, alloc: Global, to: Reg, layout: Layout) -> Result<Reply, LocalErr>
        requires { self.old.ended ≡ false }
        ensures { Answers self.old self.new (call.New to layout []) result }
    {
        if self.passes_local(&layout) {
            return Err(LocalErr::NotLocal);
        }
        self.ready()?;
        let Some(id) = self.next_id() else {
            self.wait(birth(to, layout), Reply::Misuse(Misuse::SerialsUsed));
            return Ok(Reply::Misuse(Misuse::SerialsUsed));
        };
        let id = &id;
        self.add_block(alloc, *id, &layout)?;
        self.hold(to, Some(*id));
        self.wait(birth(to, layout), Reply::Block(Some(*id)));
        Ok(Reply::Block(Some(*id)))
    }

    /// A serial is used, by a block that is born escaped. O(1).
    pub fn use_serial(&mut self)
        requires { next_of self.old ≢ None }
        ensures { self.new ≡ record self.old { serials = self.old.serials + 1 } }
    {
        self.serials += 1;
    }
}
