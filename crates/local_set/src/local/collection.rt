//! The local collection.
ghost use Rattle.std.specs.Prelude.{◌≡◌, false, IfOk, IsTrue, OnOk, OnErr};
ghost use Rattle.az_base.specs.Ids.{among};
ghost use Rattle.zone_model.specs.declared.call.Call.TheVariants as call;
ghost use Rattle.zone_model.specs.Collection.{Lists};
ghost use Rattle.zone_model.specs.Part.{is_in, leave_part};
ghost use Rattle.zone_model.specs.LocalSteps.{IsFound};
ghost use Rattle.local_set.specs.LocalSets.{part_in, table_in};
ghost use Rattle.local_set.specs.Tables.{NotesChange};
ghost use Rattle.local_set.specs.Calls.{Answers};

use crate::errors::LocalErr;
use crate::local::Local;
use crate::walk::reached;
use az_base::{BlockId, NoMemory};
use std::alloc::Global;
use zone_model::{Call, IdList, Reply};

impl Local {
    /// The unescaped blocks that no register leads to, ascending.
    fn dead(&self, alloc: Global) -> Result<IdList, NoMemory>
        ensures { IfOk result (λ ids. Lists ids.list (λ b. IsTrue (is_in (part_in self.now) b) × ¬ IsFound (part_in self.now) b)) }
    {
        let found = reached(alloc, &self.blocks, &self.registers)?;
        self.blocks.ids_but(alloc, &found)
    }

    /// These blocks are gone.
    fn remove(&mut self, gone: &[BlockId]) -> Result<(), NoMemory>
        requires { Lists gone.now (λ b. IsTrue (is_in (part_in self.old) b) × ¬ IsFound (part_in self.old) b) }
        ensures part { OnOk result (part_in self.new ≡ leave_part (part_in self.old) (among gone.now)) }
        ensures notes { OnOk result (NotesChange (table_in self.old) (table_in self.new)) }
        ensures rest { self.new ≡ record self.old { blocks = self.new.blocks; changed = self.new.changed } }
        ensures err { OnErr result (self.new ≡ self.old) }
    {
        self.blocks.note_all(gone)?;
        self.blocks.remove_all(gone);
        Ok(())
    }

    /// The call `collect local`: the unescaped blocks that no register leads to are gone. O(blocks + words) expected, and
    /// the order of the reply's list.
    pub fn collect_local(&mut self, alloc: Global) -> Result<Reply, LocalErr>
        requires { self.old.ended ≡ false }
        ensures { Answers self.old self.new call.CollectLocal result }
    {
        self.ready()?;
        let gone = self.dead(alloc)?;
        let copy = gone.try_copy(alloc)?;
        self.remove(gone.as_slice())?;
        self.wait(Call::CollectLocal, Reply::Reclaimed(copy));
        Ok(Reply::Reclaimed(gone))
    }
}
