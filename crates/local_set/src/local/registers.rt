//! The calls on registers.
ghost use Rattle.std.specs.Prelude.{◌≡◌, false};
ghost use Rattle.zone_model.specs.declared.call.Call.TheVariants as call;
ghost use Rattle.zone_model.specs.Part.{put_register};
ghost use Rattle.local_set.specs.LocalSets.{part_in};
ghost use Rattle.local_set.specs.Calls.{Answers, NeedsRoom};

use crate::errors::LocalErr;
use crate::local::Local;
use az_base::{BlockId, Reg};
use zone_model::{Call, Reply};

impl Local {
    /// A register holds a block, or null.
    pub(super) fn hold(&mut self, reg: Reg, id: Option<BlockId>)
        ensures part { part_in self.new ≡ put_register (part_in self.old) reg id }
        ensures rest { self.new ≡ record self.old { registers = self.new.registers } }
    {
        self.registers[reg.get() as usize] = id;
    }

    /// The call `copy`: one register gets what another one holds. O(1).
    pub fn copy(&mut self, to: Reg, from: Reg) -> Result<Reply, LocalErr>
        requires { self.old.ended ≡ false }
        ensures answer { Answers self.old self.new (call.Copy to from) result }
        ensures sure { NeedsRoom self.old result }
    {
        self.ready()?;
        self.hold(to, self.register(from));
        self.wait(Call::Copy { to, from }, Reply::Done);
        Ok(Reply::Done)
    }

    /// The call `drop`: a register becomes null. O(1).
    pub fn drop_reg(&mut self, reg: Reg) -> Result<Reply, LocalErr>
        requires { self.old.ended ≡ false }
        ensures answer { Answers self.old self.new (call.DropReg reg) result }
        ensures sure { NeedsRoom self.old result }
    {
        self.ready()?;
        self.hold(reg, None);
        self.wait(Call::DropReg { reg }, Reply::Done);
        Ok(Reply::Done)
    }
}
