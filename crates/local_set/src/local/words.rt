//! The calls on words of unescaped blocks.
ghost use Rattle.std.specs.Prelude.{◌≡◌, ◌<◌, ◌++◌, ◌∷◌, [], length, true, false, Some, is_none, is_some, OnOk, OnErr, option_and_then, slice_get};
ghost use Rattle.std.specs.FinMap.{get};
ghost use Rattle.az_base.specs.declared.word.Word.TheVariants as word;
ghost use Rattle.zone_model.specs.declared.call.Call.TheVariants as call;
ghost use Rattle.zone_model.specs.declared.entry.Reply.TheVariants as reply;
ghost use Rattle.zone_model.specs.State.{referent as referent_of, reference as reference_to};
ghost use Rattle.zone_model.specs.Part.{is_within as within, put_word};
ghost use Rattle.local_set.specs.LocalSets.{part_in, table_in, blocks_of};
ghost use Rattle.local_set.specs.Tables.{NotesChange};
ghost use Rattle.local_set.specs.Calls.{Answers, NeedsRoom, MayHold, word_misuse as misuse_at, block_at, entry_of};

use crate::errors::LocalErr;
use crate::local::Local;
use az_base::{BlockId, Class, Misuse, NoMemory, Reg};
use zone_model::{Call, Reply};

impl Local {
    /// A hint where the block lies, for the functions that take one; None exactly where it is neither null nor an unescaped
    /// block of the thread.
    fn hint_within(&self, id: Option<BlockId>) -> Option<usize>
        ensures { is_some result ≡ within (part_in self.now) id }
    {
        match id {
            None => Some(0),
            Some(id) => self.blocks.hint(id),
        }
    }

    /// The least of NullBlock, NoWord and WrongClass, where a word of this class of an unescaped block is needed.
    #[inline(always)]
    fn misuse_of_word(
        &self,
        id: Option<BlockId>,
        at: u32,
        class: Class,
        hint: usize,
    ) -> Option<Misuse>
        requires { within (part_in self.now) id ≡ true }
        ensures { result ≡ misuse_at (is_none id) (block_at self.now id) at class }
    {
        match id {
            None => Some(Misuse::NullBlock),
            Some(id) => self.blocks.misuse(id, at, class, hint),
        }
    }

    /// The call of a word was a misuse, and waits.
    fn misused(&mut self, call: Call, misuse: Misuse) -> Reply
        requires room { 0 < self.old.spare }
        requires few { length self.old.waiting < self.old.options.pending }
        ensures reply { result ≡ reply.Misuse misuse }
        ensures entry { self.new ≡ record self.old { waiting = self.old.waiting ++ entry_of self.old.thread call (reply.Misuse misuse) ∷ []; spare = self.new.spare } }
    {
        self.wait(call, Reply::Misuse(misuse));
        Reply::Misuse(misuse)
    }

    /// A Strong word of an unescaped block gets a reference.
    fn set_reference(
        &mut self,
        id: BlockId,
        at: u32,
        value: Option<BlockId>,
        hint: usize,
    ) -> Result<(), NoMemory>
        requires { MayHold self.old.blocks id at (reference_to value) }
        ensures part { OnOk result (part_in self.new ≡ put_word (part_in self.old) (Some id) at (reference_to value)) }
        ensures notes { OnOk result (NotesChange (table_in self.old) (table_in self.new)) }
        ensures rest { self.new ≡ record self.old { blocks = self.new.blocks; changed = self.new.changed } }
        ensures err { OnErr result (self.new ≡ self.old) }
    {
        self.blocks.store(id, at, value, hint)?;
        Ok(())
    }

    /// A Plain word of an unescaped block gets a number.
    fn set_number(&mut self, id: BlockId, at: u32, number: u64)
        requires { MayHold self.old.blocks id at (word.Number number) }
        ensures part { part_in self.new ≡ put_word (part_in self.old) (Some id) at (word.Number number) }
        ensures notes { NotesChange (table_in self.old) (table_in self.new) }
        ensures rest { self.new ≡ record self.old { blocks = self.new.blocks } }
    {
        self.blocks.put(id, at, number);
    }

    /// The call `load`: a register gets the reference in a Strong word of an unescaped block. O(1) expected.
    pub fn load(&mut self, to: Reg, from: Reg, at: u32) -> Result<Reply, LocalErr>
        requires { self.old.ended ≡ false }
        ensures answer { Answers self.old self.new (call.Load to from at) result }
        ensures sure { NeedsRoom self.old result }
    {
        let holder = &self.register(from);
        let Some(hint) = self.hint_within(*holder) else {
            return Err(LocalErr::NotLocal);
        };
        self.ready()?;
        if let Some(misuse) = self.misuse_of_word(*holder, at, Class::Strong, hint) {
            return Ok(self.misused(Call::Load { to, from, at }, misuse));
        }
        let Some(id) = *holder else { unreachable!() };
        let value = &self.blocks.reference(id, at, hint);
        self.hold(to, *value);
        self.wait(Call::Load { to, from, at }, Reply::Block(*value));
        Ok(Reply::Block(*value))
    }

    /// The call `store`: a Strong word of an unescaped block gets the reference in a register. O(1) expected.
    pub fn store(&mut self, into: Reg, at: u32, from: Reg) -> Result<Reply, LocalErr>
        requires { self.old.ended ≡ false }
        ensures { Answers self.old self.new (call.Store into at from) result }
    {
        let holder = &self.register(into);
        let Some(hint) = self.hint_within(*holder) else {
            return Err(LocalErr::NotLocal);
        };
        self.ready()?;
        if let Some(misuse) = self.misuse_of_word(*holder, at, Class::Strong, hint) {
            return Ok(self.misused(Call::Store { into, at, from }, misuse));
        }
        let Some(id) = *holder else { unreachable!() };
        self.set_reference(id, at, self.register(from), hint)?;
        self.wait(Call::Store { into, at, from }, Reply::Done);
        Ok(Reply::Done)
    }

    /// The call `put`: a Plain word of an unescaped block gets a number. O(1) expected.
    pub fn put(&mut self, into: Reg, at: u32, number: u64) -> Result<Reply, LocalErr>
        requires { self.old.ended ≡ false }
        ensures answer { Answers self.old self.new (call.Put into at number) result }
        ensures sure { NeedsRoom self.old result }
    {
        let holder = &self.register(into);
        let Some(hint) = self.hint_within(*holder) else {
            return Err(LocalErr::NotLocal);
        };
        self.ready()?;
        if let Some(misuse) = self.misuse_of_word(*holder, at, Class::Plain, hint) {
            return Ok(self.misused(Call::Put { into, at, number }, misuse));
        }
        let Some(id) = *holder else { unreachable!() };
        self.set_number(id, at, number);
        self.wait(Call::Put { into, at, number }, Reply::Done);
        Ok(Reply::Done)
    }

    /// The call `get`: the number in a Plain word of an unescaped block. O(1) expected.
    pub fn get(&mut self, from: Reg, at: u32) -> Result<Reply, LocalErr>
        requires { self.old.ended ≡ false }
        ensures answer { Answers self.old self.new (call.Get from at) result }
        ensures sure { NeedsRoom self.old result }
    {
        let holder = &self.register(from);
        let Some(hint) = self.hint_within(*holder) else {
            return Err(LocalErr::NotLocal);
        };
        self.ready()?;
        if let Some(misuse) = self.misuse_of_word(*holder, at, Class::Plain, hint) {
            return Ok(self.misused(Call::Get { from, at }, misuse));
        }
        let Some(id) = *holder else { unreachable!() };
        let number = self.blocks.number(id, at, hint);
        self.wait(Call::Get { from, at }, Reply::Number(number));
        Ok(Reply::Number(number))
    }
}
