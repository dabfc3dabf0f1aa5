//! The words of the blocks.
ghost use Rattle.std.specs.Prelude.{◌≡◌, ◌≤◌, ◌+◌, ℕ, IsOk, IfOk, IfSome, IsSome, OnErr, Some, ◌==◌, ◌&&◌, if◌then◌else◌};
ghost use Rattle.std.specs.FinMap.{get};
ghost use Rattle.az_base.specs.declared.block_id.BlockId.{BlockId};
ghost use Rattle.az_base.specs.declared.word.Word.TheVariants as words;
ghost use Rattle.az_base.specs.declared.word.Class.TheVariants as class;
ghost use Rattle.zone_model.specs.declared.call.Call.{Call};
ghost use Rattle.zone_model.specs.declared.call.Call.TheVariants as call;
ghost use Rattle.zone_model.specs.declared.entry.Reply.TheVariants as reply;
ghost use Rattle.zone_model.specs.State.{State, reference, referent};
ghost use Rattle.shared_heap.specs.Cycles.{AfterBarrier};
ghost use Rattle.heap_cycle.specs.Livening.{of_option};
ghost use Rattle.block_table.specs.Table.{used_by};
ghost use Rattle.shared_heap.specs.Shared.{held, with_gc};
ghost use Rattle.shared_heap.specs.Stands.{Stands, EscapedClosed};
ghost use Rattle.shared_heap.specs.Holding.{HoldsMore};
ghost use Rattle.shared_heap.specs.Steps.{Runs, Stepped, NeedsWord, first_three, after_read, after_write, names};
ghost use Rattle.block_layouts.specs.Fitting.{Suits};
ghost use Rattle.shared_heap.specs.Words.{word_misuse, word_in, class_in, Finds, number_in, reply_or};

use crate::heap::Heap;
use az_base::{BlockId, Class, Misuse, NoMemory, ThreadNo, Word};
use heap_cycle::tell_store;
use zone_model::Reply;

/// The word that refers to a block, or to none.
fn reference(value: Option<BlockId>) -> Word
    ensures { result ≡ reference value }
{
    match value {
        Some(id) => Word::Block(id),
        None => Word::Null,
    }
}

/// The block to which a word refers.
fn referent(word: Word) -> Option<BlockId>
    ensures { result ≡ referent (Some word) }
{
    match word {
        Word::Block(id) => Some(id),
        _ => None,
    }
}

/// The number in a Plain word.
fn number(word: Word) -> u64
    requires { Suits class.Plain word }
    ensures { word ≡ words.Number result }
{
    match word {
        Word::Number(number) => number,
        _ => unreachable!(),
    }
}

impl Heap {
    /// A hint where the block lies, for the calls that take one: it is looked up once for all of them. O(1) expected.
    fn hint_for(&self, id: &Option<BlockId>) -> u32 {
        match id {
            Some(id) => self.tables.blocks.hint_for(*id),
            None => 0,
        }
    }

    /// The block whose word of this class stands at the place, or what is wrong.
    #[inline(always)]
    fn find_word(
        &self,
        id: Option<BlockId>,
        at: u32,
        class: Class,
        hint: u32,
    ) -> Result<BlockId, Misuse>
        ensures { Finds self.now id at class result }
    {
        let Some(id) = id else {
            return Err(Misuse::NullBlock);
        };
        match self.tables.blocks.class_at(id, at, hint) {
            None => Err(Misuse::NoWord),
            Some(found) if found == class => Ok(id),
            Some(_) => Err(Misuse::WrongClass),
        }
    }

    /// The least of the misuses NullBlock, NoWord and WrongClass, for a call that needs a word of this class. O(1)
    /// expected.
    pub fn word_misuse(&self, id: Option<BlockId>, at: u32, class: Class) -> Option<Misuse>
        requires given { IfSome id (λ b. IsSome (get self.now.blocks b)) }
        ensures value { result ≡ word_misuse self.now id at class }
        ensures stands { (z : State) (t : ℕ) (c : Call) (reg : ℕ) → Stands self.now z → z.registers t reg ≡ id → NeedsWord z t c reg at class → result ≡ first_three z t c }
    {
        self.find_word(id, at, class, 0).err()
    }

    /// Reads a Strong word into a register of the thread: the thread holds what it gets once more. NoMemory too where it
    /// holds that 4,294,967,295 times. O(1) expected, and O(threads that hold the block).
    pub fn load(&mut self, t: ThreadNo, from: Option<BlockId>, at: u32) -> Result<Reply, NoMemory>
        requires given { IfSome from (λ b. IsSome (get self.old.blocks b)) }
        ensures reply { IfOk result (λ r. r ≡ reply_or (word_misuse self.old from at class.Strong) (reply.Block (referent (word_in self.old from at)))) }
        ensures value { IfOk result (λ r. self.new ≡ after_read self.old t r) }
        ensures held { IfOk result (λ r. HoldsMore self.old self.new t r) }
        ensures step { IfOk result (λ r. (z : State) (to reg : ℕ) → Runs self.old z t → z.registers t reg ≡ from → Stepped self.new z t (call.Load to reg at) r) }
        ensures err { OnErr result (self.new ≡ self.old) }
    {
        let from = &from;
        let hint = self.hint_for(from);
        match self.find_word(*from, at, Class::Strong, hint) {
            Err(misuse) => Ok(Reply::Misuse(misuse)),
            Ok(id) => {
                let value = self.referent_at(id, at, hint);
                self.hold_more(t, &value)?;
                Ok(Reply::Block(value))
            }
        }
    }

    /// Writes a Strong word. While a cycle marks, the block that is stored is enlivened; the one into which it is stored
    /// is remembered where it is old and the stored one young, or where that one is condemned. O(1) expected, and
    /// O(cards) where a block is remembered.
    #[inline(always)]
    pub fn store(
        &mut self,
        t: ThreadNo,
        into: Option<BlockId>,
        at: u32,
        value: Option<BlockId>,
    ) -> Result<Reply, NoMemory>
        requires given { IfSome into (λ b. IsSome (get self.old.blocks b)) }
        requires escaped { IfSome value (λ b. IsSome (get self.old.blocks b)) }
        ensures sure { IsOk result }
        ensures reply { IfOk result (λ r. r ≡ reply_or (word_misuse self.old into at class.Strong) reply.Done) }
        ensures value { IfOk result (λ r. self.new ≡ with_gc (after_write self.old into at (reference value) r) self.new.gc) }
        ensures gc { IfOk result (λ r. AfterBarrier self.old.gc self.new.gc r (of_option value) (of_option into)) }
        ensures step { IfOk result (λ r. (z : State) (reg from : ℕ) → Runs self.old z t → EscapedClosed z → z.registers t reg ≡ into → z.registers t from ≡ value → Stepped self.new z t (call.Store reg at from) r) }
    {
        let into = &into;
        let value = &value;
        let hint = self.hint_for(into);
        match self.find_word(*into, at, Class::Strong, hint) {
            Err(misuse) => Ok(Reply::Misuse(misuse)),
            Ok(id) => {
                self.tables.are_tables();
                tell_store(&mut self.tables, &mut self.open_cycle, id, *value, hint);
                self.tables.blocks.set_word(id, at, reference(*value), hint);
                Ok(Reply::Done)
            }
        }
    }

    /// Writes a Plain word. O(1) expected.
    pub fn put(&mut self, t: ThreadNo, into: Option<BlockId>, at: u32, number: u64) -> Reply
        requires given { IfSome into (λ b. IsSome (get self.old.blocks b)) }
        ensures reply { result ≡ reply_or (word_misuse self.old into at class.Plain) reply.Done }
        ensures value { self.new ≡ after_write self.old into at (words.Number number) result }
        ensures step { (z : State) (reg : ℕ) → Runs self.old z t → z.registers t reg ≡ into → Stepped self.new z t (call.Put reg at number) result }
    {
        let into = &into;
        let hint = self.hint_for(into);
        match self.find_word(*into, at, Class::Plain, hint) {
            Err(misuse) => Reply::Misuse(misuse),
            Ok(id) => {
                self.tables.are_tables();
                self.tables
                    .blocks
                    .set_word(id, at, Word::Number(number), hint);
                Reply::Done
            }
        }
    }

    /// Reads a Plain word. O(1) expected.
    pub fn get(&self, t: ThreadNo, from: Option<BlockId>, at: u32) -> Reply
        requires given { IfSome from (λ b. IsSome (get self.now.blocks b)) }
        ensures reply { result ≡ reply_or (word_misuse self.now from at class.Plain) (reply.Number (number_in (word_in self.now from at))) }
        ensures step { (z : State) (reg : ℕ) → Runs self.now z t → z.registers t reg ≡ from → Stepped self.now z t (call.Get reg at) result }
    {
        let from = &from;
        let hint = self.hint_for(from);
        match self.find_word(*from, at, Class::Plain, hint) {
            Err(misuse) => Reply::Misuse(misuse),
            Ok(id) => Reply::Number(self.number_at(id, at, hint)),
        }
    }

    /// The block to which a word of a block refers.
    fn referent_at(&self, id: BlockId, at: u32, hint: u32) -> Option<BlockId>
        ensures { result ≡ referent (word_in self.now (Some id) at) }
    {
        match self.tables.blocks.word(id, at, hint) {
            Some(word) => referent(word),
            None => None,
        }
    }

    /// The number in a Plain word of a block.
    fn number_at(&self, id: BlockId, at: u32, hint: u32) -> u64
        requires { class_in self.now id at ≡ Some class.Plain }
        ensures { word_in self.now (Some id) at ≡ Some (words.Number result) }
    {
        match self.tables.blocks.word(id, at, hint) {
            Some(word) => number(word),
            None => unreachable!(),
        }
    }
}
