//! A thread's own set.
ghost use Rattle.std.specs.Prelude.{◌≡◌, ◌≤◌, [], Some, None, true, length, slice_get, option_map, option_and_then, is_some, IfOk, IsTrue};
ghost use Rattle.std.specs.FinMap.{get, contains_key};
ghost use Rattle.az_base.specs.OptionRanges.{IsValid};
ghost use Rattle.block_layouts.specs.Layouts.{len_of};
ghost use Rattle.zone_model.specs.Collection.{Lists};
ghost use Rattle.zone_model.specs.Quanta.{quanta_where};
ghost use Rattle.zone_model.specs.Part.{opening_part, is_in, is_within as within, is_local as is_local_at, passes_local};
ghost use Rattle.local_set.specs.LocalSets.{part_in, held_in, blocks_of};
ghost use Rattle.zone_model.specs.Holds.{holds_of, register_holds};
ghost use Rattle.local_set.specs.Calls.{next_of, IsAt};

mod births;
mod calls;
mod collection;
mod pending;
mod publishing;
mod registers;
mod words;

use crate::blocks::Blocks;
use crate::waiting::Waiting;
use az_base::{BlockId, NoMemory, Options, Reg, ThreadNo, Word};
use block_layouts::Layout;
use indexmap::IndexSet;
use std::alloc::Global;
use std::marker::Model;
use zone_model::{Call, IdList};

/// A thread's registers, unescaped blocks and waiting entries.
#[derive(Drop)]
pub struct Local {
    thread: ThreadNo,
    options: Options,
    registers: [Option<BlockId>; 16],
    published: [Option<BlockId>; 16],
    serials: u64,
    ended: bool,
    blocks: Blocks,
    waiting: Waiting,
}

impl Model for Local {
    ghost use Rattle.local_set.specs.LocalSets.{LocalSet};

    ghost Value = { LocalSet };

    ghost view = { λ l. record { thread = l.thread; options = l.options; registers = l.registers; published = l.published; serials = l.serials; ended = l.ended; blocks = l.blocks.list; changed = l.blocks.changed; waiting = l.waiting.list; spare = l.waiting.spare } };

    ghost use Rattle.local_set.specs.Inside.{IsLocal};

    ghost invariant = { IsLocal };
}

impl Local {
    /// Null registers, no block, and nothing that waits.
    pub fn new(alloc: Global, thread: ThreadNo, options: Options) -> Local
        requires { IsValid options }
        ensures part { part_in result ≡ opening_part options }
        ensures thread { result.thread ≡ thread }
        ensures waiting { result.waiting ≡ [] }
        ensures published { result.published ≡ result.registers }
        ensures changed { result.changed ≡ [] }
    {
        Local {
            thread,
            options,
            registers: [None; 16],
            published: [None; 16],
            serials: 0,
            ended: false,
            blocks: Blocks::new(alloc),
            waiting: Waiting::new(alloc),
        }
    }

    /// The thread whose set it is. O(1).
    pub fn thread(&self) -> ThreadNo
        ensures { result ≡ self.now.thread }
    {
        self.thread
    }

    /// What a register holds; None where it is null. O(1).
    pub fn register(&self, reg: Reg) -> Option<BlockId>
        ensures { result ≡ (part_in self.now).registers reg }
    {
        self.registers[reg.get() as usize]
    }

    /// Whether the block is an unescaped one of this thread. O(1) expected.
    pub fn is_own(&self, id: BlockId) -> bool
        ensures { result ≡ is_in (part_in self.now) id }
    {
        self.blocks.has(id)
    }

    /// Null, or an unescaped block of this thread.
    fn is_within(&self, id: Option<BlockId>) -> bool
        ensures { result ≡ within (part_in self.now) id }
    {
        match id {
            None => true,
            Some(id) => self.blocks.has(id),
        }
    }

    /// The small quanta of the unescaped blocks, at most the option local. O(1).
    pub fn own_quanta(&self) -> u32
        ensures { result ≡ quanta_where (λ id b. true) (part_in self.now).blocks }
    {
        self.blocks.quanta()
    }

    /// Whether the quanta of the unescaped blocks, and of one more, pass the option local.
    fn passes_local(&self, layout: &Layout) -> bool
        ensures { result ≡ passes_local (part_in self.now) layout.now }
    {
        self.blocks.quanta() + layout.quanta() > self.options.local_quanta
    }

    /// Whether the call needs what the thread has for itself alone. O(1) expected.
    pub fn is_local(&self, call: &Call) -> bool
        ensures { result ≡ is_local_at (part_in self.now) call.now }
    {
        match call {
            Call::Copy { .. } | Call::DropReg { .. } | Call::CollectLocal => true,
            Call::Load { from, .. } | Call::Get { from, .. } => self.is_within(self.register(
                *from,
            )),
            Call::Store { into, .. } | Call::Put { into, .. } => {
                self.is_within(self.register(*into))
            }
            Call::New {
                layout,
                actions,
                ..
            } => actions.is_empty() && !self.passes_local(layout),
            Call::SetRoot { .. }
            | Call::GetRoot { .. }
            | Call::Retain { .. }
            | Call::Release { .. }
            | Call::Count { .. }
            | Call::Take { .. }
            | Call::SetAssoc { .. }
            | Call::GetAssoc { .. }
            | Call::SetWeak { .. }
            | Call::ReadWeak { .. }
            | Call::Stats
            | Call::Begin { .. }
            | Call::Condemn
            | Call::Finalise
            | Call::Reclaim
            | Call::Leave => false,
        }
    }

    /// The id of the thread's next block; None exactly where its serials are used. O(1).
    pub fn next_id(&self) -> Option<BlockId>
        ensures { result ≡ next_of self.now }
    {
        if self.serials == self.options.serials {
            return None;
        }
        Some(BlockId {
            thread: self.thread,
            serial: self.serials as u32,
        })
    }

    /// The layout of an unescaped block of this thread. O(1) expected.
    pub fn layout_of(&self, id: BlockId) -> &Layout
        requires { is_in (part_in self.now) id ≡ true }
        ensures { option_map (λ b. b.layout) (get (part_in self.now).blocks id) ≡ Some result.now }
    {
        self.blocks.layout(id)
    }

    /// A word of an unescaped block of this thread. O(1) expected.
    pub fn word(&self, id: BlockId, at: u32) -> Word
        requires { IsAt self.now.blocks id at }
        ensures { option_and_then (λ b. slice_get b.words at) (get (part_in self.now).blocks id) ≡ Some result }
    {
        self.blocks.word(id, at)
    }

    /// The layout and the words of an unescaped block of this thread. O(1) expected.
    pub fn block_of(&self, id: BlockId) -> (&Layout, &[Word])
        requires { is_in (part_in self.now) id ≡ true }
        ensures layout { option_map (λ b. b.layout) (get (part_in self.now).blocks id) ≡ Some result.0.now }
        ensures words { option_map (λ b. b.words) (get (part_in self.now).blocks id) ≡ Some result.1.now }
    {
        self.blocks.block(id)
    }

    /// In how many registers and words of unescaped blocks the block stands. O(1) expected.
    pub fn holds_of(&self, id: BlockId) -> u32
        ensures { result ≡ holds_of (part_in self.now) id }
    {
        self.register_holds(id) + self.blocks.holds(id)
    }

    /// In how many registers it stands.
    fn register_holds(&self, id: BlockId) -> u32
        ensures value { result ≡ register_holds (held_in self.now.registers) id 16 }
        ensures range { result ≤ 16 }
    {
        let mut holds = 0;
        for at in 0..16 {
            if self.registers[at] == Some(id) {
                holds += 1;
            }
        }
        holds
    }

    /// The unescaped blocks of this thread, ascending. O(n log n) for n of them.
    pub fn own_ids(&self, alloc: Global) -> Result<IdList, NoMemory>
        ensures { IfOk result (λ ids. Lists ids.list (λ b. IsTrue (is_in (part_in self.now) b))) }
    {
        self.blocks.ids_but(alloc, &IndexSet::new(alloc))
    }
}
