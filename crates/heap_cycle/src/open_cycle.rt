//! The open cycle of a heap, and how far it is.
ghost use Rattle.std.specs.Prelude.{◌≡◌, ◌<◌, ◌≤◌, ◌+◌, ℕ, [], IfOk, length, slice_get, Some, is_some};
ghost use Rattle.zone_model.specs.Room.{WithRoom};
ghost use Rattle.heap_cycle.specs.Collects.{Collects, condemned_at, start_of};
ghost use Rattle.heap_tables.specs.declared.tables.Tables.{Tables};
ghost use Rattle.heap_cycle.specs.declared.open_cycle.Phase.TheVariants as phase;

use az_base::{Mode, NoMemory, ThreadNo};
use finalise_pass::Pass;
use gen_marker::Marker;
use std::alloc::Global;
use zone_model::IdList;

/// A cycle that is open.
#[derive(Drop)]
pub struct OpenCycle {
    pub owner: ThreadNo,
    pub mode: Mode,
    /// How many finalisers it has to run yet: until it is condemned at most so many, and then exactly.
    pub left: u32,
    /// Lists with room for the blocks of the start, for those who copy a reply.
    pub lent: Vec<IdList>,
    pub phase: Phase,
}

/// How far a cycle is.
#[derive(Drop)]
pub enum Phase {
    /// It marks. The lists are room for the reply of Condemn, and for the blocks that Reclaim keeps.
    Marking {
        marker: Marker,
        reply: IdList,
        kept: IdList,
    },
    /// Its condemned blocks are finalised, one after another.
    Settling {
        pass: Pass,
    },
}

/// The lists of a cycle, each with room for all blocks of its start.
#[derive(Drop)]
pub struct CycleLists {
    pub reply: IdList,
    pub kept: IdList,
    pub lent: Vec<IdList>,
}

impl OpenCycle {
    /// Whether it is condemned.
    pub fn is_condemned(&self) -> bool
        ensures { result ≡ is_some (condemned_at self.now.phase) }
    {
        match &self.phase {
            Phase::Marking { .. } => false,
            Phase::Settling { .. } => true,
        }
    }

    /// An empty list with room for the blocks of the start. It takes no memory. O(1).
    pub fn lend_room(&mut self) -> IdList
        requires rooms { 0 < length self.old.lent.items }
        ensures empty { (t : Tables) → Collects t (Some self.old) → result.list ≡ [] }
        ensures room { (t : Tables) → Collects t (Some self.old) → length (start_of t) ≤ result.spare }
        ensures rooms { length self.new.lent.items + 1 ≡ length self.old.lent.items }
        ensures same { self.new ≡ record self.old { lent = self.new.lent } }
        ensures collects { (t : Tables) → Collects t (Some self.old) → Collects t (Some self.new) }
    {
        let Some(list) = self.lent.pop() else {
            unreachable!()
        };
        list
    }
}

impl CycleLists {
    /// Lists with room for so many blocks each.
    pub fn with_room(alloc: Global, blocks: usize) -> Result<CycleLists, NoMemory>
        ensures reply { IfOk result (λ l. (l.reply.list ≡ []) × (blocks ≤ l.reply.spare)) }
        ensures kept { IfOk result (λ l. blocks ≤ l.kept.spare) }
        ensures three { IfOk result (λ l. length l.lent.items ≡ 3) }
        ensures lent { IfOk result (λ l. (n : ℕ) (room : WithRoom) → slice_get l.lent.items n ≡ Some room → (room.list ≡ []) × (blocks ≤ room.spare)) }
    {
        let lent = rooms_to_lend(alloc, blocks)?;
        let reply = IdList::with_room(alloc, blocks)?;
        let kept = IdList::with_room(alloc, blocks)?;
        Ok(CycleLists { reply, kept, lent })
    }

    /// A cycle that marks, with these lists.
    pub fn into_cycle(self, marker: Marker, owner: ThreadNo, mode: Mode, left: u32) -> OpenCycle
        ensures { result ≡ record { owner = owner; mode = mode; left = left; lent = self.lent; phase = phase.Marking marker self.reply self.kept } }
    {
        let CycleLists { reply, kept, lent } = self;
        OpenCycle {
            owner,
            mode,
            left,
            lent,
            phase: Phase::Marking {
                marker,
                reply,
                kept,
            },
        }
    }
}

/// Three empty lists, each with room for so many blocks.
fn rooms_to_lend(alloc: Global, blocks: usize) -> Result<Vec<IdList>, NoMemory>
    ensures three { IfOk result (λ l. length l.items ≡ 3) }
    ensures rooms { IfOk result (λ l. (n : ℕ) (room : WithRoom) → slice_get l.items n ≡ Some room → (room.list ≡ []) × (blocks ≤ room.spare)) }
{
    let mut lent = Vec::new(alloc);
    lent.push(IdList::with_room(alloc, blocks)?)?;
    lent.push(IdList::with_room(alloc, blocks)?)?;
    lent.push(IdList::with_room(alloc, blocks)?)?;
    Ok(lent)
}
