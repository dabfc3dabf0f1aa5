//! Positive counts by block.
ghost use Rattle.std.specs.Prelude.{◌≡◌, ◌+◌, ◌-◌, ◌<◌, ◌≤◌, ◌^◌, ℕ, [], length, slice_get, max, OnOk, OnErr, IfOk, IfErr};
ghost use Rattle.std.specs.FinMap as map;
ghost use Rattle.retain_table.specs.Counted.{nearer_of};

use crate::refused::{OverRelease, Raise};
use az_base::{BlockId, NoMemory};
use indexmap::IndexMap;
use std::alloc::Global;
use std::marker::Model;

/// The positive counts, the counted blocks at positions, and for how many more blocks there is room that was taken
/// beforehand. A block that isn't there has the count 0.
#[derive(Drop)]
pub struct Counts {
    counts: IndexMap<BlockId, u32>,
    // At most the room of the table, which may have more.
    spare: usize,
}

impl Model for Counts {
    ghost use Rattle.std.specs.Prelude.{◌≤◌};
    ghost use Rattle.std.specs.FinMap.{from_entries};
    ghost use Rattle.indexmap.specs.IndexMap.{keys, spare as room};
    ghost use Rattle.retain_table.specs.Counted.{Counted, coded_counted, IsPositive};

    ghost Value = { Counted };

    ghost coded = { coded_counted };

    ghost view = { λ c. record { counts = from_entries c.counts.entries; order = keys c.counts; spare = c.spare } };

    ghost invariant = { λ c. IsPositive (from_entries c.counts.entries) × (c.spare ≤ room c.counts) };
}

impl Counts {
    ghost use Rattle.retain_table.specs.Counted.{count_of, with_count, IsPositive, IsOrder, IsNextHeld};
    ghost use Rattle.retain_table.specs.Refusals.{WhyNotRaised};

    /// No block is counted.
    pub fn new(alloc: Global) -> Counts
        ensures counts { result.counts ≡ map.empty }
        ensures spare { result.spare ≡ 0 }
    {
        Counts {
            counts: IndexMap::new(alloc),
            spare: 0,
        }
    }

    /// Takes room for one block, if none is left. O(1), and O(blocks) where the table grows.
    pub fn reserve_one(&mut self) -> Result<(), NoMemory>
        ensures ok { OnOk result (self.new ≡ record self.old { spare = max 1 self.old.spare }) }
        ensures err { OnErr result (self.new ≡ self.old) }
    {
        let spare = self.spare.max(1);
        self.counts.reserve(spare)?;
        self.spare = spare;
        Ok(())
    }

    /// The count rises by one, and the answer is the new count. O(1).
    pub fn raise(&mut self, id: BlockId, limit: u32) -> Result<u32, Raise>
        ensures answer { IfOk result (λ n. (n ≡ count_of self.old.counts id + 1) × (n ≤ limit)) }
        ensures counts { IfOk result (λ n. self.new.counts ≡ with_count self.old.counts id n) }
        ensures spare { self.old.spare ≤ self.new.spare + 1 }
        ensures kept { 0 < count_of self.old.counts id → self.new.spare ≡ self.old.spare }
        ensures refused { IfErr result (WhyNotRaised self.old limit id) }
        ensures err { OnErr result (self.new ≡ self.old) }
    {
        let count = self.count(id);
        if count >= limit {
            return Err(Raise::CountFull);
        }
        if count > 0 {
            self.change(id, count + 1);
            return Ok(count + 1);
        }
        self.enter(id)?;
        Ok(1)
    }

    /// The count falls by one, and the answer is the new count; refused exactly at 0. O(1), without memory.
    pub fn lower(&mut self, id: BlockId) -> Result<u32, OverRelease>
        ensures answer { IfOk result (λ n. n + 1 ≡ count_of self.old.counts id) }
        ensures counts { IfOk result (λ n. self.new.counts ≡ with_count self.old.counts id n) }
        ensures spare { self.new.spare ≡ self.old.spare }
        ensures refused { OnErr result (count_of self.old.counts id ≡ 0) }
        ensures err { OnErr result (self.new ≡ self.old) }
    {
        let count = self.count(id);
        if count == 0 {
            return Err(OverRelease);
        }
        if count == 1 {
            let _ = self.counts.swap_remove(&id);
            return Ok(0);
        }
        self.change(id, count - 1);
        Ok(count - 1)
    }

    // A counted block gets another count.
    fn change(&mut self, id: BlockId, count: u32)
        requires counted { 0 < count_of self.old.counts id }
        requires positive { 0 < count }
        ensures counts { self.new.counts ≡ with_count self.old.counts id count }
        ensures spare { self.new.spare ≡ self.old.spare }
    {
        let Some(kept) = self.counts.get_mut(&id) else {
            unreachable!()
        };
        *kept = count;
    }

    // A block gets its first count.
    fn enter(&mut self, id: BlockId) -> Result<(), NoMemory>
        ensures counts { OnOk result (self.new.counts ≡ with_count self.old.counts id 1) }
        ensures spare { self.old.spare ≤ self.new.spare + 1 }
        ensures full { OnErr result (self.old.spare ≡ 0) }
        ensures err { OnErr result (self.new ≡ self.old) }
    {
        let _ = self.counts.insert(id, 1)?;
        self.spare = self.spare.saturating_sub(1);
        Ok(())
    }

    /// The count, 0 where there is none. O(1).
    pub fn count(&self, id: BlockId) -> u32
        ensures value { result ≡ count_of self.now.counts id }
        ensures positive { IsPositive self.now.counts }
    {
        self.counts.get(&id).copied().unwrap_or(0)
    }

    /// How many blocks have a positive count. O(1).
    pub fn len(&self) -> usize
        ensures value { result ≡ map.len self.now.counts }
        ensures positions { result ≡ length self.now.order }
        ensures small { result < 2 ^ 63 }
        ensures order { IsOrder self.now.counts self.now.order }
        ensures positive { IsPositive self.now.counts }
    {
        self.counts.len()
    }

    /// The counted block at this position; None exactly from `len` on. O(1). While no count changes, the positions give
    /// each counted block once, in no special order.
    pub fn nth(&self, n: usize) -> Option<BlockId>
        ensures { result ≡ slice_get self.now.order n }
    {
        match self.counts.get_index(n) {
            Some((id, _)) => Some(*id),
            None => None,
        }
    }

    /// The least counted block that isn't below `from`; None exactly where there is none. It looks at every counted
    /// block, so who wants them all in their order takes them by `nth` and sorts them.
    pub fn next_held(&self, from: BlockId) -> Option<BlockId>
        ensures { IsNextHeld self.now.counts from result }
    {
        let mut next: Option<BlockId> = None;
        for n in 0..self.len() {
            let Some(id) = self.nth(n) else {
                unreachable!()
            };
            next = nearer(from, next, id);
        }
        next
    }
}

/// The lesser of both, without those below `from`.
fn nearer(from: BlockId, next: Option<BlockId>, id: BlockId) -> Option<BlockId>
    ensures { result ≡ nearer_of from next id }
{
    if id < from {
        return next;
    }
    match next {
        Some(other) if other <= id => next,
        _ => Some(id),
    }
}
