//! Reclaim: the blocks to which nothing leads go, and the cycle closes.
ghost use Rattle.std.specs.Prelude.{◌≡◌, ◌≤◌, ◌+◌, ◌↔◌, [], None, Some, IfSome, IsSome, IsTrue, length, not, option_map, slice_get, if◌then◌else◌};
ghost use Rattle.std.specs.FinMap.{get, retain_keys};
ghost use Rattle.az_base.specs.declared.block_id.BlockId.{BlockId};
ghost use Rattle.az_base.specs.Ids.{among};
ghost use Rattle.block_table.specs.Stored.{older};
ghost use Rattle.block_table.specs.Table.{AreApart, IsTable, without};
ghost use Rattle.heap_cycle.specs.Collects.{Collects, condemned_at};
ghost use Rattle.heap_cycle.specs.Phases.{HasSettled, IsReclaimed, WantsCard};

use crate::barriers::{is_old, is_old_near};
use crate::open_cycle::{OpenCycle, Phase};
use az_base::BlockId;
use finalise_pass::Settled;
use heap_tables::Tables;
use write_barrier::Cards;

impl OpenCycle {
    /// Reclaims the condemned blocks to which nothing leads, with their associations; all others are older by one, and the
    /// cards are made anew. Which condemned blocks are kept, and which reclaimed, both ascending. It takes no memory, and
    /// the room for blocks that are to come is given up. O(blocks and edges, and c log c for c cards).
    pub fn reclaim(self, tables: &mut Tables) -> Settled
        requires collects { Collects tables.old (Some self) }
        requires settling { IsSome (condemned_at self.phase) }
        ensures reclaimed { IsReclaimed tables.old tables.new self result.kept.list result.reclaimed.list }
        ensures collects { Collects tables.new None }
    {
        tables.are_tables();
        let settled = settled(tables, self);
        take_out(tables, settled.reclaimed.as_slice());
        remember_anew(tables);
        settled
    }
}

/// The two lists of a cycle that settles: which of its condemned blocks are kept, and which are reclaimed.
fn settled(tables: &mut Tables, cycle: OpenCycle) -> Settled
    requires collects { Collects tables.old (Some cycle) }
    requires settling { IsSome (condemned_at cycle.phase) }
    ensures { HasSettled tables.old tables.new cycle result.kept.list result.reclaimed.list }
{
    let OpenCycle { phase, .. } = cycle;
    let Phase::Settling { pass } = phase else {
        unreachable!()
    };
    pass.settle(tables)
}

/// The blocks go, with their associations, and all others are older by one Reclaim.
fn take_out(tables: &mut Tables, gone: &[BlockId])
    requires there { (b : BlockId) → IsTrue (among gone.now b) → IsSome (get tables.old.blocks.blocks b) }
    requires apart { AreApart tables.old.blocks.blocks gone.now }
    ensures blocks { (b : BlockId) → get tables.new.blocks.blocks b ≡ (if among gone.now b then None else option_map older (get tables.old.blocks.blocks b)) }
    ensures holds { tables.new.blocks.holds ≡ without tables.old.blocks.holds gone.now }
    ensures assocs { tables.new.assocs.pairs ≡ retain_keys tables.old.assocs.pairs (λ p. not (among gone.now p.0)) }
    ensures room { tables.new.blocks.room ≡ [] }
    ensures table { IsTable tables.new.blocks }
    ensures others { (tables.new.roots ≡ tables.old.roots) × (tables.new.counts ≡ tables.old.counts) × (tables.new.cards ≡ tables.old.cards) }
{
    for id in gone {
        tables.assocs.erase(*id);
    }
    tables.blocks.remove_all(gone);
    tables.blocks.age_all();
    tables.are_tables();
}

/// Exactly the old blocks are remembered that refer to one that isn't old. It takes no memory. O(blocks and edges, and
/// c log c for c cards).
fn remember_anew(tables: &mut Tables)
    requires room { length tables.old.blocks.order ≤ length tables.old.cards.list + tables.old.cards.spare }
    ensures same { tables.new ≡ record tables.old { cards = tables.new.cards } }
    ensures cards { (a : BlockId) → IsTrue (among tables.new.cards.list a) ↔ WantsCard tables.old a }
    ensures room { length tables.old.cards.list + tables.old.cards.spare ≤ length tables.new.cards.list + tables.new.cards.spare }
{
    let mut ids = tables.cards.take_room();
    let blocks = tables.blocks.len();
    for n in 0..blocks {
        if let Some(id) = card_at(tables, n) {
            ids.push_reserved(id);
        }
    }
    tables.cards = Cards::from_vec(ids);
}

/// The block at a position, if it wants a card.
fn card_at(tables: &Tables, n: u32) -> Option<BlockId>
    ensures some { IfSome result (λ id. (slice_get tables.now.blocks.order n ≡ Some id) × WantsCard tables.now id) }
    ensures none { result ≡ None → IfSome (slice_get tables.now.blocks.order n) (λ id. ¬ WantsCard tables.now id) }
{
    let id = tables.blocks.nth(n)?;
    if wants_card(tables, id, tables.blocks.hint(n)) {
        Some(id)
    } else {
        None
    }
}

/// Whether the block is old and refers to one that isn't. It isn't looked up where the hint is right. O(its edges).
fn wants_card(tables: &Tables, id: BlockId, hint: u32) -> bool
    ensures { IsTrue result ↔ WantsCard tables.now id }
{
    if !is_old_near(tables, id, hint) {
        return false;
    }
    let mut place = 0;
    while let Some(found) = tables.next_edge(id, place, hint) {
        if !is_old(tables, found.0) {
            return true;
        }
        place = found.1;
    }
    false
}
