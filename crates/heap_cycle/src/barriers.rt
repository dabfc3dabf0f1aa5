//! What a call tells the collections of a heap before it changes the tables. Each of these keeps what tables and an open
//! cycle have to keep, so the change that follows does so where it adds no edges but those that were told.
ghost use Rattle.std.specs.Prelude.{◌≡◌, ◌≤◌, ◌+◌, ◌⊎◌, IsTrue, IfSome, OnOk, OnErr, Some, [], ◌∷◌, length};
ghost use Rattle.az_base.specs.Ids.{among};
ghost use Rattle.az_base.specs.declared.block_id.BlockId.{BlockId};
ghost use Rattle.heap_tables.specs.Unshaded.{unshaded};
ghost use Rattle.quantum_space.specs.Shapes.{Has};
ghost use Rattle.heap_cycle.specs.Barriers.{IsLive, IsWatched, OnlyNotes, Remembers, StoreWantsCard, is_condemned_by, seen_by_barrier};
ghost use Rattle.heap_cycle.specs.Collects.{Collects, collector_of, is_old_at};
ghost use Rattle.heap_cycle.specs.Livening.{Livens, blocks_in, of_option};

use crate::open_cycle::{OpenCycle, Phase};
use az_base::{BlockId, NoMemory, Word};
use heap_tables::Tables;
use write_barrier::on_store;

/// While the cycle marks, the block is enlivened. O(1) expected.
#[inline(always)]
pub fn enliven(tables: &mut Tables, cycle: &mut Option<OpenCycle>, value: Option<BlockId>)
    requires { Collects tables.old cycle.old }
    ensures collects { Collects tables.new cycle.new }
    ensures same { unshaded tables.new ≡ unshaded tables.old }
    ensures livens { Livens (collector_of tables.old cycle.old) (collector_of tables.new cycle.new) (of_option value) [] }
    ensures live { IfSome value (IsLive tables.new cycle.new) }
{
    if let (Some(open), Some(id)) = (cycle, value) {
        enliven_in(tables, open, id);
    }
}

/// While the open cycle marks, the block is enlivened. O(1) expected.
fn enliven_in(tables: &mut Tables, cycle: &mut OpenCycle, id: BlockId)
    requires { Collects tables.old (Some cycle.old) }
    ensures collects { Collects tables.new (Some cycle.new) }
    ensures same { unshaded tables.new ≡ unshaded tables.old }
    ensures livens { Livens (collector_of tables.old (Some cycle.old)) (collector_of tables.new (Some cycle.new)) (of_option (Some id)) [] }
    ensures live { IsLive tables.new (Some cycle.new) id }
{
    match &mut cycle.phase {
        Phase::Marking { marker, .. } => marker.enliven(tables, id),
        Phase::Settling { .. } => {}
    }
}

/// While the cycle marks, each block to which one of the words refers is enlivened. O(words) expected.
pub fn enliven_words(tables: &mut Tables, cycle: &mut Option<OpenCycle>, words: &[Word])
    requires { Collects tables.old cycle.old }
    ensures collects { Collects tables.new cycle.new }
    ensures same { unshaded tables.new ≡ unshaded tables.old }
    ensures livens { Livens (collector_of tables.old cycle.old) (collector_of tables.new cycle.new) (blocks_in words.now) [] }
    ensures live { (b : BlockId) → IsTrue (among (blocks_in words.now) b) → IsLive tables.new cycle.new b }
{
    for word in words {
        enliven_word(tables, cycle, *word);
    }
}

/// While the cycle marks, the block to which the word refers is enlivened. O(1) expected.
fn enliven_word(tables: &mut Tables, cycle: &mut Option<OpenCycle>, word: Word)
    requires { Collects tables.old cycle.old }
    ensures collects { Collects tables.new cycle.new }
    ensures same { unshaded tables.new ≡ unshaded tables.old }
    ensures livens { Livens (collector_of tables.old cycle.old) (collector_of tables.new cycle.new) (blocks_in (word ∷ [])) [] }
{
    if let Word::Block(id) = word {
        enliven(tables, cycle, Some(id));
    }
}

/// A block is about to refer to the value: it is remembered where it is old and the value isn't, or where the value is
/// condemned. The block isn't looked up where the hint is right. O(log condemned), and O(cards) where it is remembered.
#[inline(always)]
pub fn remember(
    tables: &mut Tables,
    cycle: &Option<OpenCycle>,
    into: BlockId,
    value: Option<BlockId>,
    hint: u32,
)
    requires collects { Collects tables.old cycle.now }
    requires there { Has tables.old.blocks.order into }
    ensures collects { Collects tables.new cycle.now }
    ensures same { tables.new ≡ record tables.old { cards = tables.new.cards } }
    ensures remembers { Remembers tables.old tables.new into }
    ensures needed { (tables.new ≡ tables.old) ⊎ StoreWantsCard tables.old cycle.now into value }
    ensures watched { IfSome value (IsWatched tables.new cycle.now into) }
{
    let Some(value) = value else {
        return;
    };
    let phase = phase_of(cycle);
    let condemned = is_condemned(cycle, value);
    let old = is_old_near(tables, into, hint);
    // Whether the value is old counts only where the other one is.
    let value_old = old && is_old(tables, value);
    let effect = on_store(phase, old, value_old, condemned);
    if effect.remember {
        // No block is remembered twice, so there is room for one that isn't remembered yet.
        let _cards = tables.cards.list();
        tables.cards.remember(into);
    }
}

/// A word or an association of a block is about to refer to the value: all that is told for it. The block isn't looked up
/// where the hint is right.
#[inline(always)]
pub fn tell_store(
    tables: &mut Tables,
    cycle: &mut Option<OpenCycle>,
    into: BlockId,
    value: Option<BlockId>,
    hint: u32,
)
    requires collects { Collects tables.old cycle.old }
    requires there { Has tables.old.blocks.order into }
    ensures collects { Collects tables.new cycle.new }
    ensures same { OnlyNotes tables.old tables.new }
    ensures livens { Livens (collector_of tables.old cycle.old) (collector_of tables.new cycle.new) (of_option value) (of_option (Some into)) }
    ensures live { IfSome value (IsLive tables.new cycle.new) }
    ensures watched { IfSome value (IsWatched tables.new cycle.new into) }
{
    let value = &value;
    enliven(tables, cycle, *value);
    remember(tables, cycle, into, *value, hint);
}

/// Whether the block is old. O(1) expected.
#[inline(always)]
pub fn is_old(tables: &Tables, id: BlockId) -> bool
    ensures { result ≡ is_old_at tables.now.blocks.blocks id }
{
    is_old_near(tables, id, 0)
}

/// Whether the block is old. It isn't looked up where the hint is right.
pub fn is_old_near(tables: &Tables, id: BlockId, hint: u32) -> bool
    ensures { result ≡ is_old_at tables.now.blocks.blocks id }
{
    tables.blocks.is_old(id, hint)
}

/// Whether the open cycle has condemned the block. O(log condemned).
pub fn is_condemned(cycle: &Option<OpenCycle>, id: BlockId) -> bool
    ensures { result ≡ is_condemned_by cycle.now id }
{
    match cycle {
        Some(open) => match &open.phase {
            Phase::Marking { .. } => false,
            Phase::Settling { pass } => pass.has(id),
        },
        None => false,
    }
}

/// How far the collection is, as the barrier sees it.
fn phase_of(cycle: &Option<OpenCycle>) -> write_barrier::Phase
    ensures { result ≡ seen_by_barrier cycle.now }
{
    match cycle {
        Some(open) => match &open.phase {
            Phase::Marking { .. } => write_barrier::Phase::Marking(open.mode),
            Phase::Settling { .. } => write_barrier::Phase::Settling,
        },
        None => write_barrier::Phase::Idle,
    }
}

/// Room to remember each block, and so many that are still to come. O(1), and O(cards) where their list grows.
pub fn reserve_cards(tables: &mut Tables, more: usize) -> Result<(), NoMemory>
    ensures ok { OnOk result (length tables.new.blocks.order + more ≤ length tables.new.cards.list + tables.new.cards.spare) }
    ensures same { tables.new ≡ record tables.old { cards = tables.new.cards } }
    ensures list { tables.new.cards.list ≡ tables.old.cards.list }
    ensures more { tables.old.cards.spare ≤ tables.new.cards.spare }
{
    let blocks = u64::from(tables.blocks.len());
    let cards = tables.cards.list().len() as u64;
    let missing = blocks.saturating_add(more as u64).saturating_sub(cards);
    let Ok(missing) = u32::try_from(missing) else {
        return Err(NoMemory);
    };
    tables.cards.reserve(missing)
}
