//! What changes of tables and an open cycle keep. Each law is the contract of a function that does nothing.
ghost use Rattle.std.specs.Prelude.{◌≡◌, ◌<◌, ◌≤◌, ◌+◌, ℕ, [], Option, None, Some, length, map};
ghost use Rattle.std.specs.FinMap.{empty, get};
ghost use Rattle.az_base.specs.declared.block_id.BlockId.{BlockId};
ghost use Rattle.az_base.specs.declared.word.Word.{Word};
ghost use Rattle.az_base.specs.WithValue.{with_value};
ghost use Rattle.block_table.specs.Holds.{Holds};
ghost use Rattle.block_table.specs.Places.{in_word, somes};
ghost use Rattle.block_table.specs.Stored.{HeapBlock};
ghost use Rattle.block_table.specs.Table.{no_blocks, with_block};
ghost use Rattle.quantum_space.specs.Shapes.{Has};
ghost use Rattle.heap_tables.specs.declared.tables.Tables.{Tables};
ghost use Rattle.heap_cycle.specs.Barriers.{IsLive, IsWatched};
ghost use Rattle.heap_cycle.specs.Changes.{written};
ghost use Rattle.heap_cycle.specs.Collects.{Collects, collector_of};
ghost use Rattle.heap_cycle.specs.declared.open_cycle.OpenCycle.{OpenCycle as TheCycle};

/// Empty tables keep it, with no cycle open.
pub fn empty_tables_collect()
    ensures { (t : Tables) → t.blocks ≡ no_blocks → t.assocs.pairs ≡ empty → t.cards.list ≡ [] → Collects t None }
{}

/// It speaks neither of roots nor of counts nor of holds; and where there is room for each card, not of the room for blocks.
pub fn anchors_and_room_collect()
    ensures { (t u : Tables) (o : Option TheCycle) → u.blocks ≡ record t.blocks { holds = u.blocks.holds; room = u.blocks.room } → u.assocs.pairs ≡ t.assocs.pairs → u.cards.list ≡ t.cards.list → length t.blocks.order + length u.blocks.room ≤ length u.cards.list + u.cards.spare → Collects t o → Collects u o }
{}

/// A word of a block comes to refer to a block of which that was told.
pub fn a_told_word_collects()
    ensures { (t : Tables) (o : Option TheCycle) (id : BlockId) (at : ℕ) (w : Word) → Collects t o → Has t.blocks.order id → ((b : BlockId) → in_word w ≡ Some b → IsLive t o b × IsWatched t o id b) → Collects (written t id at w) o }
{}

/// An association of a block gets a value of which that was told, or none.
pub fn a_told_association_collects()
    ensures { (t u : Tables) (o : Option TheCycle) (a : BlockId) (key : ℕ) (v : Option BlockId) → u.blocks ≡ t.blocks → u.cards ≡ t.cards → u.assocs.pairs ≡ with_value t.assocs.pairs (a, key) v → Collects t o → Has t.blocks.order a → ((b : BlockId) → v ≡ Some b → IsLive t o b × IsWatched t o a b) → Collects u o }
{}

/// A young block comes in, for which there was room, and what its words refer to was enlivened.
pub fn an_added_block_collects()
    ensures { (t u : Tables) (o : Option TheCycle) (id : BlockId) (k : HeapBlock) (m : Holds) → u.blocks ≡ with_block t.blocks id k m → u.cards ≡ t.cards → u.assocs.pairs ≡ t.assocs.pairs → Collects t o → ¬ Has t.blocks.order id → get t.blocks.blocks id ≡ None → t.blocks.began ≤ length t.blocks.order → k.age ≡ 0 → 0 < length t.blocks.room → ((b : BlockId) → Has (somes (map in_word k.words)) b → IsLive t o b) → Collects u o }
{}

/// What comes in isn't shown by the collections.
pub fn an_added_block_is_not_shown()
    ensures { (t u : Tables) (o : Option TheCycle) (id : BlockId) (k : HeapBlock) (m : Holds) → u.blocks ≡ with_block t.blocks id k m → u.cards ≡ t.cards → ¬ Has t.blocks.order id → t.blocks.began ≤ length t.blocks.order → collector_of u o ≡ collector_of t o }
{}
