//! What the tables are to the states for which they stand. Each law is the contract of a function that does nothing.
ghost use Rattle.std.specs.Prelude.{ℕ, Option, ◌≤◌, ◌++◌, [], ◌∷◌, map, length, slice_set};
ghost use Rattle.std.specs.Option.{option_to_list};
ghost use Rattle.az_base.specs.declared.action.Mode.{Mode};
ghost use Rattle.az_base.specs.declared.block_id.BlockId.{BlockId};
ghost use Rattle.az_base.specs.declared.word.Word.{Word};
ghost use Rattle.az_base.specs.WithValue.{with_value};
ghost use Rattle.block_table.specs.Holds.{Holds};
ghost use Rattle.block_table.specs.Places.{somes, in_word};
ghost use Rattle.block_table.specs.Stored.{HeapBlock};
ghost use Rattle.block_table.specs.Table.{with_block};
ghost use Rattle.cycle_laws.specs.Shown.{Shows};
ghost use Rattle.gen_marker.specs.Tight.{Changed};
ghost use Rattle.quantum_space.specs.Shapes.{Has};
ghost use Rattle.zone_model.specs.State.{State, with_edit};
ghost use Rattle.heap_tables.specs.Graphs.{graph_of};
ghost use Rattle.heap_tables.specs.Standing.{AreTables, HoldsTell, TablesStand};
ghost use Rattle.heap_tables.specs.declared.tables.Tables.{Tables as TheTables};

/// The graph shows each state for which the tables stand, where the holds tell what threads hold.
pub fn tables_show_their_states()
    ensures { (m : Mode) (t : TheTables) (z : State) → AreTables t → TablesStand t z → HoldsTell t z → Shows m z (graph_of t) }
{}

/// Where a word is written, the one new edge leads to what the word holds now.
pub fn a_written_word_changes_the_graph()
    ensures { (t : TheTables) (id : BlockId) (at : ℕ) (w : Word) → Changed (graph_of t) (graph_of (record t { blocks = record t.blocks { blocks = with_edit t.blocks.blocks id (λ (k : HeapBlock). record k { words = slice_set k.words at w }) } })) (option_to_list (in_word w)) }
{}

/// Where a block comes in, the new edges lead to what its words hold, and the blocks at Begin stay.
pub fn an_added_block_changes_the_graph()
    ensures { (t : TheTables) (id : BlockId) (k : HeapBlock) (m : Holds) → ¬ Has t.blocks.order id → t.blocks.began ≤ length t.blocks.order → Changed (graph_of t) (graph_of (record t { blocks = with_block t.blocks id k m })) (somes (map in_word k.words)) }
{}

/// Where an association gets a value, the one new edge leads to the value; where it goes, there is none.
pub fn an_association_changes_the_graph()
    ensures { (t : TheTables) (a : BlockId) (key : ℕ) (v : Option BlockId) → Changed (graph_of t) (graph_of (record t { assocs = record t.assocs { pairs = with_value t.assocs.pairs (a, key) v } })) (option_to_list v) }
{}
