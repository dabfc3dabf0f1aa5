//! Marking: the table as a graph of its blocks and of what their words refer to.
ghost use Rattle.std.specs.Prelude.{◌≡◌, MatchOption, is_some, slice_get, filter};
ghost use Rattle.std.specs.Option.{option_to_list};
ghost use Rattle.az_base.specs.declared.block_id.BlockId.{BlockId as ABlockId};
ghost use Rattle.quantum_space.specs.Shapes.{Has, ScansOnto, Visits, VisitsOnto, WithShade, is_left_white};
ghost use Rattle.block_table.specs.Marking.{graph_in, marks_in};

use crate::table::BlockTable;
use az_base::{BlockId, Mode};
use quantum_space::{Graph, Greys, Shade};

impl BlockTable {
    /// The shade of a block; white where it isn't there. O(1) expected.
    pub fn shade(&self, id: BlockId) -> Shade
        ensures { result ≡ marks_in self.now id }
    {
        self.graph.shade(id)
    }

    /// Another shade of one of the blocks as the last cycle began. O(1) expected.
    pub fn set_shade(&mut self, id: BlockId, shade: Shade)
        requires { Has (graph_in self.old).blocks id }
        ensures shade { WithShade (marks_in self.old) id shade (marks_in self.new) }
        ensures rest { self.new ≡ record self.old { shades = self.new.shades } }
    {
        self.graph.set_shade(id, shade);
    }

    /// Another shade of the n-th of these blocks, if there is one. O(1).
    pub fn shade_nth(&mut self, n: u32, shade: Shade)
        ensures nth { MatchOption (slice_get (graph_in self.old).blocks n) (self.new ≡ self.old) (λ id. WithShade (marks_in self.old) id shade (marks_in self.new)) }
        ensures rest { self.new ≡ record self.old { shades = self.new.shades } }
    {
        self.graph.shade_nth(n, shade);
    }

    /// Another shade of each of these blocks. O(their number); for white O(quanta of the subzones) where they are all.
    pub fn shade_all(&mut self, shade: Shade)
        ensures each { (b : ABlockId) → Has (graph_in self.old).blocks b → marks_in self.new b ≡ shade }
        ensures outside { (b : ABlockId) → ¬ Has (graph_in self.old).blocks b → marks_in self.new b ≡ marks_in self.old b }
        ensures rest { self.new ≡ record self.old { shades = self.new.shades } }
    {
        self.graph.shade_all(shade);
    }

    /// The n-th of these blocks, where it is white, and one that the mode takes. O(1).
    pub fn left(&self, n: u32, mode: Mode) -> Option<BlockId>
        ensures { option_to_list result ≡ filter (is_left_white mode (graph_in self.now) (marks_in self.now)) (option_to_list (slice_get (graph_in self.now).blocks n)) }
    {
        self.graph.left(n, mode)
    }

    /// Greys a block where it is white, one of those as the last cycle began, and one that the mode takes. The answer is
    /// then a hint where it lies; else it is None, and nothing changes. O(1) expected.
    pub fn visit(&mut self, id: BlockId, mode: Mode) -> Option<u32>
        ensures visits { Visits mode (graph_in self.old) id (is_some result) (marks_in self.old) (marks_in self.new) }
        ensures rest { self.new ≡ record self.old { shades = self.new.shades } }
    {
        self.graph.visit(id, mode)
    }

    /// Makes one of these blocks black, visits the blocks to which its words refer, in their order, and puts those that
    /// turn grey onto the stack, where it has room for them. O(words of the block), and a look-up for each word that
    /// doesn't know yet where its block lies.
    pub fn scan(&mut self, id: BlockId, hint: u32, mode: Mode, stack: &mut Greys)
        requires { Has (graph_in self.old).blocks id }
        ensures scans { ScansOnto mode (graph_in self.old) id (marks_in self.old) stack.old (marks_in self.new) stack.new }
        ensures rest { self.new ≡ record self.old { shades = self.new.shades } }
    {
        self.graph.scan(id, hint, mode, stack);
    }

    /// Visits a block, and puts it onto the stack where it turns grey, if there is room for it.
    pub fn visit_onto(&mut self, id: BlockId, mode: Mode, stack: &mut Greys)
        ensures visits { VisitsOnto mode (graph_in self.old) id (marks_in self.old) stack.old (marks_in self.new) stack.new }
        ensures rest { self.new ≡ record self.old { shades = self.new.shades } }
    {
        if let Some(hint) = self.visit(id, mode) {
            stack.push_within(id, hint);
        }
    }
}
