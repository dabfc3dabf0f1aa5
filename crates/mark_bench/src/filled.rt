//! Graphs that are filled before they are marked.
ghost use Rattle.std.specs.Prelude.{◌≡◌, ◌∷◌, [], IfOk, OnOk};
ghost use Rattle.block_layouts.specs.Layouts.{first_words, len_of};

use crate::graphs::Ends;
use az_base::{BlockId, Class, RootNo, Word};
use block_layouts::Layout;
use heap_tables::Tables;
use quantum_space::Graph;
use space_graph::SpaceGraph;
use std::alloc::{AllocError, Global};

/// A graph that takes blocks of two words, which refer to others.
pub trait Filled: Graph {
    /// A block of two null words comes. It is refused where there is one with this id.
    fn put(&mut self, alloc: Global, id: BlockId) -> Result<(), AllocError>;

    /// The words of a block refer to its ends, where these are there.
    fn link(&mut self, id: BlockId, ends: Ends);

    /// From now on a block is an anchor.
    fn hold(&mut self, id: BlockId) -> Result<(), AllocError>;

    /// All blocks are those of the next cycle.
    fn open(&mut self);
}

/// A layout of two words.
fn two_words() -> Result<Layout, AllocError> {
    match Layout::scanned(2) {
        Ok(layout) => Ok(layout),
        Err(_) => Err(AllocError),
    }
}

impl Filled for SpaceGraph {
    fn put(&mut self, _alloc: Global, id: BlockId) -> Result<(), AllocError> {
        let layout = two_words()?;
        if self.has(id) {
            return Err(AllocError);
        }
        self.unreserve();
        let Ok(()) = self.reserve(&[layout.len()]) else {
            return Err(AllocError);
        };
        let _ = self.put(id, layout);
        Ok(())
    }

    fn link(&mut self, id: BlockId, ends: Ends) {
        let thread = id.thread;
        if let Some(serial) = ends.first {
            let _ = self.refer(id, 0, BlockId { thread, serial });
        }
        if let Some(serial) = ends.second {
            let _ = self.refer(id, 1, BlockId { thread, serial });
        }
    }

    fn hold(&mut self, id: BlockId) -> Result<(), AllocError> {
        match self.anchor(id) {
            Ok(()) => Ok(()),
            Err(_) => Err(AllocError),
        }
    }

    fn open(&mut self) {
        self.begin();
    }
}

/// Room for a block of this layout, and for no other, and its first words.
fn room_for(tables: &mut Tables, alloc: Global, layout: &Layout) -> Result<Vec<Word>, AllocError>
    ensures words { IfOk result (λ w. w.items ≡ first_words layout.now) }
    ensures room { OnOk result (tables.new.blocks.room ≡ len_of layout.now ∷ []) }
    ensures blocks { tables.new.blocks.blocks ≡ tables.old.blocks.blocks }
{
    let Ok(words) = layout.first_words(alloc) else {
        return Err(AllocError);
    };
    tables.blocks.unreserve();
    match tables.blocks.reserve(&[layout.len()]) {
        Ok(()) => Ok(words),
        Err(_) => Err(AllocError),
    }
}

/// A Strong word of a block refers to a block from now on.
fn set(tables: &mut Tables, id: BlockId, at: u32, to: BlockId) {
    let hint = tables.blocks.hint_for(id);
    if tables.blocks.class_at(id, at, hint) == Some(Class::Strong) {
        tables.blocks.set_word(id, at, Word::Block(to), hint);
    }
}

impl Filled for Tables {
    fn put(&mut self, alloc: Global, id: BlockId) -> Result<(), AllocError> {
        let layout = two_words()?;
        if self.blocks.has(id) {
            return Err(AllocError);
        }
        let words = room_for(self, alloc, &layout)?;
        self.blocks.insert(id, layout, words, Vec::new(alloc), None);
        Ok(())
    }

    fn link(&mut self, id: BlockId, ends: Ends) {
        let thread = id.thread;
        if let Some(serial) = ends.first {
            set(self, id, 0, BlockId { thread, serial });
        }
        if let Some(serial) = ends.second {
            set(self, id, 1, BlockId { thread, serial });
        }
    }

    fn hold(&mut self, id: BlockId) -> Result<(), AllocError> {
        self.roots.set(RootNo(0), Some(id));
        Ok(())
    }

    fn open(&mut self) {
        self.blocks.begin();
    }
}
