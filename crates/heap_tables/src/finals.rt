//! The tables as what finalisers run over.
ghost use Rattle.std.specs.Prelude.{◌≡◌, option_and_then, slice_get};
ghost use Rattle.block_table.specs.Places.{in_word};
ghost use Rattle.block_table.specs.Table.{words_in};

use crate::tables::Tables;
use az_base::{Action, BlockId, Word};
use finalise_pass::Finals;

impl Tables {
    /// The block to which the word at a place refers; None too where there is no such word.
    fn referent(&self, id: BlockId, at: u32) -> Option<BlockId>
        ensures { result ≡ option_and_then in_word (slice_get (words_in self.now.blocks.blocks id) at) }
    {
        match self.blocks.word(id, at, 0) {
            Some(word) => in_word(word),
            None => None,
        }
    }
}

/// The block to which a word refers, if it refers to one.
fn in_word(word: Word) -> Option<BlockId>
    ensures { result ≡ in_word word }
{
    match word {
        Word::Block(id) => Some(id),
        Word::Null | Word::Number(_) => None,
    }
}

impl Finals for Tables {
    ghost use Rattle.heap_tables.specs.Running.{finals_of, unrun};
    ghost use Rattle.heap_tables.specs.declared.tables.Tables.{Tables as TheTables};

    ghost finals = { finals_of };

    ghost Rest = { TheTables };

    ghost rest = { unrun };

    fn action(&self, id: BlockId, n: u32) -> Option<Action> {
        self.blocks.action(id, n)
    }

    fn done(&self, id: BlockId) -> bool {
        self.blocks.is_finalised(id)
    }

    fn run(&mut self, id: BlockId, action: Action) {
        match action {
            Action::Keep(root) => self.roots.set(root, Some(id)),
            Action::Pass(root, at) => {
                let value = self.referent(id, at);
                self.roots.set(root, value);
            }
        }
    }

    fn set_done(&mut self, id: BlockId) {
        self.blocks.set_finalised(id);
    }
}
