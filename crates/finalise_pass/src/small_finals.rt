//! Finalisers of numbered blocks in memory, for tests.
ghost use Rattle.std.specs.Prelude.{◌≡◌, length};

use crate::finals::Finals;
use az_base::{Action, BlockId, ThreadNo};
use zone_model::ActionList;

/// The actions of one thread's blocks, the roots, and words that each of these blocks holds.
#[derive(Drop)]
pub struct SmallFinals {
    pub thread: ThreadNo,
    pub roots: Vec<Option<BlockId>>,
    pub actions: Vec<ActionList>,
    pub words: Vec<BlockId>,
    pub done: Vec<bool>,
    ghost all_roots: { length roots.items ≡ 256 },
    ghost alike: { length actions.items ≡ length done.items },
}

impl Finals for SmallFinals {
    ghost use Rattle.std.specs.Prelude.{ℕ};
    ghost use Rattle.finalise_pass.specs.SmallGraphs.{small_finals};

    ghost finals = { λ f. small_finals f.thread f.roots.items f.actions.items f.words.items f.done.items };

    ghost Rest = { ℕ };

    ghost rest = { λ f. f.thread };

    fn action(&self, id: BlockId, n: u32) -> Option<Action> {
        if id.thread == self.thread {
            match self.actions.get(id.serial as usize) {
                Some(list) => list.as_slice().get(n as usize).copied(),
                None => None,
            }
        } else {
            None
        }
    }

    fn done(&self, id: BlockId) -> bool {
        if id.thread == self.thread {
            match self.done.get(id.serial as usize) {
                Some(done) => *done,
                None => false,
            }
        } else {
            false
        }
    }

    fn run(&mut self, id: BlockId, action: Action) {
        match action {
            Action::Keep(root) => self.roots[root.0 as usize] = Some(id),
            Action::Pass(root, at) => {
                let word = self.words.get(at as usize).copied();
                self.roots[root.0 as usize] = word;
            }
        }
    }

    fn set_done(&mut self, id: BlockId) {
        let at = id.serial as usize;
        if at < self.done.len() {
            self.done[at] = true;
        }
    }
}
