//! The weak table.
ghost use Rattle.std.specs.Prelude.{◌≡◌, None, Some, IfSome, IsOk, OnOk, OnErr};
ghost use Rattle.std.specs.FinMap as map;
ghost use Rattle.std.specs.FinMap.{retain_keys};

use crate::groups::Groups;
use az_base::{BlockId, NoMemory, WeakLoc};
use std::alloc::Global;
use std::marker::Model;

/// The block that each weak location shows, and the block for which there is room for one location more, if there is
/// one. A location that isn't there shows null.
#[derive(Drop)]
pub struct Weak {
    // Each location that shows a block, in the group of that block.
    shown: Groups,
    // Those of them that are words, in the group of the block whose words they are.
    words: Groups,
    ready: Option<BlockId>,
}

impl Model for Weak {
    ghost use Rattle.weak_table.specs.Shows.{Shows, coded_shows, IsWeak};

    ghost Value = { Shows };

    ghost coded = { coded_shows };

    ghost view = { λ w. record { shown = w.shown.groups; ready = w.ready } };

    ghost invariant = { λ w. IsWeak w.shown w.words w.ready };
}

impl Weak {
    ghost use Rattle.std.specs.Prelude.{not};
    ghost use Rattle.az_base.specs.WithValue.{with_value};
    ghost use Rattle.weak_table.specs.Shows.{shows, shows_one, is_word_of};

    /// Every location shows null.
    pub fn new(alloc: Global) -> Weak
        ensures shown { result.shown ≡ map.empty }
        ensures ready { result.ready ≡ None }
    {
        Weak {
            shown: Groups::new(alloc),
            words: Groups::new(alloc),
            ready: None,
        }
    }

    /// How many locations show a block. O(1).
    pub fn registered(&self) -> usize
        ensures { result ≡ map.len self.now.shown }
    {
        self.shown.len()
    }

    /// The block that the location shows; None exactly where it shows null. O(1).
    pub fn read(&self, loc: WeakLoc) -> Option<BlockId>
        ensures { result ≡ map.get self.now.shown loc }
    {
        self.shown.group_of(loc)
    }

    /// Takes room for one more location that shows the block, if there is none. O(1), and O(locations) where a table or a
    /// list grows.
    pub fn reserve_one(&mut self, value: BlockId) -> Result<(), NoMemory>
        ensures ok { OnOk result (self.new ≡ record self.old { ready = Some value }) }
        ensures err { OnErr result (self.new ≡ self.old) }
        ensures sure { self.old.ready ≡ Some value → IsOk result }
    {
        let value = &value;
        if self.ready == Some(*value) {
            return Ok(());
        }
        self.shown.reserve_one()?;
        self.words.reserve_one()?;
        self.ready = Some(*value);
        Ok(())
    }

    /// The location shows the block, for which there is room, or null. O(1), without memory.
    pub fn assign(&mut self, loc: WeakLoc, value: Option<BlockId>)
        requires { IfSome value (λ v. self.old.ready ≡ Some v) }
        ensures shown { self.new.shown ≡ with_value self.old.shown loc value }
        ensures ready { self.new.ready ≡ None }
    {
        let loc = &loc;
        self.clear(*loc);
        match value {
            Some(value) => self.show(*loc, value),
            None => self.ready = None,
        }
    }

    /// Each location that shows one of the blocks shows null. O(blocks and such locations), without memory.
    pub fn condemn(&mut self, ids: &[BlockId])
        ensures shown { self.new.shown ≡ retain_keys self.old.shown (λ l. not (shows_one ids.now (map.get self.old.shown l))) }
        ensures ready { self.new.ready ≡ None }
    {
        for id in ids {
            self.turn_null(*id);
        }
        self.ready = None;
    }

    /// Each location that is a word of the block shows null. O(such locations), without memory.
    pub fn forget_in(&mut self, block: BlockId)
        ensures shown { self.new.shown ≡ retain_keys self.old.shown (λ l. not (is_word_of block l)) }
        ensures ready { self.new.ready ≡ None }
    {
        while let Some(word) = self.words.some_of(block) {
            self.clear(word);
        }
        self.ready = None;
    }

    // Each location that shows the block shows null.
    fn turn_null(&mut self, id: BlockId)
        ensures shown { self.new.shown ≡ retain_keys self.old.shown (λ l. not (shows id (map.get self.old.shown l))) }
        ensures ready { self.new.ready ≡ self.old.ready }
    {
        while let Some(loc) = self.shown.some_of(id) {
            self.clear(loc);
        }
    }

    // The location shows null.
    fn clear(&mut self, loc: WeakLoc)
        ensures shown { self.new.shown ≡ map.remove self.old.shown loc }
        ensures ready { self.new.ready ≡ self.old.ready }
    {
        let loc = &loc;
        self.shown.remove(*loc);
        self.words.remove(*loc);
    }

    // A location that shows null shows the block.
    fn show(&mut self, loc: WeakLoc, value: BlockId)
        requires ready { self.old.ready ≡ Some value }
        requires null { map.get self.old.shown loc ≡ None }
        ensures shown { self.new.shown ≡ map.insert self.old.shown loc value }
        ensures ready { self.new.ready ≡ None }
    {
        let loc = &loc;
        self.ready = None;
        self.shown.add(*loc, value);
        if let WeakLoc::Word(block, _) = *loc {
            self.words.add(*loc, block);
        }
    }
}
