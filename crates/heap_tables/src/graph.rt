//! The tables as a graph.
use crate::cursors::next_some;
use crate::tables::{Tables, visit_values};
use az_base::{BlockId, Mode};
use quantum_space::{Graph, Greys, Shade};

impl Graph for Tables {
    ghost use Rattle.std.specs.Prelude.{◌≡◌, ◌+◌, ◌≤◌, ◌<◌, ◌^◌, length};
    ghost use Rattle.heap_tables.specs.Graphs.{graph_of, shades_of};
    ghost use Rattle.heap_tables.specs.Unshaded.{unshaded};
    ghost use Rattle.heap_tables.specs.declared.tables.Tables.{Tables as TheTables};

    ghost shape = { graph_of };

    ghost shades = { shades_of };

    ghost Rest = { TheTables };

    ghost rest = { unshaded };

    fn block_count(&self) -> u32 {
        let _len = self.blocks.len();
        self.blocks.began()
    }

    fn block(&self, n: u32) -> Option<BlockId> {
        if n < self.blocks.began() {
            self.blocks.nth(n)
        } else {
            None
        }
    }

    fn has_block(&self, id: BlockId) -> bool {
        match self.blocks.position(id) {
            Some(n) => n < self.blocks.began(),
            None => false,
        }
    }

    fn anchor(&self, n: u64) -> Option<BlockId> {
        let mut place = 0;
        for _ in 0..n {
            match self.anchor_from(place) {
                Some(found) => place = found.1,
                None => return None,
            }
        }
        match self.anchor_from(place) {
            Some(found) => Some(found.0),
            None => None,
        }
    }

    fn anchor_from(&self, place: u64) -> Option<(BlockId, u64)> {
        let places = self.roots.as_slice();
        let roots = places.len() as u64;
        match next_some(places, place) {
            Some(found) => Some(found),
            None => match self.late_anchor_from(place.saturating_sub(roots)) {
                Some(found) => Some((found.0, found.1 + roots)),
                None => None,
            },
        }
    }

    fn remembered_count(&self) -> u64 {
        let len = self.blocks.len();
        let since = len - self.blocks.began();
        self.cards.list().len() as u64 + u64::from(since)
    }

    fn remembered(&self, n: u64) -> Option<BlockId> {
        let cards = self.cards.list();
        let count = cards.len() as u64;
        if n < count {
            return Some(cards[n as usize]);
        }
        let since = self.blocks.len() - self.blocks.began();
        let n = n - count;
        if n >= u64::from(since) {
            return None;
        }
        self.blocks.nth(self.blocks.began() + n as u32)
    }

    fn edge(&self, id: BlockId, n: u64) -> Option<BlockId> {
        let mut place = 0;
        for _ in 0..n {
            match self.edge_from(id, place) {
                Some(found) => place = found.1,
                None => return None,
            }
        }
        match self.edge_from(id, place) {
            Some(found) => Some(found.0),
            None => None,
        }
    }

    fn edge_from(&self, id: BlockId, place: u64) -> Option<(BlockId, u64)> {
        self.next_edge(id, place, 0)
    }

    fn is_young(&self, id: BlockId) -> bool {
        self.blocks.is_young(id)
    }

    fn shade(&self, id: BlockId) -> Shade {
        self.blocks.shade(id)
    }

    fn set_shade(&mut self, id: BlockId, s: Shade) {
        self.blocks.set_shade(id, s);
    }

    fn visit(&mut self, id: BlockId, mode: Mode) -> Option<u32> {
        self.blocks.visit(id, mode)
    }

    fn scan(&mut self, id: BlockId, hint: u32, mode: Mode, stack: &mut Greys) {
        self.blocks.scan(id, hint, mode, stack);
        visit_values(&mut self.blocks, &self.assocs, id, mode, stack);
    }

    fn shade_nth(&mut self, n: u32, s: Shade) {
        self.blocks.shade_nth(n, s);
    }

    fn shade_all(&mut self, s: Shade) {
        self.blocks.shade_all(s);
    }

    fn left(&self, n: u32, mode: Mode) -> Option<BlockId> {
        self.blocks.left(n, mode)
    }
}
