//! What a collection sees of the graph.
ghost use Rattle.std.specs.Prelude.{◌≡◌, ◌-◌, [], drop, length, MatchOption};
ghost use Rattle.quantum_space.specs.Shapes.{IsNext};

use crate::graph::{SpaceGraph, hint_of};
use az_base::{BlockId, Mode, Word};
use quantum_space::{Graph, Greys, Shade};

/// The item at a place, and the place after it.
fn next_in(row: &[BlockId], place: u64) -> Option<(BlockId, u64)>
    ensures { IsNext (λ k. drop k row.now) place result }
{
    match row.get(place as usize) {
        Some(id) => Some((*id, place + 1)),
        None => None,
    }
}

impl Graph for SpaceGraph {
    ghost use Rattle.space_graph.specs.Graphs.{Graph', rest_of, shades_of, shape_of};

    ghost shape = { shape_of };

    ghost shades = { shades_of };

    ghost Rest = { Graph' };

    ghost rest = { rest_of };

    fn block_count(&self) -> u32 {
        let _ = self.rows.len();
        self.began
    }

    fn block(&self, n: u32) -> Option<BlockId> {
        match self.row(n) {
            Some(row) => Some(row.0),
            None => None,
        }
    }

    fn has_block(&self, id: BlockId) -> bool {
        match self.rows.position(id) {
            Some(n) => n < self.began as usize,
            None => false,
        }
    }

    fn anchor(&self, n: u64) -> Option<BlockId> {
        self.anchors.get(n as usize).copied()
    }

    fn anchor_from(&self, place: u64) -> Option<(BlockId, u64)> {
        next_in(self.anchors.as_slice(), place)
    }

    fn remembered_count(&self) -> u64 {
        self.remembered.len() as u64
    }

    fn remembered(&self, n: u64) -> Option<BlockId> {
        self.remembered.get(n as usize).copied()
    }

    fn edge(&self, id: BlockId, n: u64) -> Option<BlockId> {
        let mut place = 0;
        for passed in 0..n {
            let _ = passed;
            match self.edge_from(id, place) {
                Some(found) => place = found.1,
                None => return None,
            }
        }
        match self.edge_from(id, place) {
            Some(found) => Some(found.0),
            None => None,
        }
    }

    fn edge_from(&self, id: BlockId, place: u64) -> Option<(BlockId, u64)> {
        let Some(spot) = self.find(id) else {
            return None;
        };
        let len = self.space.len_in(spot);
        let Ok(from) = u32::try_from(place) else {
            return None;
        };
        for i in from..len {
            if let Word::Block(end) = self.space.word_in(spot, i).word() {
                return Some((end, i as u64 + 1));
            }
        }
        None
    }

    fn is_young(&self, id: BlockId) -> bool {
        match self.find(id) {
            Some(spot) => self.space.is_young_in(spot),
            None => false,
        }
    }

    fn shade(&self, id: BlockId) -> Shade {
        match self.find(id) {
            Some(spot) => self.space.shade_in(spot),
            None => Shade::White,
        }
    }

    fn set_shade(&mut self, id: BlockId, s: Shade) {
        if let Some(spot) = self.find(id) {
            self.shade_at(spot, id, s);
        }
    }

    fn visit(&mut self, id: BlockId, mode: Mode) -> Option<u32> {
        let Some(spot) = self.find(id) else {
            return None;
        };
        if self.grey_at(spot, id, mode) {
            Some(hint_of(spot))
        } else {
            None
        }
    }

    fn blacken(&mut self, id: BlockId, hint: u32) {
        if let Some(spot) = self.find_near(id, hint) {
            self.shade_at(spot, id, Shade::Black);
        }
    }

    #[inline(always)]
    fn scan(&mut self, id: BlockId, hint: u32, mode: Mode, stack: &mut Greys) {
        match self.find_small(id, hint) {
            Some(spot) => self.scan_at(spot, id, mode, stack),
            None => self.scan_any(id, hint, mode, stack),
        }
    }

    fn shade_nth(&mut self, n: u32, s: Shade) {
        if let Some(row) = self.row(n) {
            self.shade_at(row.1, row.0, s);
        }
    }

    fn shade_all(&mut self, s: Shade) {
        match s {
            Shade::White => self.whiten_begun(),
            Shade::Grey => self.shade_each(Shade::Grey),
            Shade::Black => self.shade_each(Shade::Black),
        }
    }

    fn left(&self, n: u32, mode: Mode) -> Option<BlockId> {
        match self.row(n) {
            Some(row) => {
                if self.is_left_at(row.1, row.0, mode) {
                    Some(row.0)
                } else {
                    None
                }
            }
            None => None,
        }
    }
}
