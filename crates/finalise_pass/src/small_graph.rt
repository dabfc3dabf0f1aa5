//! A graph of numbered blocks in memory, for tests.
ghost use Rattle.std.specs.Prelude.{◌≡◌, ◌<◌, ◌^◌, drop, length, slice_get, true};
ghost use Rattle.quantum_space.specs.Shapes.{IsNext};
ghost use Rattle.gen_marker.specs.Closure.{Stored};
ghost use Rattle.finalise_pass.specs.SmallGraphs.{numbered, small_shape, small_shades};

use az_base::{BlockId, ThreadNo};
use quantum_space::{Graph, Shade};
use std::alloc::AllocError;

/// Blocks of one thread with the serials from 0 on; those from `young_from` on are young.
#[derive(Drop)]
pub struct SmallGraph {
    pub thread: ThreadNo,
    pub shades: Vec<Shade>,
    pub edges: Vec<Vec<BlockId>>,
    pub young_from: u32,
    pub anchors: Vec<BlockId>,
    pub all_remembered: bool,
    pub some_remembered: Vec<BlockId>,
    ghost few: { length shades.items < 2 ^ 32 },
    ghost few_remembered: { length some_remembered.items < 2 ^ 32 },
}

/// The item at a place, and the place after it.
fn next_in(row: &[BlockId], place: u64) -> Option<(BlockId, u64)>
    ensures { IsNext (λ k. drop k row.now) place result }
{
    match row.get(place as usize) {
        Some(id) => Some((*id, place + 1)),
        None => None,
    }
}

impl SmallGraph {
    /// These blocks are anchors now, and no others.
    pub fn set_anchors(&mut self, anchors: Vec<BlockId>)
        ensures { (⟦<SmallGraph as Graph>⟧.shape self.new).blocks ≡ (⟦<SmallGraph as Graph>⟧.shape self.old).blocks }
    {
        self.anchors = anchors;
    }

    /// The block at a place of all of them.
    fn nth_of_all(&self, n: u64) -> Option<BlockId>
        ensures { result ≡ slice_get (⟦<SmallGraph as Graph>⟧.shape self.now).blocks n }
    {
        if n < self.block_count() as u64 {
            self.block(n as u32)
        } else {
            None
        }
    }

    /// Every block is remembered now.
    pub fn remember_all(&mut self)
        ensures blocks { (⟦<SmallGraph as Graph>⟧.shape self.new).blocks ≡ (⟦<SmallGraph as Graph>⟧.shape self.old).blocks }
        ensures all { self.new.all_remembered ≡ true }
    {
        self.all_remembered = true;
    }

    /// One more edge from a to b.
    pub fn store(&mut self, a: BlockId, b: BlockId) -> Result<(), AllocError>
        ensures stored { Stored (⟦<SmallGraph as Graph>⟧.shape self.old) (⟦<SmallGraph as Graph>⟧.shape self.new) b }
        ensures shades { ⟦<SmallGraph as Graph>⟧.shades self.new ≡ ⟦<SmallGraph as Graph>⟧.shades self.old }
    {
        let at = a.serial as usize;
        if at < self.edges.len() {
            self.edges[at].push(b)?;
        }
        Ok(())
    }
}

impl Graph for SmallGraph {
    ghost use Rattle.std.specs.Prelude.{ℕ, length, map};
    ghost use Rattle.finalise_pass.specs.SmallGraphs.{small_shape, small_shades};

    ghost shape = { λ g. small_shape g.thread (length g.shades.items) (map (λ e. e.items) g.edges.items) g.young_from g.anchors.items g.all_remembered g.some_remembered.items };

    ghost shades = { λ g. small_shades g.thread g.shades.items };

    ghost Rest = { ℕ };

    ghost rest = { λ g. g.young_from };

    fn block_count(&self) -> u32 {
        self.shades.len() as u32
    }

    fn block(&self, n: u32) -> Option<BlockId> {
        if (n as usize) < self.shades.len() {
            Some(BlockId {
                thread: self.thread,
                serial: n,
            })
        } else {
            None
        }
    }

    fn has_block(&self, id: BlockId) -> bool {
        id.thread == self.thread && (id.serial as usize) < self.shades.len()
    }

    fn anchor(&self, n: u64) -> Option<BlockId> {
        self.anchors.get(n as usize).copied()
    }

    fn anchor_from(&self, place: u64) -> Option<(BlockId, u64)> {
        next_in(self.anchors.as_slice(), place)
    }

    fn remembered_count(&self) -> u64 {
        if self.all_remembered {
            self.shades.len() as u64
        } else {
            self.some_remembered.len() as u64
        }
    }

    fn remembered(&self, n: u64) -> Option<BlockId> {
        if self.all_remembered {
            self.nth_of_all(n)
        } else {
            self.some_remembered.get(n as usize).copied()
        }
    }

    fn edge(&self, id: BlockId, n: u64) -> Option<BlockId> {
        if id.thread == self.thread && (id.serial as usize) < self.shades.len() {
            match self.edges.get(id.serial as usize) {
                Some(row) => row.get(n as usize).copied(),
                None => None,
            }
        } else {
            None
        }
    }

    fn edge_from(&self, id: BlockId, place: u64) -> Option<(BlockId, u64)> {
        if id.thread == self.thread && (id.serial as usize) < self.shades.len() {
            match self.edges.get(id.serial as usize) {
                Some(row) => next_in(row.as_slice(), place),
                None => None,
            }
        } else {
            None
        }
    }

    fn is_young(&self, id: BlockId) -> bool {
        self.young_from <= id.serial
    }

    fn shade(&self, id: BlockId) -> Shade {
        if id.thread == self.thread {
            match self.shades.get(id.serial as usize) {
                Some(shade) => *shade,
                None => Shade::White,
            }
        } else {
            Shade::White
        }
    }

    fn set_shade(&mut self, id: BlockId, s: Shade) {
        let at = id.serial as usize;
        if at < self.shades.len() {
            self.shades[at] = s;
        }
    }
}
