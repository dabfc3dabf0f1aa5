//! The admin bytes of the subzones of one kind, and where a search in them may begin.
//!
//! For each length of a hole, in quanta, a cursor says which subzones have none, and in each subzone a further one says
//! where none begins. A search begins at its cursors and moves them on. Quanta that are taken leave them right, since
//! there are only fewer holes then; quanta that are freed take those of their subzone back. So nothing is searched twice
//! for a length between two frees.
ghost use Rattle.std.specs.Prelude.{ℕ, ◌≡◌, ◌<◌, ◌≤◌, ◌+◌, ◌*◌, ◌^◌, max, length, get_or, set, MatchOption, OnOk, OnErr, []};
ghost use Rattle.std.specs.Vec.{vec_capacity};
ghost use Rattle.quantum_space.specs.Holes.{IsFirstHole, NoHoleWithin};
ghost use Rattle.quantum_space.specs.AdminBytes.{aged, whitened};
ghost use Rattle.quantum_space.specs.AdminMaps.{AllAre, HasNoHole, IsChanged, IsFirstIn, IsFirstOf, IsGrown, IsLength, IsRenoted, SameOutside, subzone_bytes, with_bytes};

use crate::admin::{aged, whitened};
use crate::holes::first_hole;
use az_base::NoMemory;
use std::alloc::Global;
use std::marker::Model;

/// A cursor for each length from 0 to 32.
const LENGTHS: usize = 33;

/// The admin bytes of all subzones of one kind, one after another.
#[derive(Drop)]
pub struct AdminMap {
    size: usize,
    subzones: usize,
    bytes: Vec<u8>,
    low: Vec<usize>,
    first: [usize; 33],
}

impl Model for AdminMap {
    ghost use Rattle.quantum_space.specs.AdminMaps.{AdminMap', AreCursors};

    ghost Value = { AdminMap' };

    ghost view = { λ m. record { size = m.size; subzones = m.subzones; bytes = m.bytes.items } };

    ghost invariant = { λ m. AreCursors (record { size = m.size; subzones = m.subzones; bytes = m.bytes.items }) m.low.items m.first };
}

impl AdminMap {
    /// No subzone; each that comes has so many quanta.
    pub fn new(alloc: Global, size: usize) -> AdminMap
        ensures size { result.size ≡ size }
        ensures subzones { result.subzones ≡ 0 }
        ensures bytes { result.bytes ≡ [] }
    {
        AdminMap {
            size,
            subzones: 0,
            bytes: Vec::new(alloc),
            low: Vec::new(alloc),
            first: [0; 33],
        }
    }

    /// The first hole of a length in a subzone. O(quanta behind its cursor).
    fn hole_in(&mut self, subzone: usize, len: usize) -> Option<usize>
        requires there { subzone < self.old.subzones }
        requires length { IsLength len }
        ensures found { MatchOption result (HasNoHole self.old len subzone) (λ q. IsFirstIn self.old len subzone q) }
        ensures same { self.new ≡ self.old }
    {
        let base = subzone * self.size;
        let cursor = subzone * LENGTHS + len;
        let from = self.low[cursor];
        match first_hole(&self.bytes, len, base + from, base + self.size) {
            Some(at) => {
                self.low[cursor] = at - base;
                Some(at - base)
            }
            None => {
                self.low[cursor] = self.size;
                None
            }
        }
    }

    /// A number of subzones that have no hole of a length.
    fn passed(&self, len: usize) -> usize
        requires { IsLength len }
        ensures within { result ≤ self.now.subzones }
        ensures none { (s : ℕ) → s < result → HasNoHole self.now len s }
    {
        self.first[len]
    }

    /// From now on a search for a hole of this length begins at this subzone.
    fn pass(&mut self, len: usize, subzone: usize)
        requires length { IsLength len }
        requires within { subzone ≤ self.old.subzones }
        requires none { (s : ℕ) → s < subzone → HasNoHole self.old len s }
        ensures { self.new ≡ self.old }
    {
        self.first[len] = subzone;
    }

    /// The first hole of this length in the first subzone that has one: its subzone, and its first quantum there. It
    /// takes no memory. O(subzones, and quanta that no search for this length has passed over since the last quantum
    /// before them in their subzone was freed).
    pub fn find(&mut self, len: usize) -> Option<(usize, usize)>
        requires { IsLength len }
        ensures found { MatchOption result ((s : ℕ) → s < self.old.subzones → HasNoHole self.old len s) (λ found. IsFirstOf self.old len found) }
        ensures same { self.new ≡ self.old }
    {
        let from = self.passed(len);
        let subzones = self.subzones;
        for subzone in from..subzones {
            if let Some(quantum) = self.hole_in(subzone, len) {
                self.pass(len, subzone);
                return Some((subzone, quantum));
            }
        }
        self.pass(len, subzones);
        None
    }
}

impl AdminMap {
    /// How many quanta there are in all. O(1).
    pub fn len(&self) -> usize
        ensures value { result ≡ length self.now.bytes }
        ensures sized { length self.now.bytes ≡ self.now.subzones * self.now.size }
    {
        let _ = self.size;
        self.bytes.len()
    }

    /// The number of subzones. O(1).
    pub fn subzones(&self) -> usize
        ensures { result ≡ self.now.subzones }
    {
        self.subzones
    }

    /// The quanta of a subzone. O(1).
    pub fn size(&self) -> usize
        ensures { result ≡ self.now.size }
    {
        self.size
    }

    /// The bytes of a subzone. O(1).
    pub fn subzone_bytes(&self, subzone: usize) -> &[u8]
        requires { subzone < self.now.subzones }
        ensures { result.now ≡ subzone_bytes self.now subzone }
    {
        let from = subzone * self.size;
        &self.bytes[from..from + self.size]
    }

    /// The byte of a quantum, by its number in the list. O(1).
    pub fn byte(&self, at: usize) -> u8
        requires { at < length self.now.bytes }
        ensures { result ≡ get_or self.now.bytes at 0 }
    {
        self.bytes[at]
    }

    /// Sets the byte of a quantum to one of a quantum in use. O(1).
    pub fn set(&mut self, at: usize, byte: u8)
        requires there { at < length self.old.bytes }
        requires used { 0 < byte }
        ensures { self.new ≡ with_bytes self.old (set self.old.bytes at byte) }
    {
        self.bytes[at] = byte;
    }

    /// Sets the bytes of a range to one of a quantum in use. O(their number).
    pub fn fill(&mut self, from: usize, end: usize, byte: u8)
        requires ordered { from ≤ end }
        requires there { end ≤ length self.old.bytes }
        requires used { 0 < byte }
        ensures inside { AllAre self.new.bytes from end byte }
        ensures changed { IsChanged self.old self.new from end }
    {
        for at in from..end {
            self.set(at, byte);
        }
    }

    /// Frees so many quanta of a subzone. O(their number).
    pub fn clear(&mut self, subzone: usize, quantum: usize, len: usize)
        requires there { subzone < self.old.subzones }
        requires within { quantum + len ≤ self.old.size }
        ensures inside { AllAre self.new.bytes (subzone * self.old.size + quantum) (subzone * self.old.size + quantum + len) 0 }
        ensures changed { IsChanged self.old self.new (subzone * self.old.size + quantum) (subzone * self.old.size + quantum + len) }
    {
        let from = subzone * self.size + quantum;
        lower_in(&mut self.low, subzone * LENGTHS, quantum);
        lower_to(&mut self.first, subzone);
        zero(&mut self.bytes, from, from + len);
    }

    /// Makes the shade of each block white. O(quanta).
    pub fn whiten(&mut self)
        ensures { IsRenoted whitened self.old self.new }
    {
        whiten_bytes(&mut self.bytes);
    }

    /// Makes each block one older, up to 3. O(quanta).
    pub fn age(&mut self)
        ensures { IsRenoted aged self.old self.new }
    {
        age_bytes(&mut self.bytes);
    }

    /// One free subzone more, at the end. NoMemory leaves all as it was. O(quanta of a subzone).
    pub fn grow(&mut self) -> Result<(), NoMemory>
        ensures ok { OnOk result (IsGrown self.old self.new) }
        ensures err { OnErr result (self.new ≡ self.old) }
    {
        if self.bytes.reserve(self.size).is_err() {
            return Err(NoMemory);
        }
        if self.low.reserve(LENGTHS).is_err() {
            return Err(NoMemory);
        }
        append(&mut self.bytes, 0, self.size);
        append(&mut self.low, 0, LENGTHS);
        self.subzones += 1;
        Ok(())
    }
}

/// Takes the cursors of a subzone back, so that each hole with a quantum from this one on lies behind its own.
fn lower_in(low: &mut Vec<usize>, base: usize, quantum: usize)
    requires there { base + 33 ≤ length low.old.items }
    requires within { quantum < 2 ^ 63 }
    ensures length { length low.new.items ≡ length low.old.items }
    ensures lower { (k : ℕ) → get_or low.new.items k 0 ≤ get_or low.old.items k 0 }
    ensures back { (len : ℕ) → len < 33 → get_or low.new.items (base + len) 0 + len ≤ max len (quantum + 1) }
{
    for len in 0..LENGTHS {
        let cursor = low[base + len].min((quantum + 1).saturating_sub(len));
        low[base + len] = cursor;
    }
}

/// Takes the cursors over subzones back to this one.
fn lower_to(first: &mut [usize; 33], subzone: usize)
    ensures lower { (len : ℕ) → get_or first.new len 0 ≤ get_or first.old len 0 }
    ensures back { (len : ℕ) → get_or first.new len 0 ≤ subzone }
{
    for len in 0..LENGTHS {
        first[len] = first[len].min(subzone);
    }
}

/// Sets a range to 0.
fn zero(bytes: &mut Vec<u8>, from: usize, end: usize)
    requires ordered { from ≤ end }
    requires there { end ≤ length bytes.old.items }
    ensures length { length bytes.new.items ≡ length bytes.old.items }
    ensures inside { AllAre bytes.new.items from end 0 }
    ensures outside { SameOutside bytes.old.items bytes.new.items from end }
{
    for at in from..end {
        bytes[at] = 0;
    }
}

/// Makes the shade of each block white.
fn whiten_bytes(bytes: &mut Vec<u8>)
    ensures length { length bytes.new.items ≡ length bytes.old.items }
    ensures each { (k : ℕ) → get_or bytes.new.items k 0 ≡ whitened (get_or bytes.old.items k 0) }
{
    for byte in bytes.iter_mut() {
        *byte = whitened(*byte);
    }
}

/// Makes each block one older, up to 3.
fn age_bytes(bytes: &mut Vec<u8>)
    ensures length { length bytes.new.items ≡ length bytes.old.items }
    ensures each { (k : ℕ) → get_or bytes.new.items k 0 ≡ aged (get_or bytes.old.items k 0) }
{
    for byte in bytes.iter_mut() {
        *byte = aged(*byte);
    }
}

/// So many copies of an item at the end of a list that has room for them.
pub fn append<T: Copy>(list: &mut Vec<T>, item: T, count: usize)
    requires { length list.old.items + count ≤ vec_capacity list.old }
    ensures length { length list.new.items ≡ length list.old.items + count }
    ensures same { (k : ℕ) → get_or list.new.items k item ≡ get_or list.old.items k item }
    ensures capacity { vec_capacity list.new ≡ vec_capacity list.old }
{
    for done in 0..count {
        let _ = done;
        list.push_reserved(item);
    }
}
