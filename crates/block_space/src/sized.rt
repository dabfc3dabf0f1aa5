//! The blocks of one kind, and how long each is, in a byte by quantum.
//!
//! A layout takes five words, and more where it lists classes. Who marks wants to know no more of it than whether a block
//! begins at a quantum, and how many words that has. So a byte beside the layouts tells it: 0 where no block begins, else
//! one more than the block's words. 255 is for 254 words and more, which are asked of the layout.
ghost use Rattle.std.specs.Prelude.{ℕ, ◌≡◌, ◌<◌, ◌≤◌, ◌+◌, ◌-◌, ◌*◌, length, get_or, None, Some, IfSome, IsTrue, is_some, MatchOption, OnOk, OnErr};
ghost use Rattle.std.specs.Option.{option_map_or};
ghost use Rattle.std.specs.Vec.{vec_capacity};
ghost use Rattle.block_layouts.specs.Layouts.{len_of};
ghost use Rattle.quantum_space.specs.Regions.{IsRegion, HasBlock, HasWord, IsFirstByte, IsFreed, IsPlaced, IsRenotedRegion, IsRoomier, no_id, quanta_in, room_of, with_byte, with_word};
ghost use Rattle.quantum_space.specs.AdminBytes.{aged, whitened};
ghost use Rattle.quantum_space.specs.AdminMaps.{subzone_bytes};
ghost use Rattle.quantum_space.specs.PlacedWords.{known};
ghost use Rattle.quantum_space.specs.declared.placed.PlacedWord.TheVariants.{Null};
ghost use Rattle.block_space.specs.Sizes.{size_byte};

use az_base::{BlockId, NoMemory};
use block_layouts::Layout;
use quantum_space::{PlacedWord, Region};
use std::alloc::Global;
use std::marker::Model;

/// The byte of a block whose layout tells how many words it has.
const LONG: u8 = 255;

/// A region whose subzones have so many quanta, and the sizes of its blocks by quantum. Contracts see the region.
#[derive(Drop)]
pub struct SizedRegion {
    region: Region,
    quanta: usize,
    sizes: Vec<u8>,
}

impl Model for SizedRegion {
    ghost use Rattle.quantum_space.specs.Regions.{Region'};
    ghost use Rattle.block_space.specs.Sizes.{AreSizes};

    ghost Value = { Region' };

    ghost view = { λ s. s.region };

    ghost invariant = { λ s. AreSizes s.quanta s.sizes.items s.region };
}

/// The byte of a block with this layout. O(1).
fn size_byte(layout: &Layout) -> u8
    ensures { result ≡ size_byte (Some layout.now) }
{
    let len = layout.len();
    if len < 254 { len as u8 + 1 } else { LONG }
}

/// So many quanta more at the end, with no block.
fn append_none(sizes: &mut Vec<u8>, count: usize)
    requires { length sizes.old.items + count ≤ vec_capacity sizes.old }
    ensures length { length sizes.new.items ≡ length sizes.old.items + count }
    ensures same { (k : ℕ) → get_or sizes.new.items k 0 ≡ get_or sizes.old.items k 0 }
{
    for done in 0..count {
        let _ = done;
        sizes.push_reserved(0);
    }
}

impl SizedRegion {
    /// No subzone; each that comes has so many quanta, of so many words.
    pub fn new(alloc: Global, size: usize, width: usize) -> SizedRegion
        requires large { 64 ≤ size }
        requires wide { 0 < width }
        ensures size { result.map.size ≡ size }
        ensures width { result.width ≡ width }
        ensures none { (at : ℕ) → get_or result.layouts at None ≡ None }
        ensures opened { result.opened ≡ 0 }
        ensures subzones { result.map.subzones ≡ 0 }
    {
        SizedRegion {
            region: Region::new(alloc, size, width),
            quanta: size,
            sizes: Vec::new(alloc),
        }
    }

    /// Puts a new block into the first hole, and says its subzone and its first quantum there. It takes no memory.
    /// O(quanta and words, and what the search for the hole passes over).
    pub fn place(&mut self, id: BlockId, layout: Layout) -> (usize, usize)
        requires few { quanta_in self.old.width (len_of layout) ≤ 32 }
        requires room { quanta_in self.old.width (len_of layout) + 31 ≤ room_of self.old }
        ensures placed { IsPlaced self.old self.new id layout (result.0, result.1) (result.0 * self.old.map.size + result.1) }
        ensures room { room_of self.old ≤ room_of self.new + quanta_in self.old.width (len_of layout) }
    {
        let _ = self.region.unopened();
        let size = size_byte(&layout);
        let (subzone, quantum) = self.region.place(id, layout);
        let at = subzone * self.quanta + quantum;
        self.sizes[at] = size;
        (subzone, quantum)
    }

    /// One subzone more. NoMemory leaves all as it was. O(its quanta and words).
    pub fn grow(&mut self) -> Result<(), NoMemory>
        ensures same { IsRoomier self.old self.new }
        ensures one { self.new.map.subzones ≤ self.old.map.subzones + 1 }
        ensures room { OnOk result (room_of self.old + (self.old.map.size - 31) ≤ room_of self.new) }
        ensures err { OnErr result (self.new ≡ self.old) }
    {
        if self.sizes.reserve(self.quanta).is_err() {
            return Err(NoMemory);
        }
        let Ok(()) = self.region.grow() else {
            return Err(NoMemory);
        };
        append_none(&mut self.sizes, self.quanta);
        Ok(())
    }

    /// Frees the block that begins at a quantum. O(its quanta).
    pub fn free(&mut self, at: usize)
        requires { HasBlock self.old at }
        ensures { IfSome (get_or self.old.layouts at None) (λ l. IsFreed self.old self.new l at) }
    {
        let _ = self.region.unopened();
        self.region.free(at);
        self.sizes[at] = 0;
    }

    /// The quanta for which there is room, and 31 more, however blocks of up to 32 come. O(1).
    pub fn room(&self) -> usize
        ensures value { result ≡ room_of self.now }
        ensures large { 64 ≤ self.now.map.size }
    {
        self.region.room()
    }

    /// How many subzones were not yet opened. O(1).
    pub fn unopened(&self) -> usize
        ensures value { result ≡ self.now.map.subzones - self.now.opened }
        ensures whole { IsRegion self.now }
    {
        self.region.unopened()
    }

    /// Whether a block begins at a quantum. O(1).
    pub fn begins_at(&self, at: usize) -> bool
        ensures value { result ≡ is_some (get_or self.now.layouts at None) }
        ensures block { IsTrue result → HasBlock self.now at }
    {
        match self.sizes.get(at) {
            Some(size) => *size != 0,
            None => false,
        }
    }

    /// How many words the block has that begins at a quantum. O(1).
    pub fn len(&self, at: usize) -> u32
        requires { HasBlock self.now at }
        ensures value { result ≡ option_map_or len_of (get_or self.now.layouts at None) 0 }
        ensures range { result ≤ 4096 }
    {
        let _ = self.region.unopened();
        let size = self.sizes[at];
        if size == LONG {
            self.len_told(at)
        } else {
            size as u32 - 1
        }
    }

    /// The length of the block that begins at a quantum, as its layout tells it; 0 where none begins.
    #[cold]
    #[inline(never)]
    fn len_told(&self, at: usize) -> u32
        ensures value { result ≡ option_map_or len_of (get_or self.now.layouts at None) 0 }
        ensures range { result ≤ 4096 }
    {
        match self.region.layout(at) {
            Some(layout) => layout.len(),
            None => 0,
        }
    }

    /// The layout of the block that begins at a quantum. O(1).
    pub fn layout(&self, at: usize) -> Option<&Layout>
        ensures { MatchOption result (get_or self.now.layouts at None ≡ None) (λ l. get_or self.now.layouts at None ≡ Some l.now) }
    {
        self.region.layout(at)
    }

    /// The id of the block that begins at a quantum. O(1).
    pub fn id(&self, at: usize) -> BlockId
        requires { HasBlock self.now at }
        ensures { result ≡ get_or self.now.ids at no_id }
    {
        self.region.id(at)
    }

    /// A word of the block that begins at a quantum. O(1).
    pub fn word(&self, at: usize, i: usize) -> PlacedWord
        requires { HasWord self.now at i }
        ensures { result ≡ get_or self.now.words (at * self.now.width + i) Null }
    {
        self.region.word(at, i)
    }

    /// A word of the block that begins at a quantum, for who knows how many words a quantum has. O(1).
    pub fn word_by(&self, width: usize, at: usize, i: usize) -> PlacedWord
        requires width { width ≡ self.now.width }
        requires word { HasWord self.now at i }
        ensures { result ≡ get_or self.now.words (at * self.now.width + i) Null }
    {
        self.region.word_by(width, at, i)
    }

    /// Changes a word of the block that begins at a quantum. O(1).
    pub fn set_word(&mut self, at: usize, i: usize, word: PlacedWord)
        requires { HasWord self.old at i }
        ensures { self.new ≡ with_word self.old at i word }
    {
        self.region.set_word(at, i, word);
    }

    /// Whether no word of any subzone knows where its block lies. O(words of the subzones).
    pub fn knows_none(&self) -> bool
        ensures none { IsTrue result → (k : ℕ) → k < length self.now.words → known (get_or self.now.words k Null) ≡ None }
        ensures exact { ((k : ℕ) → known (get_or self.now.words k Null) ≡ None) → IsTrue result }
    {
        self.region.knows_none()
    }

    /// The admin byte of a quantum at which a block begins. O(1).
    pub fn byte(&self, at: usize) -> u8
        requires { HasBlock self.now at }
        ensures value { result ≡ get_or self.now.map.bytes at 0 }
        ensures first { IsFirstByte result }
    {
        self.region.byte(at)
    }

    /// Changes the admin byte of a quantum at which a block begins. O(1).
    pub fn set_byte(&mut self, at: usize, byte: u8)
        requires block { HasBlock self.old at }
        requires first { IsFirstByte byte }
        ensures { self.new ≡ with_byte self.old at byte }
    {
        self.region.set_byte(at, byte);
    }

    /// Makes the shade of each block white. O(quanta).
    pub fn whiten(&mut self)
        ensures { IsRenotedRegion whitened self.old self.new }
    {
        self.region.whiten();
    }

    /// Makes each block one older, up to 3. O(quanta).
    pub fn age(&mut self)
        ensures { IsRenotedRegion aged self.old self.new }
    {
        self.region.age();
    }

    /// The admin bytes of a subzone; None exactly where it was not opened. O(1).
    pub fn subzone_bytes(&self, subzone: usize) -> Option<&[u8]>
        ensures { MatchOption result (self.now.opened ≤ subzone) (λ bytes. (subzone < self.now.opened) × (bytes.now ≡ subzone_bytes self.now.map subzone)) }
    {
        self.region.subzone_bytes(subzone)
    }
}
