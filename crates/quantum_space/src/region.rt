//! The blocks of one kind: their admin bytes, ids, layouts and words, each in one list by quantum. A block's words begin
//! at its first quantum.
ghost use Rattle.std.specs.Prelude.{ℕ, ◌≡◌, ◌≢◌, ◌<◌, ◌≤◌, ◌+◌, ◌-◌, ◌*◌, length, get_or, set, None, Some, ◌^◌, ◌⊎◌, IfSome, IsTrue, ◌↔◌, is_some, MatchOption, OnOk, OnErr};
ghost use Rattle.block_layouts.specs.Layouts.{len_of};
ghost use Rattle.block_layouts.specs.declared.layout.Layout.{Layout as ALayout};
ghost use Rattle.quantum_space.specs.Regions.{AreNew, IsRegion, Lies, Region', HasBlock, HasWord, IsFirstByte, IsFreed, IsPlaced, IsRenotedRegion, IsRoomier, SameWords, new_word, no_id, quanta_in, room_of, with_byte, with_word};
ghost use Rattle.quantum_space.specs.AdminBytes.{aged, whitened};
ghost use Rattle.quantum_space.specs.PlacedWords.{known};
ghost use Rattle.quantum_space.specs.AdminMaps.{subzone_bytes};
ghost use Rattle.std.specs.Vec.{vec_capacity};
ghost use Rattle.quantum_space.specs.declared.placed.PlacedWord.TheVariants.{Null};

use crate::admin::FURTHER;
use crate::admin_map::{AdminMap, append};
use crate::placed::PlacedWord;
use az_base::{BlockId, Class, NoMemory, ThreadNo};
use block_layouts::Layout;
use std::alloc::Global;
use std::marker::Model;

/// The byte of a new block's first quantum.
const NEW: u8 = 0x80;

/// All subzones of one kind. Those that were not yet opened hold no block: they are room for more.
#[derive(Drop)]
pub struct Region {
    map: AdminMap,
    ids: Vec<BlockId>,
    layouts: Vec<Option<Layout>>,
    words: Vec<PlacedWord>,
    width: usize,
    opened: usize,
    top: usize,
}

impl Model for Region {
    ghost use Rattle.quantum_space.specs.Regions.{Region', IsRegion};

    ghost Value = { Region' };

    ghost view = { λ r. record { map = r.map; ids = r.ids.items; layouts = r.layouts.items; words = r.words.items; width = r.width; opened = r.opened; top = r.top } };

    ghost invariant = { λ r. IsRegion (record { map = r.map; ids = r.ids.items; layouts = r.layouts.items; words = r.words.items; width = r.width; opened = r.opened; top = r.top }) };
}

/// The quanta of a block of so many words, where a quantum has so many. O(1).
pub fn quanta_in(width: usize, len: usize) -> usize
    requires { 0 < width }
    ensures { result ≡ quanta_in width len }
{
    if len == 0 { 1 } else { (len - 1) / width + 1 }
}

/// What a new word of this class holds.
fn new_word(class: Option<Class>) -> PlacedWord
    ensures { result ≡ new_word class }
{
    match class {
        Some(Class::Plain) => PlacedWord::Number(0),
        Some(Class::Strong) => PlacedWord::Null,
        Some(Class::Weak) => PlacedWord::Null,
        None => PlacedWord::Null,
    }
}

/// Writes the words of a new block. O(words).
fn write_new(words: &mut Vec<PlacedWord>, from: usize, layout: &Layout)
    requires { from + len_of layout.now ≤ length words.old.items }
    ensures length { length words.new.items ≡ length words.old.items }
    ensures new { AreNew words.new.items from (len_of layout.now) layout.now }
    ensures others { SameWords words.old.items words.new.items from (from + len_of layout.now) }
{
    let len = layout.len();
    for i in 0..len {
        words[from + i as usize] = new_word(layout.class_at(i));
    }
}

/// What stands among the ids where no block begins.
fn no_id() -> BlockId
    ensures { result ≡ no_id }
{
    let Some(thread) = ThreadNo::new(1) else {
        unreachable!()
    };
    BlockId { thread, serial: 0 }
}

/// The product, where it fits.
fn product(a: usize, b: usize) -> Option<usize>
    ensures { IfSome result (λ p. p ≡ a * b) }
{
    a.checked_mul(b)
}

/// So many quanta more at the end, with no block.
fn append_none(layouts: &mut Vec<Option<Layout>>, count: usize)
    requires { length layouts.old.items + count ≤ vec_capacity layouts.old }
    ensures length { length layouts.new.items ≡ length layouts.old.items + count }
    ensures same { (k : ℕ) → get_or layouts.new.items k None ≡ get_or layouts.old.items k None }
{
    for done in 0..count {
        let _ = done;
        layouts.push_reserved(None);
    }
}

/// The quanta of the block that begins at a quantum, 0 where none does.
fn quanta_at(layouts: &[Option<Layout>], at: usize, width: usize) -> usize
    requires there { at < length layouts.now }
    requires wide { 0 < width }
    ensures { IfSome (get_or layouts.now at None) (λ l. result ≡ quanta_in width (len_of l)) }
{
    match &layouts[at] {
        Some(layout) => quanta_in(width, layout.len() as usize),
        None => 0,
    }
}

/// Whether none of the words knows where its block lies.
fn none_known(words: &[PlacedWord]) -> bool
    ensures none { IsTrue result → (k : ℕ) → k < length words.now → known (get_or words.now k Null) ≡ None }
    ensures exact { ((k : ℕ) → known (get_or words.now k Null) ≡ None) → IsTrue result }
{
    for word in words {
        if word.known().is_some() {
            return false;
        }
    }
    true
}

/// Sets an item of a list.
fn put(layouts: &mut Vec<Option<Layout>>, at: usize, layout: Option<Layout>)
    requires { at < length layouts.old.items }
    ensures { layouts.new.items ≡ set layouts.old.items at layout }
{
    layouts[at] = layout;
}

impl Region {
    /// No subzone; each that comes has so many quanta, of so many words.
    pub fn new(alloc: Global, size: usize, width: usize) -> Region
        requires large { 64 ≤ size }
        requires wide { 0 < width }
        ensures size { result.map.size ≡ size }
        ensures width { result.width ≡ width }
        ensures none { (at : ℕ) → get_or result.layouts at None ≡ None }
        ensures opened { result.opened ≡ 0 }
        ensures subzones { result.map.subzones ≡ 0 }
    {
        Region {
            map: AdminMap::new(alloc, size),
            ids: Vec::new(alloc),
            layouts: Vec::new(alloc),
            words: Vec::new(alloc),
            width,
            opened: 0,
            top: 0,
        }
    }

    /// Puts a new block into the first hole, and says its subzone and its first quantum there. It takes no memory.
    /// O(quanta and words, and what the search for the hole passes over).
    pub fn place(&mut self, id: BlockId, layout: Layout) -> (usize, usize)
        requires few { quanta_in self.old.width (len_of layout) ≤ 32 }
        requires room { quanta_in self.old.width (len_of layout) + 31 ≤ room_of self.old }
        ensures placed { IsPlaced self.old self.new id layout (result.0, result.1) (result.0 * self.old.map.size + result.1) }
        ensures room { room_of self.old ≤ room_of self.new + quanta_in self.old.width (len_of layout) }
    {
        let quanta = quanta_in(self.width, layout.len() as usize);
        let Some((subzone, quantum)) = self.map.find(quanta) else {
            unreachable!()
        };
        let at = subzone * self.map.size() + quantum;
        self.map.set(at, NEW);
        self.map.fill(at + 1, at + quanta, FURTHER);
        write_new(&mut self.words, at * self.width, &layout);
        self.ids[at] = id;
        put(&mut self.layouts, at, Some(layout));
        self.opened = self.opened.max(subzone + 1);
        self.top = self.top.max(at + quanta);
        (subzone, quantum)
    }
}

impl Region {
    /// The quanta for which there is room, and 31 more, however blocks of up to 32 come. O(1).
    pub fn room(&self) -> usize
        ensures value { result ≡ room_of self.now }
        ensures large { 64 ≤ self.now.map.size }
    {
        let size = self.map.size();
        (self.opened * size - self.top) + (self.map.subzones() - self.opened) * (size - 31)
    }

    /// One subzone more. NoMemory leaves all as it was. O(its quanta and words).
    pub fn grow(&mut self) -> Result<(), NoMemory>
        ensures same { IsRoomier self.old self.new }
        ensures one { self.new.map.subzones ≤ self.old.map.subzones + 1 }
        ensures room { OnOk result (room_of self.old + (self.old.map.size - 31) ≤ room_of self.new) }
        ensures err { OnErr result (self.new ≡ self.old) }
    {
        let size = self.map.size();
        let Some(words) = product(size, self.width) else {
            return Err(NoMemory);
        };
        if self.ids.reserve(size).is_err() {
            return Err(NoMemory);
        }
        if self.layouts.reserve(size).is_err() {
            return Err(NoMemory);
        }
        if self.words.reserve(words).is_err() {
            return Err(NoMemory);
        }
        let Ok(()) = self.map.grow() else {
            return Err(NoMemory);
        };
        append(&mut self.ids, no_id(), size);
        append_none(&mut self.layouts, size);
        append(&mut self.words, PlacedWord::Null, words);
        Ok(())
    }

    /// Frees the block that begins at a quantum. O(its quanta).
    pub fn free(&mut self, at: usize)
        requires { HasBlock self.old at }
        ensures { IfSome (get_or self.old.layouts at None) (λ l. IsFreed self.old self.new l at) }
    {
        let size = self.map.size();
        self.free_in(at / size, at % size);
    }

    /// Frees the block that begins at a quantum of a subzone.
    fn free_in(&mut self, subzone: usize, quantum: usize)
        requires there { subzone < self.old.map.subzones }
        requires within { quantum < self.old.map.size }
        requires block { HasBlock self.old (subzone * self.old.map.size + quantum) }
        ensures { IfSome (get_or self.old.layouts (subzone * self.old.map.size + quantum) None) (λ l. IsFreed self.old self.new l (subzone * self.old.map.size + quantum)) }
    {
        let at = subzone * self.map.size() + quantum;
        let quanta = quanta_at(&self.layouts, at, self.width);
        put(&mut self.layouts, at, None);
        self.map.clear(subzone, quantum, quanta);
    }

    /// The layout of the block that begins at a quantum. O(1).
    pub fn layout(&self, at: usize) -> Option<&Layout>
        ensures { MatchOption result (get_or self.now.layouts at None ≡ None) (λ l. get_or self.now.layouts at None ≡ Some l.now) }
    {
        match self.layouts.get(at) {
            Some(Some(layout)) => Some(layout),
            Some(None) => None,
            None => None,
        }
    }

    /// The id of the block that begins at a quantum. O(1).
    pub fn id(&self, at: usize) -> BlockId
        requires { HasBlock self.now at }
        ensures { result ≡ get_or self.now.ids at no_id }
    {
        self.ids[at]
    }

    /// A word of the block that begins at a quantum. O(1).
    pub fn word(&self, at: usize, i: usize) -> PlacedWord
        requires { HasWord self.now at i }
        ensures { result ≡ get_or self.now.words (at * self.now.width + i) Null }
    {
        self.words[at * self.width + i]
    }

    /// A word of the block that begins at a quantum, for who knows how many words a quantum has: its place by a constant
    /// costs no multiplication. O(1).
    pub fn word_by(&self, width: usize, at: usize, i: usize) -> PlacedWord
        requires width { width ≡ self.now.width }
        requires word { HasWord self.now at i }
        ensures { result ≡ get_or self.now.words (at * self.now.width + i) Null }
    {
        self.words[at * width + i]
    }

    /// Changes a word of the block that begins at a quantum. O(1).
    pub fn set_word(&mut self, at: usize, i: usize, word: PlacedWord)
        requires { HasWord self.old at i }
        ensures { self.new ≡ with_word self.old at i word }
    {
        self.words[at * self.width + i] = word;
    }

    /// Whether no word of any subzone knows where its block lies. O(words of the subzones).
    pub fn knows_none(&self) -> bool
        ensures none { IsTrue result → (k : ℕ) → k < length self.now.words → known (get_or self.now.words k Null) ≡ None }
        ensures exact { ((k : ℕ) → known (get_or self.now.words k Null) ≡ None) → IsTrue result }
    {
        none_known(&self.words)
    }

    /// The admin byte of a quantum at which a block begins. O(1).
    pub fn byte(&self, at: usize) -> u8
        requires { HasBlock self.now at }
        ensures value { result ≡ get_or self.now.map.bytes at 0 }
        ensures first { IsFirstByte result }
    {
        self.map.byte(at)
    }

    /// Changes the admin byte of a quantum at which a block begins. O(1).
    pub fn set_byte(&mut self, at: usize, byte: u8)
        requires block { HasBlock self.old at }
        requires first { IsFirstByte byte }
        ensures { self.new ≡ with_byte self.old at byte }
    {
        self.map.set(at, byte);
    }

    /// Makes the shade of each block white. O(quanta).
    pub fn whiten(&mut self)
        ensures { IsRenotedRegion whitened self.old self.new }
    {
        self.map.whiten();
    }

    /// Makes each block one older, up to 3. O(quanta).
    pub fn age(&mut self)
        ensures { IsRenotedRegion aged self.old self.new }
    {
        self.map.age();
    }
}

impl Region {
    /// Room for blocks of so many quanta in all, each of at most 32, in whatever order they come. NoMemory leaves what is
    /// stored as it was. O(quanta and words of the subzones that it adds).
    #[tactic(auto, using(crate::proofs::Placing::roomier_more))]
    pub fn reserve(&mut self, quanta: usize) -> Result<(), NoMemory>
        requires { quanta < 2 ^ 32 }
        ensures ok { OnOk result (quanta + 31 ≤ room_of self.new) }
        ensures same { IsRoomier self.old self.new }
    {
        let wanted = quanta + 31;
        for grown in 0..wanted {
            let _ = grown;
            if self.room() >= wanted {
                return Ok(());
            }
            let Ok(()) = self.grow() else {
                return Err(NoMemory);
            };
        }
        Ok(())
    }

    /// How many subzones were not yet opened. O(1).
    pub fn unopened(&self) -> usize
        ensures value { result ≡ self.now.map.subzones - self.now.opened }
        ensures whole { IsRegion self.now }
    {
        self.map.subzones() - self.opened
    }

    /// The admin bytes of a subzone; None exactly where it was not opened. O(1).
    pub fn subzone_bytes(&self, subzone: usize) -> Option<&[u8]>
        ensures { MatchOption result (self.now.opened ≤ subzone) (λ bytes. (subzone < self.now.opened) × (bytes.now ≡ subzone_bytes self.now.map subzone)) }
    {
        if subzone < self.opened {
            Some(self.map.subzone_bytes(subzone))
        } else {
            None
        }
    }

    /// The quanta of a block with a layout, in this kind of subzones. O(1).
    pub fn quanta(&self, layout: &Layout) -> usize
        ensures value { result ≡ quanta_in self.now.width (len_of layout.now) }
        ensures whole { IsRegion self.now }
    {
        quanta_in(self.width, layout.len() as usize)
    }

    /// Whether a block begins at a quantum. O(1).
    pub fn begins_at(&self, at: usize) -> bool
        ensures value { result ≡ is_some (get_or self.now.layouts at None) }
        ensures block { IsTrue result → HasBlock self.now at }
    {
        match self.layout(at) {
            Some(_) => true,
            None => false,
        }
    }

    /// Whether a block begins there. O(1).
    pub fn has_block(&self, subzone: usize, quantum: usize) -> bool
        ensures there { IsTrue result → subzone < self.now.map.subzones }
        ensures within { IsTrue result → quantum < self.now.map.size }
        ensures block { IsTrue result → HasBlock self.now (subzone * self.now.map.size + quantum) }
        ensures exact { subzone < self.now.map.subzones → quantum < self.now.map.size → HasBlock self.now (subzone * self.now.map.size + quantum) → IsTrue result }
    {
        let size = self.map.size();
        if subzone < self.map.subzones() && quantum < size {
            let at = subzone * size + quantum;
            self.begins_at(at)
        } else {
            false
        }
    }

    /// Whether the block that begins at a quantum has such a word. O(1).
    pub fn has_word(&self, at: usize, i: usize) -> bool
        ensures { IsTrue result ↔ HasWord self.now at i }
    {
        match self.layout(at) {
            Some(layout) => i < layout.len() as usize,
            None => false,
        }
    }

    /// The admin byte of a quantum, 0 where it is free; None exactly where no such subzone was opened, or it has no such
    /// quantum. O(1).
    pub fn admin_byte(&self, subzone: usize, quantum: usize) -> Option<u8>
        ensures { MatchOption result ((self.now.opened ≤ subzone) ⊎ (self.now.map.size ≤ quantum)) (λ byte. (subzone < self.now.opened) × (quantum < self.now.map.size) × (byte ≡ get_or self.now.map.bytes (subzone * self.now.map.size + quantum) 0)) }
    {
        let size = self.map.size();
        if subzone >= self.opened {
            return None;
        }
        if quantum >= size {
            return None;
        }
        let at = subzone * size + quantum;
        Some(self.map.byte(at))
    }
}

/// Two blocks have no quantum in common.
pub fn blocks_lie_apart()
    ensures { (r : Region') (at other k : ℕ) (l o : ALayout) → Lies r at l → Lies r other o → at ≢ other → at ≤ k → k < at + quanta_in r.width (len_of l) → other ≤ k → k < other + quanta_in r.width (len_of o) → ⊥ }
{}
