//! Marking: shades by quantum, and visits along the words of a block.
//!
//! Who marks knows a block by its quantum (`Spot`). The byte of that quantum has its shade, and its words begin there, so
//! neither costs a look-up. What a word refers to is visited by the quantum that the word knows.
ghost use Rattle.std.specs.Prelude.{◌≡◌, ◌<◌, ◌≤◌, None, Some, MatchOption, IsTrue, IsFalse, IfSome, is_some, get_or, if◌then◌else◌};
ghost use Rattle.std.specs.Option.{option_map_or};
ghost use Rattle.block_layouts.specs.Layouts.{len_of};
ghost use Rattle.quantum_space.specs.Regions.{HasBlock, HasWord, IsFirstByte, with_byte};
ghost use Rattle.quantum_space.specs.AdminBytes.{admin_of, shade_bits};
ghost use Rattle.quantum_space.specs.Shapes.{is_unmarked};
ghost use Rattle.quantum_space.specs.declared.shade.Shade.TheVariants as shade;
ghost use Rattle.az_base.specs.declared.action.Mode.TheVariants as mode;
ghost use Rattle.quantum_space.specs.declared.spot.Kind.{Kind as AKind};
ghost use Rattle.quantum_space.specs.declared.spot.Kind.TheVariants as kind;
ghost use Rattle.quantum_space.specs.PlacedWords.{knowing, spot_at, unplaced};
ghost use Rattle.block_space.specs.Spaces.{IsRight, region, spot_of};
ghost use Rattle.block_space.specs.Marking.{HasBlockIn, HasSameBlocks, IsGreyed, IsLost, VisitsFrom, VisitsIn, VisitsWord, byte_in, id_in, is_in_medium, is_in_small, is_lost, is_white_byte, layout_in, len_in, shade_told, shaded, takes_byte, with_byte_in, with_word_in, word_in};

use crate::sized::SizedRegion;
use crate::space::{MEDIUM_WORDS, SMALL_WORDS, Space};
use az_base::{BlockId, Mode, Word};
use block_layouts::Layout;
use quantum_space::{Admin, Greys, Kind, Place, PlacedWord, Shade, Spot};

/// Whether a byte is of a white block.
fn is_white(byte: u8) -> bool
    ensures { result ≡ is_unmarked (shade_told byte) }
{
    byte % 4 != 1 && byte % 4 != 2
}

/// Whether a collection of this mode takes a block with this byte.
fn takes_byte(mode: Mode, byte: u8) -> bool
    ensures { result ≡ takes_byte mode byte }
{
    match mode {
        Mode::Full => true,
        Mode::Young => byte / 4 % 8 < 3,
    }
}

/// The two bits of a shade.
fn shade_bits(shade: Shade) -> u8
    ensures { result ≡ shade_bits shade }
{
    match shade {
        Shade::White => 0,
        Shade::Grey => 1,
        Shade::Black => 2,
    }
}

/// The byte with another shade.
fn shaded(shade: Shade, byte: u8) -> u8
    requires { IsFirstByte byte }
    ensures value { result ≡ shaded shade byte }
    ensures first { IsFirstByte result }
{
    byte - byte % 4 + shade_bits(shade)
}

/// Greys the block that begins at a quantum of a region, where it is white and the mode takes it, and says whether it did.
#[inline(always)]
fn grey_in(region: &mut SizedRegion, at: usize, mode: Mode) -> bool
    requires { HasBlock region.old at }
    ensures told { result ≡ is_white_byte mode (get_or region.old.map.bytes at 0) }
    ensures changed { region.new ≡ (if result then with_byte region.old at (shaded shade.Grey (get_or region.old.map.bytes at 0)) else region.old) }
{
    let byte = region.byte(at);
    if is_white(byte) && takes_byte(mode, byte) {
        region.set_byte(at, shaded(Shade::Grey, byte));
        true
    } else {
        false
    }
}

/// Whether a word knows the small quantum at which its block begins.
fn is_in_small(word: &PlacedWord) -> bool
    ensures { result ≡ is_in_small word.now }
{
    match word {
        PlacedWord::InSmall(_, _) => true,
        PlacedWord::Null
        | PlacedWord::Block(_)
        | PlacedWord::InMedium(_, _)
        | PlacedWord::Number(_) => false,
    }
}

/// Whether a word knows the medium quantum at which its block begins.
fn is_in_medium(word: &PlacedWord) -> bool
    ensures { result ≡ is_in_medium word.now }
{
    match word {
        PlacedWord::InMedium(_, _) => true,
        PlacedWord::Null
        | PlacedWord::Block(_)
        | PlacedWord::InSmall(_, _)
        | PlacedWord::Number(_) => false,
    }
}

/// Whether a word refers to a block and doesn't know where it lies.
fn is_lost(word: &PlacedWord) -> bool
    ensures { result ≡ is_lost word.now }
{
    match word {
        PlacedWord::Block(_) => true,
        PlacedWord::Null
        | PlacedWord::InSmall(_, _)
        | PlacedWord::InMedium(_, _)
        | PlacedWord::Number(_) => false,
    }
}

/// Greys the block that begins at a quantum of a region, where it is white and the mode takes it, and then puts it onto the
/// stack, where there is room, with the number of the quantum beside it.
#[inline(always)]
fn visit_in(region: &mut SizedRegion, at: u32, id: BlockId, mode: Mode, stack: &mut Greys)
    requires { HasBlock region.old at }
    ensures { VisitsIn mode region.old at id stack.old region.new stack.new }
{
    if grey_in(region, at as usize, mode) {
        stack.push_within(id, at);
    }
}

/// How many words the block has that begins at a quantum of a region; 0 where none begins.
fn len_at(region: &SizedRegion, at: usize) -> u32
    ensures value { result ≡ option_map_or len_of (get_or region.now.layouts at None) 0 }
    ensures range { result ≤ 4096 }
{
    if region.begins_at(at) {
        region.len(at)
    } else {
        0
    }
}

impl Space {
    /// Where a place is among those of its kind; None exactly where there is no such subzone, or it has no such quantum.
    /// O(1).
    pub fn spot_of(&self, p: Place) -> Option<Spot>
        ensures { result ≡ spot_of self.now p }
    {
        self.spot(p)
    }

    /// The admin byte of the block that begins at a quantum.
    fn byte_in(&self, spot: Spot) -> u8
        requires { HasBlockIn self.now spot }
        ensures value { result ≡ byte_in self.now spot }
        ensures first { IsFirstByte result }
    {
        match spot.kind {
            Kind::Small => self.small.byte(spot.at),
            Kind::Medium => self.medium.byte(spot.at),
        }
    }

    /// The shade of the block that begins at a quantum. O(1).
    pub fn shade_in(&self, spot: Spot) -> Shade
        requires { HasBlockIn self.now spot }
        ensures { result ≡ shade_told (byte_in self.now spot) }
    {
        match self.byte_in(spot) % 4 {
            1 => Shade::Grey,
            2 => Shade::Black,
            _ => Shade::White,
        }
    }

    /// Whether the block that begins at a quantum is younger than 3. O(1).
    pub fn is_young_in(&self, spot: Spot) -> bool
        requires { HasBlockIn self.now spot }
        ensures { result ≡ takes_byte mode.Young (byte_in self.now spot) }
    {
        takes_byte(Mode::Young, self.byte_in(spot))
    }

    /// Whether the block that begins at a quantum is white, and one that the mode takes. O(1).
    pub fn is_left_in(&self, spot: Spot, mode: Mode) -> bool
        requires { HasBlockIn self.now spot }
        ensures { result ≡ is_white_byte mode (byte_in self.now spot) }
    {
        let byte = self.byte_in(spot);
        is_white(byte) && takes_byte(mode, byte)
    }

    /// Changes the shade of the block that begins at a quantum, and nothing else. O(1).
    pub fn shade_spot(&mut self, spot: Spot, shade: Shade)
        requires { HasBlockIn self.old spot }
        ensures { self.new ≡ with_byte_in self.old spot (shaded shade (byte_in self.old spot)) }
    {
        let byte = shaded(shade, self.byte_in(spot));
        match spot.kind {
            Kind::Small => self.small.set_byte(spot.at, byte),
            Kind::Medium => self.medium.set_byte(spot.at, byte),
        }
    }

    /// Greys the block that begins at a quantum, where it is white and the mode takes it, and says whether it did. O(1).
    pub fn grey_spot(&mut self, spot: Spot, mode: Mode) -> bool
        requires { HasBlockIn self.old spot }
        ensures { IsGreyed mode self.old spot result self.new }
    {
        match spot.kind {
            Kind::Small => grey_in(&mut self.small, spot.at, mode),
            Kind::Medium => grey_in(&mut self.medium, spot.at, mode),
        }
    }

    /// The n-th small quantum, exactly where the block with this id begins there. O(1).
    pub fn small_near(&self, id: BlockId, n: u32) -> Option<Spot>
        ensures there { IfSome result (λ x. (x ≡ spot_at kind.Small n) × HasBlockIn self.now x × (id_in self.now x ≡ id)) }
        ensures exact { HasBlockIn self.now (spot_at kind.Small n) → id_in self.now (spot_at kind.Small n) ≡ id → result ≡ Some (spot_at kind.Small n) }
    {
        if self.small.begins_at(n as usize) && self.small.id(n as usize) == id {
            return Some(Spot {
                kind: Kind::Small,
                at: n as usize,
            });
        }
        None
    }

    /// The n-th quantum of a kind, where the block with this id begins there; None exactly where it begins at neither
    /// kind's. O(1).
    pub fn spot_near(&self, id: BlockId, n: u32) -> Option<Spot>
        ensures there { IfSome result (λ x. (x.at ≡ n) × HasBlockIn self.now x × (id_in self.now x ≡ id)) }
        ensures exact { (k : AKind) → HasBlockIn self.now (spot_at k n) → id_in self.now (spot_at k n) ≡ id → IsTrue (is_some result) }
    {
        if let Some(spot) = self.small_near(id, n) {
            return Some(spot);
        }
        if self.medium.begins_at(n as usize) && self.medium.id(n as usize) == id {
            return Some(Spot {
                kind: Kind::Medium,
                at: n as usize,
            });
        }
        None
    }

    /// How many words the block has that begins at a quantum; 0 where none begins. O(1).
    pub fn len_in(&self, spot: Spot) -> u32
        ensures value { result ≡ len_in self.now spot }
        ensures range { result ≤ 4096 }
    {
        match spot.kind {
            Kind::Small => len_at(&self.small, spot.at),
            Kind::Medium => len_at(&self.medium, spot.at),
        }
    }

    /// How many words the block has that begins at a quantum.
    fn words_of(&self, spot: Spot) -> u32
        requires { HasBlockIn self.now spot }
        ensures value { result ≡ len_in self.now spot }
        ensures range { result ≤ 4096 }
    {
        match spot.kind {
            Kind::Small => self.small.len(spot.at),
            Kind::Medium => self.medium.len(spot.at),
        }
    }

    /// A word of the block that begins at a quantum. O(1).
    pub fn word_in(&self, spot: Spot, i: u32) -> PlacedWord
        requires { HasWord (region self.now spot.kind) spot.at i }
        ensures value { result ≡ word_in self.now spot i }
        ensures right { IsRight self.now.small.layouts self.now.medium.layouts self.now.small.ids self.now.medium.ids result }
    {
        self.is_whole();
        self.is_sound();
        match spot.kind {
            Kind::Small => self.small.word_by(SMALL_WORDS, spot.at, i as usize),
            Kind::Medium => self.medium.word_by(MEDIUM_WORDS, spot.at, i as usize),
        }
    }

    /// Visits the block to which a word refers; false, where it doesn't know where that lies. Tests one after another cost
    /// less here than a jump by the variant, which the compiler would make of a `match`, and of these tests if they weren't
    /// functions: most words refer to a small block or to none.
    #[inline(always)]
    fn visit_word(&mut self, word: PlacedWord, mode: Mode, stack: &mut Greys) -> bool
        requires { IsRight self.old.small.layouts self.old.medium.layouts self.old.small.ids self.old.medium.ids word }
        ensures visits { IsTrue result → VisitsWord mode word self.old stack.old self.new stack.new }
        ensures lost { IsFalse result → (self.new ≡ self.old) × (stack.new ≡ stack.old) × IsLost word }
    {
        if is_in_small(&word) {
            if let PlacedWord::InSmall(id, at) = word {
                visit_in(&mut self.small, at, id, mode, stack);
            }
            return true;
        }
        if is_in_medium(&word) {
            if let PlacedWord::InMedium(id, at) = word {
                visit_in(&mut self.medium, at, id, mode, stack);
            }
            return true;
        }
        !is_lost(&word)
    }

    /// Visits the blocks to which the words refer of the block that begins at a quantum, from one word on, and puts those
    /// that turn grey onto the stack, where there is room, with the numbers of their quanta beside them. It ends before
    /// the first word that refers to a block and doesn't know where it lies, and says which one that is; None past the last
    /// word. O(words).
    #[inline(always)]
    pub fn visit_words(
        &mut self,
        spot: Spot,
        from: u32,
        mode: Mode,
        stack: &mut Greys,
    ) -> Option<u32>
        requires { HasBlockIn self.old spot }
        ensures visits { VisitsFrom mode spot from self.old stack.old self.new stack.new result }
        ensures same { HasSameBlocks self.old self.new }
        ensures range { IfSome result (λ j. j < 4096) }
    {
        let at = spot.at;
        match spot.kind {
            Kind::Small => self.visit_from(
                Spot {
                    kind: Kind::Small,
                    at,
                },
                from,
                mode,
                stack,
            ),
            Kind::Medium => self.visit_from(
                Spot {
                    kind: Kind::Medium,
                    at,
                },
                from,
                mode,
                stack,
            ),
        }
    }

    /// Visits the words of a block of one kind. It is compiled once for each kind, so that no word asks for it.
    #[inline(always)]
    fn visit_from(&mut self, spot: Spot, from: u32, mode: Mode, stack: &mut Greys) -> Option<u32>
        requires { HasBlockIn self.old spot }
        ensures visits { VisitsFrom mode spot from self.old stack.old self.new stack.new result }
        ensures same { HasSameBlocks self.old self.new }
        ensures range { IfSome result (λ j. j < 4096) }
    {
        let len = self.words_of(spot);
        for i in from..len {
            let word = self.word_in(spot, i);
            if !self.visit_word(word, mode, stack) {
                return Some(i);
            }
        }
        None
    }

    /// The id of the block that begins at a quantum. O(1).
    pub fn id_in(&self, spot: Spot) -> BlockId
        requires { HasBlockIn self.now spot }
        ensures { result ≡ id_in self.now spot }
    {
        match spot.kind {
            Kind::Small => self.small.id(spot.at),
            Kind::Medium => self.medium.id(spot.at),
        }
    }

    /// A reference to the block that begins at a quantum.
    fn knowing(&self, to: Spot) -> PlacedWord
        requires { HasBlockIn self.now to }
        ensures value { result ≡ knowing (id_in self.now to) to }
        ensures right { IsRight self.now.small.layouts self.now.medium.layouts self.now.small.ids self.now.medium.ids result }
    {
        PlacedWord::knowing(self.id_in(to), to)
    }

    /// Makes a word of the block that begins at a quantum refer to the block that begins at another one, which it then
    /// knows, and changes nothing else. O(1).
    pub fn refer_spot(&mut self, spot: Spot, i: u32, to: Spot)
        requires word { HasWord (region self.old spot.kind) spot.at i }
        requires block { HasBlockIn self.old to }
        ensures { self.new ≡ with_word_in self.old spot i (knowing (id_in self.old to) to) }
    {
        let word = self.knowing(to);
        match spot.kind {
            Kind::Small => self.small.set_word(spot.at, i as usize, word),
            Kind::Medium => self.medium.set_word(spot.at, i as usize, word),
        }
    }

    /// Changes a word of the block that begins at a quantum, and nothing else. Where the block lies to which it refers is
    /// then not known. O(1).
    pub fn set_in(&mut self, spot: Spot, i: u32, word: Word)
        requires { HasWord (region self.old spot.kind) spot.at i }
        ensures { self.new ≡ with_word_in self.old spot i (unplaced word) }
    {
        let word = PlacedWord::of(word);
        match spot.kind {
            Kind::Small => self.small.set_word(spot.at, i as usize, word),
            Kind::Medium => self.medium.set_word(spot.at, i as usize, word),
        }
    }

    /// What is noted of the block that begins at a quantum. O(1).
    pub fn admin_in(&self, spot: Spot) -> Admin
        requires { HasBlockIn self.now spot }
        ensures { result ≡ admin_of (byte_in self.now spot) }
    {
        Admin::from_byte(self.byte_in(spot))
    }

    /// The layout of the block that begins at a quantum; None where none begins. O(1).
    pub fn layout_in(&self, spot: Spot) -> Option<&Layout>
        ensures { MatchOption result (layout_in self.now spot ≡ None) (λ l. layout_in self.now spot ≡ Some l.now) }
    {
        match spot.kind {
            Kind::Small => self.small.layout(spot.at),
            Kind::Medium => self.medium.layout(spot.at),
        }
    }
}
