//! What the collector notes of a block, and the byte that tells it.
ghost use Rattle.std.specs.Prelude.{◌≡◌, ◌≤◌, ◌<◌, ⊤, [], ◌∷◌, ◌/◌, ◌%◌, ◌==◌, ◌+◌, min, codes, ℕ};
ghost use Rattle.std.specs.Int.RustNames.{bit_and};
ghost use Rattle.quantum_space.specs.declared.admin.Admin.{Admin as AnAdmin};
ghost use Rattle.quantum_space.specs.AdminBytes.{admin_byte, admin_of, aged, begins_block, flag_bits, shade_bits, shade_of, whitened, with_age, with_shade};
ghost use Rattle.quantum_space.specs.Regions.{IsFirstByte};
ghost use Rattle.quantum_space.specs.declared.shade.Shade.TheVariants.{White};

use crate::shade::Shade;
use bitflags::{Flag, Flags, bitflag_items};

/// A block's shade, its age in collections up to 3, whether it is remembered as one that may refer to younger ones, and
/// whether its finaliser has run.
#[derive(Clone, Copy, Debug, PartialEq, Eq, Hash)]
pub struct Admin {
    pub shade: Shade,
    pub age: u8,
    pub card: bool,
    pub finalised: bool,
}

/// The byte of each further quantum of a block.
pub const FURTHER: u8 = 0x83;

/// The named bits of an admin byte.
#[derive(Clone, Copy, Debug, PartialEq, Eq)]
pub struct AdminFlags(u8);

bitflag_items! {
    impl AdminFlags: u8 {
        const CARD = 32;
        const FINALISED = 64;
        const IN_USE = 128;
    }
}

impl Flags for AdminFlags {
    type Bits = u8;

    ghost exact = { ⊤ };

    ghost table = { (codes "CARD", 32) ∷ (codes "FINALISED", 64) ∷ (codes "IN_USE", 128) ∷ [] };

    ghost set_of = { λ f. f.0 };

    fn flags<'a>() -> &'a [Flag<AdminFlags>] {
        AdminFlags::FLAGS
    }

    fn bits(&self) -> u8 {
        self.0
    }

    fn from_bits_retain(bits: u8) -> AdminFlags {
        AdminFlags(bits)
    }
}

impl Admin {
    /// The byte of a quantum that begins a block with this to be noted: the shade in bits 0 and 1, the age in bits 2 to
    /// 4, and the flags card, finalised and in use in bits 5, 6 and 7. O(1).
    pub fn to_byte(self) -> u8
        requires { self.age ≤ 3 }
        ensures { result ≡ admin_byte self }
    {
        shade_bits(self.shade) + 4 * self.age + flags_of(self.card, self.finalised)
    }

    /// What the byte of a quantum that begins a block tells. O(1).
    pub fn from_byte(byte: u8) -> Admin
        ensures { result ≡ admin_of byte }
    {
        Admin {
            shade: shade_of(byte % 4),
            age: byte / 4 % 8,
            card: has(byte, AdminFlags::CARD),
            finalised: has(byte, AdminFlags::FINALISED),
        }
    }
}

/// The two bits of a shade.
fn shade_bits(shade: Shade) -> u8
    ensures { result ≡ shade_bits shade }
{
    match shade {
        Shade::White => 0,
        Shade::Grey => 1,
        Shade::Black => 2,
    }
}

/// The shade that a number tells.
fn shade_of(bits: u8) -> Shade
    ensures { result ≡ shade_of bits }
{
    if bits == 1 {
        Shade::Grey
    } else if bits == 2 {
        Shade::Black
    } else {
        Shade::White
    }
}

/// The flags of a block's first quantum.
fn flags_of(card: bool, finalised: bool) -> u8
    ensures { result ≡ flag_bits card finalised }
{
    let used = AdminFlags::IN_USE;
    match (card, finalised) {
        (false, false) => used.bits(),
        (true, false) => used.union(AdminFlags::CARD).bits(),
        (false, true) => used.union(AdminFlags::FINALISED).bits(),
        (true, true) => used
            .union(AdminFlags::CARD)
            .union(AdminFlags::FINALISED)
            .bits(),
    }
}

/// Whether a byte has a flag.
fn has(byte: u8, flag: AdminFlags) -> bool
    ensures { result ≡ (bit_and byte flag.0 == flag.0) }
{
    AdminFlags::from_bits_retain(byte).contains(flag)
}

/// Whether the byte is of a quantum in use that begins a block.
fn begins_block(byte: u8) -> bool
    ensures { result ≡ begins_block byte }
{
    byte != FURTHER && byte >= AdminFlags::IN_USE.bits()
}

/// The byte with the shade white, where it begins a block. O(1).
pub fn whitened(byte: u8) -> u8
    ensures { result ≡ whitened byte }
{
    if begins_block(byte) {
        byte - byte % 4
    } else {
        byte
    }
}

/// The byte with an age one higher, where it begins a block whose age is below 3. O(1).
pub fn aged(byte: u8) -> u8
    ensures { result ≡ aged byte }
{
    if begins_block(byte) && byte / 4 % 8 < 3 {
        byte + 4
    } else {
        byte
    }
}

/// A byte tells what was noted in it.
pub fn bytes_tell_what_was_noted()
    ensures { (a : AnAdmin) → a.age ≤ 3 → admin_of (admin_byte a) ≡ a }
{}

/// A byte that was made white tells all that it told but the shade.
pub fn whitened_bytes_tell_the_rest()
    ensures { (b : ℕ) → IsFirstByte b → (IsFirstByte (whitened b)) × (admin_of (whitened b) ≡ with_shade (admin_of b) White) }
{}

/// A byte that was aged tells all that it told but the age, which is one higher, up to 3.
pub fn aged_bytes_tell_the_rest()
    ensures { (b : ℕ) → IsFirstByte b → (IsFirstByte (aged b)) × (admin_of (aged b) ≡ with_age (admin_of b) (min 3 ((admin_of b).age + 1))) }
{}
