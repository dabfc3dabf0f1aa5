//! Room for the blocks that are to come.
ghost use Rattle.std.specs.Prelude.{◌≡◌, ◌<◌, ◌≤◌, ◌+◌, ◌*◌, ◌++◌, [], length, slice_get, OnOk, OnErr, Some, None, IfNone, IfSome, IsTrue, ◌^◌};
ghost use Rattle.block_layouts.specs.Layouts.{quanta};
ghost use Rattle.quantum_space.specs.Regions.{quanta_in, room_of};
ghost use Rattle.block_space.specs.Spaces.{region, IsRoomierSpace, AreLengths, IsCovered, kind_length, kind_quanta, list_quanta, with_spare};
ghost use Rattle.quantum_space.specs.declared.spot.Kind.{Kind as AKind};

use crate::space::{MEDIUM_WORDS, MOST_WORDS, SMALL_WORDS, Space};
use az_base::NoMemory;
use quantum_space::{Kind, quanta_in};

/// The small quanta of a block of so many words.
fn small_quanta(words: u32) -> u32
    requires { words ≤ 4096 }
    ensures value { result ≡ quanta words }
    ensures range { result ≤ 2048 }
{
    if words == 0 {
        1
    } else if words <= 64 {
        words.div_ceil(2)
    } else {
        64 * words.div_ceil(128)
    }
}

/// The small quanta of blocks of these lengths; None exactly where one is longer than a layout may be, or the sum is 2^32
/// or more. O(their number).
fn list_quanta(lengths: &[u32]) -> Option<u32>
    ensures value { IfSome result (λ sum. sum ≡ list_quanta lengths.now) }
    ensures lengths { IfSome result (λ _. AreLengths lengths.now) }
    ensures none { IfNone result (AreLengths lengths.now → 2 ^ 32 ≤ list_quanta lengths.now) }
{
    let mut sum: u32 = 0;
    for words in lengths {
        if *words > MOST_WORDS {
            return None;
        }
        sum = sum.checked_add(small_quanta(*words))?;
    }
    Some(sum)
}

/// The quanta of a block of so many words in a kind's subzones, 0 for the other kind's.
fn kind_length(kind: Kind, words: u32) -> usize
    requires { words ≤ 4096 }
    ensures value { result ≡ kind_length kind words }
    ensures few { result ≤ quanta words }
{
    let words = words as usize;
    match kind {
        Kind::Small => {
            if words <= 64 {
                quanta_in(SMALL_WORDS, words)
            } else {
                0
            }
        }
        Kind::Medium => {
            if words <= 64 {
                0
            } else {
                quanta_in(MEDIUM_WORDS, words)
            }
        }
    }
}

/// The quanta of blocks of these lengths in a kind's subzones. O(their number).
fn kind_quanta(kind: Kind, lengths: &[u32]) -> usize
    requires lengths { AreLengths lengths.now }
    requires few { list_quanta lengths.now < 2 ^ 32 }
    ensures value { result ≡ kind_quanta kind lengths.now }
    ensures few { result ≤ list_quanta lengths.now }
{
    let mut sum = 0;
    for words in lengths {
        sum += kind_length(kind, *words);
    }
    sum
}

impl Space {
    /// Room in a kind's subzones, and 31 quanta more.
    fn room(&self, kind: Kind) -> usize
        ensures { result ≡ room_of (region self.now kind) }
    {
        match kind {
            Kind::Small => self.small.room(),
            Kind::Medium => self.medium.room(),
        }
    }

    /// One subzone more of a kind, that is not yet opened. NoMemory leaves all blocks as they were.
    fn grow(&mut self, kind: Kind) -> Result<(), NoMemory>
        ensures same { IsRoomierSpace self.old self.new }
        ensures spare { self.new.spare ≡ self.old.spare }
        ensures room { OnOk result (room_of (region self.old kind) < room_of (region self.new kind)) }
    {
        let unopened = self.small.unopened() + self.medium.unopened();
        let Ok(count) = u32::try_from(unopened + 1) else {
            return Err(NoMemory);
        };
        self.table.reserve(count)?;
        match kind {
            Kind::Small => self.small.grow(),
            Kind::Medium => self.medium.grow(),
        }
    }

    /// Room for so many quanta in a kind's subzones. NoMemory leaves all blocks as they were.
    fn cover(&mut self, kind: Kind, quanta: usize) -> Result<(), NoMemory>
        requires { quanta < 2 ^ 32 }
        ensures same { IsRoomierSpace self.old self.new }
        ensures spare { self.new.spare ≡ self.old.spare }
        ensures room { OnOk result (IsCovered quanta (region self.new kind)) }
    {
        if quanta == 0 {
            return Ok(());
        }
        let wanted = quanta + 31;
        for grown in 0..wanted {
            let _ = grown;
            if self.room(kind) >= wanted {
                return Ok(());
            }
            self.grow(kind)?;
        }
        Ok(())
    }

    /// Whether `reserve` may be asked for these lengths: each is one that a layout may have, and with them the blocks, and
    /// those that are to come, take fewer than 2^32 small quanta. O(lengths, and those that are to come).
    pub fn may_reserve(&self, lengths: &[u32]) -> bool
        ensures lengths { IsTrue result → AreLengths lengths.now }
        ensures few { IsTrue result → self.now.used + list_quanta self.now.spare + list_quanta lengths.now < 2 ^ 32 }
        ensures exact { AreLengths lengths.now → self.now.used + list_quanta self.now.spare + list_quanta lengths.now < 2 ^ 32 → IsTrue result }
    {
        let Some(spare) = list_quanta(self.spare.as_slice()) else {
            return false;
        };
        let Some(more) = list_quanta(lengths) else {
            return false;
        };
        self.used as u64 + spare as u64 + (more as u64) <= u32::MAX as u64
    }

    /// Room for blocks of these lengths, which go to the end of those that are to come. NoMemory leaves the blocks and
    /// the lengths as they were. O(lengths that are to come, and the quanta and words of the subzones that it adds).
    pub fn reserve(&mut self, lengths: &[u32]) -> Result<(), NoMemory>
        requires lengths { AreLengths lengths.now }
        requires few { self.old.used + list_quanta self.old.spare + list_quanta lengths.now < 2 ^ 32 }
        ensures same { IsRoomierSpace self.old self.new }
        ensures ok { OnOk result (self.new.spare ≡ self.old.spare ++ lengths.now) }
        ensures err { OnErr result (self.new.spare ≡ self.old.spare) }
    {
        let spare = self.spare.as_slice();
        let small = kind_quanta(Kind::Small, spare) + kind_quanta(Kind::Small, lengths);
        let medium = kind_quanta(Kind::Medium, spare) + kind_quanta(Kind::Medium, lengths);
        self.cover(Kind::Small, small)?;
        self.cover(Kind::Medium, medium)?;
        self.extend(lengths)
    }

    /// These lengths go to the end of those that are to come. NoMemory leaves all as it was.
    fn extend(&mut self, lengths: &[u32]) -> Result<(), NoMemory>
        requires lengths { AreLengths lengths.now }
        requires few { self.old.used + list_quanta self.old.spare + list_quanta lengths.now < 2 ^ 32 }
        requires covered { (k : AKind) → IsCovered (kind_quanta k self.old.spare + kind_quanta k lengths.now) (region self.old k) }
        ensures same { IsRoomierSpace self.old self.new }
        ensures ok { OnOk result (self.new ≡ with_spare self.old (self.old.spare ++ lengths.now)) }
        ensures err { OnErr result (self.new ≡ self.old) }
    {
        match self.spare.extend(lengths) {
            Ok(()) => Ok(()),
            Err(refused) => Err(refused),
        }
    }

    /// The first of the lengths that are to come. O(1).
    pub fn next_length(&self) -> Option<u32>
        ensures { result ≡ slice_get self.now.spare 0 }
    {
        self.spare.as_slice().get(0).copied()
    }

    /// How many blocks are to come. O(1).
    pub fn to_come(&self) -> usize
        ensures { result ≡ length self.now.spare }
    {
        self.spare.as_slice().len()
    }

    /// No block is to come any more. O(1).
    pub fn unreserve(&mut self)
        ensures { self.new ≡ with_spare self.old [] }
    {
        self.spare.clear();
    }
}
