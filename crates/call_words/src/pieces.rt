//! Readers of single words, one for each kind of word.
//!
//! Each takes the first word off those that are left, and answers what it says; None exactly where the word is missing
//! or says nothing of that kind.
ghost use Rattle.std.specs.Prelude.{◌≡◌, ◌≤◌, IfSome, Some, None};
ghost use Rattle.az_words.specs.Numerals.{number_in};
ghost use Rattle.call_words.specs.Names.{layout_of, collect_of};
ghost use Rattle.call_words.specs.Reading.Words.{thread_of, lettered, reg_of, root_of, weak_of, key_of, block_of};
ghost use Rattle.call_words.specs.Reading.Calls.{Reads, next_as, place_at, location_at};

use crate::keywords::{CollectName, LayoutName, collect_name, layout_name};
use az_base::{BlockId, Key, MOST_THREADS, Reg, RootNo, ThreadNo, WeakNo};
use az_words::{Words, cut_at, number, small_number};
use zone_model::Loc;

/// The thread that a word names: a numeral 1 to 16.
#[tactic(auto, unfolding(crate::specs::Reading::Words::thread_of))]
fn thread(word: &[u8]) -> Option<ThreadNo>
    ensures { result ≡ thread_of word.now }
{
    let number = small_number(1, MOST_THREADS, word)?;
    ThreadNo::new(number)
}

/// The number after a letter: a numeral up to `high`.
fn lettered(letter: u8, high: u32, word: &[u8]) -> Option<u32>
    ensures value { result ≡ lettered letter high word.now }
    ensures range { IfSome result (λ n. n ≤ high) }
{
    match word {
        [first, digits @ ..] => {
            if *first == letter {
                small_number(0, high, digits)
            } else {
                None
            }
        }
        [] => None,
    }
}

/// The register that a word names: `r` and a numeral 0 to 15.
#[tactic(auto, unfolding(crate::specs::Reading::Words::reg_of))]
fn register(word: &[u8]) -> Option<Reg>
    ensures { result ≡ reg_of word.now }
{
    let number = lettered(b'r', 15, word)?;
    Reg::new(number)
}

/// The root that a word names: `g` and a numeral 0 to 255.
#[tactic(auto, unfolding(crate::specs::Reading::Words::root_of))]
fn root(word: &[u8]) -> Option<RootNo>
    ensures { result ≡ root_of word.now }
{
    let number = lettered(b'g', 255, word)?;
    Some(RootNo(number as u8))
}

/// The weak root that a word names: `w` and a numeral 0 to 255.
#[tactic(auto, unfolding(crate::specs::Reading::Words::weak_of))]
fn weak_root(word: &[u8]) -> Option<WeakNo>
    ensures { result ≡ weak_of word.now }
{
    let number = lettered(b'w', 255, word)?;
    Some(WeakNo(number as u8))
}

/// The key that a word names: `k` and a numeral 0 to 255.
#[tactic(auto, unfolding(crate::specs::Reading::Words::key_of))]
fn key(word: &[u8]) -> Option<Key>
    ensures { result ≡ key_of word.now }
{
    let number = lettered(b'k', 255, word)?;
    Some(Key(number as u8))
}

/// The id that a word says: a thread, a dot, and a serial.
#[tactic(auto, unfolding(crate::specs::Reading::Words::block_of, crate::specs::Reading::Words::thread_of))]
fn block(word: &[u8]) -> Option<BlockId>
    ensures { result ≡ block_of word.now }
{
    let (before, after) = cut_at(word, b'.')?;
    let thread = thread(before)?;
    let serial = small_number(0, u32::MAX, after)?;
    Some(BlockId { thread, serial })
}

#[tactic(auto, unfolding(crate::specs::Reading::Calls::next_as))]
pub fn next_thread(words: &mut Words) -> Option<ThreadNo>
    ensures { Reads result words.new (next_as thread_of words.old) }
{
    let word = words.next()?;
    thread(word)
}

#[tactic(auto, unfolding(crate::specs::Reading::Calls::next_as))]
pub fn next_layout_name(words: &mut Words) -> Option<LayoutName>
    ensures { Reads result words.new (next_as layout_of words.old) }
{
    let word = words.next()?;
    layout_name(word)
}

#[tactic(auto, unfolding(crate::specs::Reading::Calls::next_as))]
pub fn next_collect_name(words: &mut Words) -> Option<CollectName>
    ensures { Reads result words.new (next_as collect_of words.old) }
{
    let word = words.next()?;
    collect_name(word)
}

#[tactic(auto, unfolding(crate::specs::Reading::Calls::next_as))]
pub fn next_register(words: &mut Words) -> Option<Reg>
    ensures { Reads result words.new (next_as reg_of words.old) }
{
    let word = words.next()?;
    register(word)
}

#[tactic(auto, unfolding(crate::specs::Reading::Calls::next_as))]
pub fn next_root(words: &mut Words) -> Option<RootNo>
    ensures { Reads result words.new (next_as root_of words.old) }
{
    let word = words.next()?;
    root(word)
}

#[tactic(auto, unfolding(crate::specs::Reading::Calls::next_as))]
pub fn next_key(words: &mut Words) -> Option<Key>
    ensures { Reads result words.new (next_as key_of words.old) }
{
    let word = words.next()?;
    key(word)
}

#[tactic(auto, unfolding(crate::specs::Reading::Calls::next_as))]
pub fn next_block(words: &mut Words) -> Option<BlockId>
    ensures { Reads result words.new (next_as block_of words.old) }
{
    let word = words.next()?;
    block(word)
}

/// A numeral in a range.
#[tactic(auto, unfolding(crate::specs::Reading::Calls::next_as))]
pub fn next_number(low: u32, high: u32, words: &mut Words) -> Option<u32>
    ensures reads { Reads result words.new (next_as (number_in low high) words.old) }
    ensures range { IfSome result (λ n. (low ≤ n) × (n ≤ high)) }
{
    let word = words.next()?;
    small_number(low, high, word)
}

/// A numeral in a range of numbers of 64 bits.
#[tactic(auto, unfolding(crate::specs::Reading::Calls::next_as))]
pub fn next_wide_number(low: u64, high: u64, words: &mut Words) -> Option<u64>
    ensures { Reads result words.new (next_as (number_in low high) words.old) }
{
    let word = words.next()?;
    number(low, high, word)
}

/// A place in a block.
#[tactic(auto, unfolding(crate::specs::Reading::Calls::place_at))]
pub fn next_place(words: &mut Words) -> Option<u32>
    ensures { Reads result words.new (place_at words.old) }
{
    next_number(0, u32::MAX, words)
}

/// A weak root, or a register and a place.
#[tactic(auto, unfolding(crate::specs::Reading::Calls::location_at))]
pub fn next_location(words: &mut Words) -> Option<Loc>
    ensures { Reads result words.new (location_at words.old) }
{
    let word = words.next()?;
    if let Some(root) = weak_root(word) {
        return Some(Loc::Root(root));
    }
    let reg = register(word)?;
    let at = next_place(words)?;
    Some(Loc::Word(reg, at))
}
