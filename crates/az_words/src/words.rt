//! The words of a line.
ghost use Rattle.std.specs.Prelude.{◌≡◌, ◌∷◌, ◌<◌, ◌≤◌, ℕ, true, false, slice_index, List, [], length, IfSome, IfNone};
ghost use Rattle.std.specs.Str.{bytes_eq};
ghost use Rattle.az_words.specs.Words.{is_blank, words_of};

use std::marker::Model;

fn is_blank(byte: u8) -> bool
    ensures { result ≡ is_blank byte }
{
    byte == b' ' || byte == b'\t'
}

/// How many bytes stand before the first blank.
fn word_len(bytes: &[u8]) -> usize
    ensures within { result ≤ length bytes.now }
    ensures before { (k : ℕ) → k < result → is_blank (slice_index bytes.now k) ≡ false }
    ensures here { result < length bytes.now → is_blank (slice_index bytes.now result) ≡ true }
{
    for (i, byte) in bytes.iter().enumerate() {
        if is_blank(*byte) {
            return i;
        }
    }
    bytes.len()
}

/// How many blanks stand at the front.
fn blanks(bytes: &[u8]) -> usize
    ensures within { result ≤ length bytes.now }
    ensures before { (k : ℕ) → k < result → is_blank (slice_index bytes.now k) ≡ true }
    ensures here { result < length bytes.now → is_blank (slice_index bytes.now result) ≡ false }
{
    for (i, byte) in bytes.iter().enumerate() {
        if !is_blank(*byte) {
            return i;
        }
    }
    bytes.len()
}

/// The first word of a line, and what comes after it; None exactly where no word is left. O(bytes up to its end).
pub fn next_word(line: &[u8]) -> Option<(&[u8], &[u8])>
    ensures some { IfSome result (λ x. words_of line.now ≡ x.0.now ∷ words_of x.1.now) }
    ensures none { IfNone result (words_of line.now ≡ []) }
{
    let (_, rest) = line.split_at(blanks(line));
    if rest.is_empty() {
        return None;
    }
    let (word, after) = rest.split_at(word_len(rest));
    Some((word, after))
}

/// The first byte of the first word of a line; None exactly where the line has no word. O(blanks at its front).
pub fn first_byte(line: &[u8]) -> Option<u8>
    ensures some { IfSome result (λ byte. (more : List ℕ) × (left : List (List ℕ)) × (words_of line.now ≡ (byte ∷ more) ∷ left)) }
    ensures none { IfNone result (words_of line.now ≡ []) }
{
    let (_, rest) = line.split_at(blanks(line));
    match rest {
        [byte, ..] => Some(*byte),
        [] => None,
    }
}

/// The words of a line that are still to be read. Contracts see them as a list.
#[derive(Drop)]
pub struct Words<'a> {
    rest: &'a [u8],
}

impl<'a> Model for Words<'a> {
    ghost use Rattle.std.specs.Prelude.{ℕ, List};
    ghost use Rattle.az_words.specs.Words.{words_of};

    ghost Value = { List (List ℕ) };

    ghost view = { λ w. words_of w.rest.now };
}

impl<'a> Words<'a> {
    /// All words of a line.
    pub fn new(line: &'a [u8]) -> Words<'a>
        ensures { result ≡ words_of line.now }
    {
        Words { rest: line }
    }

    /// The first word, which stays; None exactly where none is left. O(bytes up to its end).
    pub fn peek(&self) -> Option<&'a [u8]>
        ensures some { IfSome result (λ word. (left : List (List ℕ)) × (self.now ≡ word.now ∷ left)) }
        ensures none { IfNone result (self.now ≡ []) }
    {
        let (word, _) = next_word(self.rest)?;
        Some(word)
    }

    /// Takes the first word off; None exactly where none is left. O(bytes up to its end).
    pub fn next(&mut self) -> Option<&'a [u8]>
        ensures some { IfSome result (λ word. self.old ≡ word.now ∷ self.new) }
        ensures none { IfNone result (self.old ≡ []) }
        ensures end { IfNone result (self.new ≡ []) }
    {
        let (word, rest) = next_word(self.rest)?;
        self.rest = rest;
        Some(word)
    }
}

/// Whether a word is this text.
pub fn is_word(word: &[u8], text: &[u8]) -> bool
    ensures { result ≡ bytes_eq word.now text.now }
{
    word == text
}
