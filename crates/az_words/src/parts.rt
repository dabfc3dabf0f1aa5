//! The parts of a word.
ghost use Rattle.std.specs.Prelude.{◌≡◌, ◌==◌, ◌<◌, ◌≤◌, ℕ, Some, None, true, false, slice_index, length, IfSome, IfNone};
ghost use Rattle.az_words.specs.Parts.{cut_at};

/// How many bytes stand before the first one that is this byte.
fn front_len(word: &[u8], byte: u8) -> usize
    ensures within { result ≤ length word.now }
    ensures before { (k : ℕ) → k < result → (slice_index word.now k == byte) ≡ false }
    ensures here { result < length word.now → (slice_index word.now result == byte) ≡ true }
{
    for (i, other) in word.iter().enumerate() {
        if *other == byte {
            return i;
        }
    }
    word.len()
}

/// What stands before the first such byte of a word, and what stands after it; None exactly where the byte isn't there.
/// O(bytes of the word).
pub fn cut_at(word: &[u8], byte: u8) -> Option<(&[u8], &[u8])>
    ensures some { IfSome result (λ x. cut_at byte word.now ≡ Some (x.0.now, x.1.now)) }
    ensures none { IfNone result (cut_at byte word.now ≡ None) }
{
    let (front, rest) = word.split_at(front_len(word, byte));
    match rest {
        [_, back @ ..] => Some((front, back)),
        [] => None,
    }
}
