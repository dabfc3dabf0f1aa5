//! The lines of a text.
ghost use Rattle.std.specs.Prelude.{◌≡◌, ◌∷◌, ◌<◌, ◌≤◌, ℕ, true, false, slice_index, [], length, IfSome, IfNone};
ghost use Rattle.std.specs.Str.{IsUtf8};
ghost use Rattle.az_words.specs.Lines.{is_feed, lines_of};

use memchr::memchr;

/// How many bytes stand before the first line feed.
fn line_len(bytes: &[u8]) -> usize
    ensures within { result ≤ length bytes.now }
    ensures before { (k : ℕ) → k < result → is_feed (slice_index bytes.now k) ≡ false }
    ensures here { result < length bytes.now → is_feed (slice_index bytes.now result) ≡ true }
{
    match memchr(b'\n', bytes) {
        Some(at) => at,
        None => bytes.len(),
    }
}

/// The first line, without its line feed, and what comes after it; None exactly where no byte is left. A last line
/// needs no line feed. O(bytes of the line).
pub fn next_line(bytes: &[u8]) -> Option<(&[u8], &[u8])>
    ensures some { IfSome result (λ x. lines_of bytes.now ≡ x.0.now ∷ lines_of x.1.now) }
    ensures none { IfNone result (lines_of bytes.now ≡ []) }
    ensures shorter { IfSome result (λ x. length x.1.now < length bytes.now) }
    ensures text { IsUtf8 bytes.now → IfSome result (λ x. IsUtf8 x.0.now × IsUtf8 x.1.now) }
{
    if bytes.is_empty() {
        return None;
    }
    let (line, after) = bytes.split_at(line_len(bytes));
    match after {
        [_, rest @ ..] => Some((line, rest)),
        [] => Some((bytes, after)),
    }
}
