//! The numbers that words say.
ghost use Rattle.std.specs.Prelude.{◌≡◌, ◌≤◌, ◌+◌, ◌*◌, ◌-◌, [], ◌∷◌, true, IfSome};
ghost use Rattle.std.specs.Char.{is_ascii_digit};
ghost use Rattle.az_words.specs.Numerals.{below_2_64, numeral_of, number_in};

/// The number with one digit more at its end; None exactly where it is 2^64 or larger.
fn with_digit(value: u64, digit: u8) -> Option<u64>
    requires { is_ascii_digit digit ≡ true }
    ensures { result ≡ below_2_64 (value * 10 + (digit - 48)) }
{
    value.checked_mul(10)?.checked_add(u64::from(digit - b'0'))
}

/// The value of a numeral: 1 to 20 decimal digits, leading zeros included, whose value is below 2^64. None exactly
/// where the word is no numeral. O(bytes of the word).
pub fn numeral(word: &[u8]) -> Option<u64>
    ensures { result ≡ numeral_of word.now }
{
    // Most numerals of scripts and histories have one digit.
    match word {
        [digit] => short_numeral(*digit),
        _ => long_numeral(word),
    }
}

/// The value of a numeral of one digit; None exactly where the byte is no digit.
fn short_numeral(digit: u8) -> Option<u64>
    ensures { result ≡ numeral_of (digit ∷ []) }
{
    if digit.is_ascii_digit() {
        Some(u64::from(digit - b'0'))
    } else {
        None
    }
}

/// The value of a numeral of any length, digit by digit.
fn long_numeral(word: &[u8]) -> Option<u64>
    ensures { result ≡ numeral_of word.now }
{
    if word.is_empty() {
        return None;
    }
    if word.len() > 20 {
        return None;
    }
    let mut value = 0u64;
    for (i, digit) in word.iter().enumerate() {
        if !digit.is_ascii_digit() {
            return None;
        }
        match with_digit(value, *digit) {
            Some(more) => value = more,
            None => return None,
        }
    }
    Some(value)
}

/// The value of a numeral from `low` to `high`; None exactly where the word is none.
#[tactic(auto, unfolding(crate::specs::Numerals::number_in, crate::specs::Numerals::within))]
pub fn number(low: u64, high: u64, word: &[u8]) -> Option<u64>
    ensures value { result ≡ number_in low high word.now }
    ensures range { IfSome result (λ n. (low ≤ n) × (n ≤ high)) }
{
    let n = numeral(word)?;
    if low <= n && n <= high { Some(n) } else { None }
}

/// The value of a numeral from `low` to `high`, as a number of 32 bits; None exactly where the word is none.
#[tactic(auto, unfolding(crate::specs::Numerals::number_in, crate::specs::Numerals::within))]
pub fn small_number(low: u32, high: u32, word: &[u8]) -> Option<u32>
    ensures value { result ≡ number_in low high word.now }
    ensures range { IfSome result (λ n. (low ≤ n) × (n ≤ high)) }
{
    let n = numeral(word)?;
    if u64::from(low) <= n && n <= u64::from(high) {
        Some(n as u32)
    } else {
        None
    }
}
