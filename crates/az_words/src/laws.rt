//! Laws that say what is read apart from how.
ghost use Rattle.az_words.specs.Laws.{NumeralsAreRead, NumbersAreRead};

/// Exactly the numerals are read, each with its value.
pub fn numerals_are_read()
    ensures { NumeralsAreRead }
{}

/// Exactly the numerals in a range are read as numbers in that range.
pub fn numbers_are_read()
    ensures { NumbersAreRead }
{}
