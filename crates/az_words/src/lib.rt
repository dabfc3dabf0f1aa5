//! Lines, words and numerals of texts.
//!
//! A text is bytes. A line feed ends a line, and what stands after the last one is a line where it isn't empty. Words
//! are the longest runs of bytes other than space and tab. A reader keeps the rest of the text, or of the line, as a
//! slice, and cuts off one line or word at a time: nothing is copied, and reading to the end is linear.
#![tactic(auto)]

mod laws;
mod lines;
mod numerals;
mod parts;
mod texts;
mod words;

pub use laws::{numbers_are_read, numerals_are_read};
pub use lines::next_line;
pub use numerals::{number, numeral, small_number};
pub use parts::cut_at;
pub use texts::is_text;
pub use words::{Words, first_byte, is_word, next_word};
