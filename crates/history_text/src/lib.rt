//! Histories as text, written and read.
//!
//! A text is lines, each with its line feed: the options that aren't at their default, in their order, one line for each
//! entry, and a last line with the number of entries and the statistics of the end.
//!
//! A line is its words, separated by one space. What stands on it is given as a list of words, one definition for each
//! kind of thing: to write is to add these words, and to read is to take words off the front.
//!
//! # One text for each line
//!
//! A history is checked by others, so its text must say one thing, and say it in one way. The reader of words doesn't
//! look at how they are spelled: a tab, two spaces or a leading zero pass there. But what was read is then written again,
//! and has to be the line that was read, byte for byte. So whatever the writer doesn't write is refused, by one
//! comparison, and no rule of the spelling stands in two places. Reading costs what writing costs, and a copy of the line.
//!
//! # From lines to a text
//!
//! A draft has the options and the entries of the lines so far, and the place of the first option that may still come. A
//! line is taken where some text has it after those before, and the first one that can't be taken is named: whatever
//! stands before it can go on to be a text, and nothing goes on from it.
#![tactic(auto)]

mod draft;
mod laws;
mod lines;
mod names;
mod read;
mod reading;
mod replies;
mod texts;
mod writing;

pub use laws::{
    lines_have_one_reading, one_line_is_the_first_wrong_one, texts_are_read_back,
    texts_have_one_reading,
};
pub use lines::{HistoryLine, Setting, push_end, push_entry, push_line, push_setting};
pub use read::read_line;
pub use texts::{HistoryText, TextErr, read_text};
pub use writing::write_text;
