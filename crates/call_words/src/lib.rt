//! The words of calls: what scripts and histories have in common, read and written.
//!
//! A call stands in a text as its name and its arguments, one after the other, and an argument is one word or a few. The
//! names and the kinds of arguments are written once here, as a grammar over lists of words, which knows nothing of the
//! spaces between them. One reader for each kind of argument takes its words off those that are left, and the laws say
//! that what the readers answer is exactly what the grammar has.
//!
//! Writing goes the other way: a call is given as the list of its words, and one writer for each kind of word adds it
//! behind a space. What is written asks for the same call by the grammar, so that it is read back, and single spaces are
//! where it is cut into words. Options have their names and their lines here too, since both texts begin with them.
#![tactic(auto)]

mod argument_err;
mod calls;
mod keywords;
mod laws;
mod memory;
mod names;
mod options;
mod pieces;
mod push_calls;
mod push_pieces;

pub use argument_err::ArgumentErr;
pub use calls::arguments;
pub use keywords::{CollectName, collect_name};
pub use laws::{
    arguments_are_read, collect_names_are_read, names_are_read, option_names_are_read,
    read_calls_are_spelled, spaced_words_are_cut, written_calls_are_plain, written_calls_are_read,
};
pub use names::{CallName, call_name};
pub use options::{OptionName, next_option, push_option, push_options};
pub use pieces::{next_block, next_number, next_thread, next_wide_number};
pub use push_calls::{push_act, push_call};
pub use push_pieces::{push_feed, push_id, push_named, push_number, push_thread, push_word};
