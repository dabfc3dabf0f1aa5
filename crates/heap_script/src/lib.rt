//! Scripts: what the threads of a zone are to do, as text.
//!
//! A script is lines of words. A call line is a thread, a call and its arguments; a line without words, or whose first
//! word begins with `#`, says nothing. The bytes are read line by line, and each line word by word, with one reader for
//! each kind of word. The first line that has a cause refuses the whole, with the first of its causes, in the order of
//! `Cause`: so each reader names the cause that stands where its word is missing or wrong.
#![tactic(auto)]

mod cause;
mod entries;
mod laws;
mod line;
mod printing;
mod reading;
mod script;
mod setting;

pub use cause::{Cause, ScriptErr};
pub use laws::{
    lines_are_read, lines_are_refused, options_are_read, options_are_refused,
    printed_scripts_are_read, scripts_are_read, scripts_are_refused, scripts_can_be_played,
    texts_have_one_reading,
};
pub use line::{Line, LineList};
pub use printing::print;
pub use reading::parse;
pub use script::Script;
pub use zone_model::Act;
