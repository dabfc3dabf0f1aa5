//! The commands of the program: what its words ask for, from a source to two sinks.
//!
//! A command reads its whole input first, then works, and then writes its whole output, so that whatever is refused
//! has written nothing. How it ended is a status, which is also said on the error output in one line.
//!
//! `autozone` is the call that does all that the program does, with the contract that says what the program promises.
#![tactic(auto)]

mod command;
mod laws;
mod saying;
mod soak;
mod status;
mod top;
mod words;

pub use command::run_command;
pub use laws::{
    bytes_have_one_text, commands_are_asked, histories_are_spelled, soaks_have_one_text,
    texts_are_read_as_played, texts_are_read_as_run,
};
pub use saying::say;
pub use status::Status;
pub use top::autozone;
