//! What the tests have in common.
use history_text::{TextErr, read_text};
use std::alloc::Global;

/// The number of entries that a text says, or its first line that can't stand; None where memory ran out.
pub type Outcome = Option<Result<usize, u64>>;

pub fn outcome(alloc: Global, bytes: &[u8]) -> Outcome {
    match read_text(alloc, bytes) {
        Ok(text) => Some(Ok(text.journal.entries().len())),
        Err(TextErr::Line(line)) => Some(Err(line)),
        Err(TextErr::NoMemory) => None,
    }
}
