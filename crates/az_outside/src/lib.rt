//! Where the bytes of a program come from and go to, as its contracts see them.
//!
//! A `Source` has bytes left and a `Sink` was given some, where it tells them; both count their faults, so that a
//! clause can say that a failure had a cause. `read_all` and `write_all` are all that the layers above call. The ends
//! in memory serve tests and examples, and those over std's readers and writers serve the program.
#![tactic(auto)]

mod calls;
mod memory_sink;
mod memory_source;
mod reading;
mod sink;
mod source;
mod std_sink;
mod std_source;
mod sure_sink;
mod sure_source;
mod tries;
mod writing;

pub use memory_sink::MemorySink;
pub use memory_source::MemorySource;
pub use reading::{ReadAll, read_all};
pub use sink::Sink;
pub use source::{Failed, Source};
pub use std_sink::StdSink;
pub use std_source::StdSource;
pub use sure_sink::SureSink;
pub use sure_source::SureSource;
pub use writing::{Fault, write_all};
