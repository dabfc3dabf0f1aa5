//! What is called round each line.
use auto_zone::Session;
use az_base::ThreadNo;

/// Called by a worker before and after each of its lines, with the session that does the line. The place counts the
/// thread's lines from 0.
pub trait Pace {
    fn before(&self, thread: ThreadNo, place: u32, session: &Session);

    /// A line that was refused for want of memory has no call after it.
    fn after(&self, thread: ThreadNo, place: u32, session: &Session);
}

/// It does nothing.
#[derive(Clone, Copy)]
pub struct NoPace;

impl Pace for NoPace {
    fn before(&self, _thread: ThreadNo, _place: u32, _session: &Session) {}

    fn after(&self, _thread: ThreadNo, _place: u32, _session: &Session) {}
}
