//! One turn of a thread.

/// What a thread left as it gave the gate back: how many entries it had made by then, how many blocks it had scanned in
/// this turn, and how many were still grey.
#[derive(Clone, Copy, Debug, PartialEq, Eq)]
pub struct Cut {
    pub length: u64,
    pub scanned: u64,
    pub grey: u64,
}
