//! The three colours of marking.

/// How far marking has come with a block. White: not reached. Grey: reached, and its edges are still to be followed.
/// Black: its edges were followed.
#[derive(Clone, Copy, Debug, PartialEq, Eq, Hash)]
pub enum Shade {
    White,
    Grey,
    Black,
}
