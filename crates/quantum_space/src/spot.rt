//! Where a block lies among those of its kind.

/// The two kinds of subzones: those of small quanta, and those of medium ones.
#[derive(Clone, Copy, PartialEq, Eq)]
pub enum Kind {
    Small,
    Medium,
}

/// A quantum of a kind, counted over all subzones of the kind.
#[derive(Clone, Copy)]
pub struct Spot {
    pub kind: Kind,
    pub at: usize,
}
