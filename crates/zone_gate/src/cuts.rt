//! The turns of a thread, which contracts alone see.
ghost use Rattle.std.specs.Prelude.{◌≡◌, List, [], ◌∷◌, ◌++◌};
ghost use Rattle.std.specs.Borrow.{ftrue};
ghost use Rattle.zone_gate.specs.declared.cut.Cut.{Cut};

use std::marker::Model;

/// One `Cut` for each turn, oldest first. It has no bytes, and this crate alone makes one.
#[derive(Drop)]
pub struct Cuts {
    pub ghost list: { List Cut },
}

impl Model for Cuts {
    ghost also_owns = { λ _. ftrue };
}

// It owns nothing.
unsafe impl Send for Cuts {}

impl Cuts {
    pub(crate) fn new() -> Cuts
        ensures { result.list ≡ [] }
    {
        Cuts {}
    }

    // One cut more, which the caller's proof names, of the turn.
    pub(crate) fn then<A>(_before: &Cuts, _turn: &A) -> Cuts
        ghost next: { Cut }
        ensures { result.list ≡ _before.now.list ++ next ∷ [] }
    {
        Cuts {}
    }
}
