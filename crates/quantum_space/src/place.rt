//! Where a block lies.
ghost use Rattle.std.specs.Prelude.{◌≡◌};
ghost use Rattle.quantum_space.specs.declared.place.Place.{Place as APlace};
ghost use Rattle.quantum_space.specs.Places.{place_cmp};

/// The place of a block: its subzone, and its first quantum there. Places are ordered by subzone, and then by quantum.
#[derive(Clone, Copy, Debug, PartialEq, Eq, PartialOrd, Ord, Hash)]
pub struct Place {
    pub subzone: u32,
    pub quantum: u32,
}

/// The order of places is by subzone, and then by quantum.
pub fn places_are_ordered_by_subzone()
    ensures { (a b : APlace) → ⟦<Place as Ord>⟧.cmp a b ≡ place_cmp a b }
{}
