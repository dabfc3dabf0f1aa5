//! The value of a `Held`, for writing. It stands beside `held`, since its clause names the type's row.
ghost use Rattle.std.specs.Prelude.{◌≡◌};
ghost use Rattle.std.specs.Borrow.{sem};
ghost use Rattle.zone_gate.specs.Lent.{lends_value};

use crate::held::Held;
use crate::kept::Kept;

impl<V: Kept> Held<V> {
    /// The value. Once the borrow ends, what it has become is the held value, and nothing else has changed.
    pub fn value(&mut self) -> &mut V
        ensures* writes_back { sem 𝓛 (lends_value V.row V.Kept self.entry result) }
        ensures value { result.now ≡ self.old.value }
    {
        &mut self.value
    }
}
