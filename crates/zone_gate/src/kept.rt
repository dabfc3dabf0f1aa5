//! What a gate can keep.
ghost use Rattle.std.specs.Prelude.{◌≡◌, ℕ, List, map};
ghost use Rattle.zone_model.specs.Bare.{bare_entry};
ghost use Rattle.zone_model.specs.declared.entry.Entry.{Entry};
ghost use Rattle.az_base.specs.declared.options.Options.{Options};

use az_base::Options;
use zone_model::Entry;

/// A value that stands for a list of entries, under options.
pub trait Kept {
    // The entries, without the room of their lists.
    ghost list: { Self → List Entry };

    ghost chosen: { Self → Options };

    // How many blocks are grey and how many black, while a cycle is open and not condemned; else 0.
    ghost grey: { Self → ℕ };

    ghost black: { Self → ℕ };

    fn entries(&self) -> &[Entry]
        ensures { map bare_entry result.now ≡ list self.now };

    fn options(&self) -> Options
        ensures { result ≡ chosen self.now };
}
