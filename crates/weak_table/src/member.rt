//! A location in a list.
ghost use Rattle.std.specs.Prelude.{◌≡◌};

use az_base::{WeakLoc, WeakNo};
use std::default::Default;
use std::marker::Model;

/// A location, as an item of a short list, whose unused places need some value.
#[derive(Clone, Copy)]
pub struct Member {
    loc: WeakLoc,
}

impl Model for Member {
    ghost use Rattle.az_base.specs.declared.weak_loc.WeakLoc.{WeakLoc};
    ghost use Rattle.az_base.specs.Codes.{coded_loc};

    ghost Value = { WeakLoc };

    ghost coded = { coded_loc };

    ghost view = { λ m. m.loc };

    ghost inverse = { λ l. record { loc = l } };
}

impl Default for Member {
    fn default() -> Member {
        Member::new(WeakLoc::Root(WeakNo(0)))
    }
}

impl Member {
    pub fn new(loc: WeakLoc) -> Member
        ensures { result ≡ loc }
    {
        Member { loc }
    }

    pub fn loc(self) -> WeakLoc
        ensures { result ≡ self }
    {
        self.loc
    }
}
