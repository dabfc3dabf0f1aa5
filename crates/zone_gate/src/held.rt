//! The value, while a seat has its turn.
ghost use Rattle.std.specs.Prelude.{◌≡◌};

use crate::cuts::Cuts;
use crate::kept::Kept;
use crate::view::View;
use az_base::ThreadNo;
use std::marker::Model;
use std::snapshot::Snapshot;

// A seat of the table, which has no bytes.
pub(crate) type Token<V> = atomic_table::Seat<Option<V>, View>;

/// The value of a gate, out with one seat. It can't be dropped: it has to be given back. Contracts see the seat's gate,
/// thread, own entries and cuts, the value as it was at `hold`, and the value as it is.
pub struct Held<V: Kept> {
    pub(crate) value: V,
    pub(crate) token: Token<V>,
    pub(crate) thread: ThreadNo,
    pub(crate) cuts: Cuts,
    pub(crate) was: Snapshot<V>,
}

impl<V: Kept> Model for Held<V> {
    ghost use Rattle.std.specs.Prelude.{◌≡◌, [], ◌∷◌, None};
    ghost use Rattle.zone_gate.specs.Shown.{HeldShown};
    ghost use Rattle.zone_gate.specs.Tokens.{IsOut, entries_in};

    ghost Value = { HeldShown V };

    ghost view = { λ h. record { gate = h.token.table_id; thread = h.thread; own = entries_in h.token.me.0.own; cuts = h.cuts.list; was = h.was.value; value = h.value } };

    ghost invariant = { λ h. IsOut V.list V.chosen h.thread h.was.value h.token.me };
}

// A turn that ends, for the proof alone.
#[derive(Drop)]
pub(crate) struct Turn<V> {
    pub(crate) thread: ThreadNo,
    pub(crate) was: Snapshot<V>,
    pub(crate) now: Snapshot<V>,
}
