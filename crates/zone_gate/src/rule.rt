//! The rule of the gate's table, and what each kind of step tells the seat that makes it.
use crate::kept::Kept;
use crate::view::{Setting, View};
use atomic_table::{Join, Play, Split, TableRule};

/// What holds of the words, the value at home and all views, between any two steps.
pub struct GateRule;

impl<V: Kept> TableRule<Option<V>, View, Setting> for GateRule {
    ghost use Rattle.std.specs.Prelude.{[]};
    ghost use Rattle.zone_gate.specs.Rule.{RuleHolds};
    ghost use Rattle.zone_gate.specs.Views.{resting};
    ghost use Rattle.zone_gate.specs.Owning.{fresh};

    ghost holds = { λ key. RuleHolds V.list V.chosen key.options key.threads.value.items };

    ghost first = { λ key. resting key.options [] (fresh key.threads.value.items) };
}

/// The seat draws a ticket.
pub struct Draw;

impl<V: Kept> Play<Option<V>, View> for Draw {
    ghost use Rattle.zone_gate.specs.Steps.{Draws};

    ghost then = { Draws V.list V.chosen };
}

/// The seat looks which ticket is served.
pub struct Look;

impl<V: Kept> Play<Option<V>, View> for Look {
    ghost use Rattle.zone_gate.specs.Steps.{Looks};

    ghost then = { Looks V.list V.chosen };
}

/// The slot goes home, and the next ticket is served.
pub struct GiveBack;

impl<V: Kept> Play<Option<V>, View> for GiveBack {
    ghost use Rattle.zone_gate.specs.Steps.{GivesBack};

    ghost then = { GivesBack V.list V.chosen };
}

/// A new seat gets the first thread.
pub struct SplitFirst;

impl Split<View> for SplitFirst {
    ghost use Rattle.zone_gate.specs.Owning.{first_only, after_first};

    ghost left = { λ v. record v { own = after_first v.own } };

    ghost right = { λ v. record v { own = first_only v.own } };
}

/// A new seat has seen as much, and has no thread.
pub struct SplitSeen;

impl Split<View> for SplitSeen {
    ghost use Rattle.std.specs.Prelude.{[]};

    ghost left = { λ v. v };

    ghost right = { λ v. record v { own = [] } };
}

/// A seat takes in another one.
pub struct JoinBoth;

impl Join<View> for JoinBoth {
    ghost use Rattle.zone_gate.specs.Views.{joined, spent};

    ghost both = { joined };

    ghost spent = { spent };
}
