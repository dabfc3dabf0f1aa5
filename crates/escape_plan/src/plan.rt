//! What is planned.
ghost use Rattle.std.specs.Prelude.{◌≡◌};

use az_base::BlockId;
use std::marker::Model;

/// Blocks that may escape together, ascending, and their small quanta.
#[derive(Drop)]
pub struct EscapePlan {
    ids: Vec<BlockId>,
    quanta: u64,
}

impl Model for EscapePlan {
    ghost use Rattle.escape_plan.specs.Planning.{Plan};

    ghost Value = { Plan };

    ghost view = { λ p. record { ids = p.ids.items; quanta = p.quanta } };
}

impl EscapePlan {
    /// A plan of these blocks.
    pub(crate) fn new(ids: Vec<BlockId>, quanta: u64) -> EscapePlan
        ensures ids { result.ids ≡ ids.items }
        ensures quanta { result.quanta ≡ quanta }
    {
        EscapePlan { ids, quanta }
    }

    /// The blocks, ascending. O(1).
    pub fn ids(&self) -> &[BlockId]
        ensures { result.now ≡ self.now.ids }
    {
        self.ids.as_slice()
    }

    /// The small quanta of the blocks. O(1).
    pub fn quanta(&self) -> u64
        ensures { result ≡ self.now.quanta }
    {
        self.quanta
    }
}
