//! Begin: a cycle opens.
ghost use Rattle.std.specs.Prelude.{◌≡◌, ◌≤◌, None, Some, IfOk, OnErr};
ghost use Rattle.block_table.specs.Table.{IsTable};
ghost use Rattle.heap_cycle.specs.Collects.{Collects};
ghost use Rattle.heap_cycle.specs.Phases.{IsOpened, at_begin};
ghost use Rattle.heap_cycle.specs.Waiting.{unfinalised_by};

use crate::open_cycle::{CycleLists, OpenCycle};
use az_base::{Mode, NoMemory, ThreadNo};
use gen_marker::Marker;
use heap_tables::Tables;
use std::alloc::Global;

impl OpenCycle {
    /// Opens a cycle over the tables, whose blocks are its start, and begins to mark. It takes the room for all that the
    /// cycle does: the mark stack, the condemned list, and the lists of the replies and of their entries. `left` is how many
    /// finalisers it may come to run. NoMemory leaves the tables as they were, but that they are ready for a cycle.
    /// O(blocks).
    pub fn begin(
        alloc: Global,
        tables: &mut Tables,
        owner: ThreadNo,
        mode: Mode,
        left: u32,
    ) -> Result<OpenCycle, NoMemory>
        requires collects { Collects tables.old None }
        requires left { unfinalised_by tables.old.blocks.blocks ≤ left }
        ensures ok { IfOk result (λ o. IsOpened tables.old tables.new mode o) }
        ensures given { IfOk result (λ o. (o.owner ≡ owner) × (o.mode ≡ mode) × (o.left ≡ left)) }
        ensures collects { IfOk result (λ o. Collects tables.new (Some o)) }
        ensures table { IsTable tables.new.blocks }
        ensures err { OnErr result (tables.new ≡ at_begin tables.old) }
        ensures still { OnErr result (Collects tables.new None) }
    {
        tables.blocks.begin();
        let lists = CycleLists::with_room(alloc, tables.blocks.len() as usize)?;
        let marker = Marker::begin(alloc, tables, mode)?;
        tables.are_tables();
        Ok(lists.into_cycle(marker, owner, mode, left))
    }
}
