//! Condemn: what is white goes.
ghost use Rattle.std.specs.Prelude.{◌≡◌, ◌<◌, ◌≤◌, ◌^◌, [], None, Some, count_by, length, if◌then◌else◌};
ghost use Rattle.heap_cycle.specs.Collects.{Collects, condemned_at};
ghost use Rattle.heap_cycle.specs.Phases.{IsCondemned};
ghost use Rattle.heap_cycle.specs.Waiting.{awaits_in};

use crate::open_cycle::{OpenCycle, Phase};
use az_base::BlockId;
use finalise_pass::Pass;
use heap_tables::Tables;
use zone_model::IdList;

impl OpenCycle {
    /// Marks to the end, and condemns what is white then: the cycle, which settles from now on, and a list of the
    /// condemned blocks, ascending. It takes no memory. O(blocks and edges, and c log c for c condemned blocks).
    pub fn condemn(self, tables: &mut Tables) -> (OpenCycle, IdList)
        requires collects { Collects tables.old (Some self) }
        requires marking { condemned_at self.phase ≡ None }
        ensures condemned { IsCondemned tables.old tables.new self result.0 result.1.list }
        ensures collects { Collects tables.new (Some result.0) }
    {
        // There are fewer than 4,294,967,296 blocks.
        let _blocks = tables.blocks.len();
        let OpenCycle {
            owner,
            mode,
            lent,
            phase,
            ..
        } = self;
        let Phase::Marking {
            marker,
            reply,
            kept,
        } = phase
        else {
            unreachable!()
        };
        let condemned = marker.finish_uncounted(tables);
        let left = waiting_among(tables, condemned.ids.as_slice());
        let reply = copied(condemned.ids.as_slice(), reply);
        let cycle = OpenCycle {
            owner,
            mode,
            left,
            lent,
            phase: Phase::Settling {
                pass: Pass::new(condemned, kept),
            },
        };
        (cycle, reply)
    }
}

/// How many of the blocks have actions and aren't finalised.
fn waiting_among(tables: &Tables, ids: &[BlockId]) -> u32
    requires few { length ids.now < 2 ^ 32 }
    ensures { result ≡ count_by (awaits_in tables.now.blocks.blocks) ids.now }
{
    let mut waiting = 0;
    for id in ids {
        waiting += waiting_at(tables, *id);
    }
    waiting
}

/// 1 where the block has actions and isn't finalised, and else 0.
fn waiting_at(tables: &Tables, id: BlockId) -> u32
    ensures { result ≡ (if awaits_in tables.now.blocks.blocks id then 1 else 0) }
{
    if tables.blocks.action(id, 0).is_some() && !tables.blocks.is_finalised(id) {
        1
    } else {
        0
    }
}

/// The list, which has room for the blocks, with these in it.
fn copied(ids: &[BlockId], list: IdList) -> IdList
    requires empty { list.list ≡ [] }
    requires room { length ids.now ≤ list.spare }
    ensures { result.list ≡ ids.now }
{
    let mut copy = list;
    for id in ids {
        copy.push(*id);
    }
    copy
}
