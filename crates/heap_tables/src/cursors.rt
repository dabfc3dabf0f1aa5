//! Cursors over lists of places, some of which hold nothing.
ghost use Rattle.std.specs.Prelude.{◌≡◌, ◌≤◌, ◌+◌, ◌-◌, ◌<◌, ◌^◌};
ghost use Rattle.block_table.specs.Places.{NextOf};

use az_base::BlockId;

/// The first block from a place on, and the place after it.
pub fn next_some(places: &[Option<BlockId>], place: u64) -> Option<(BlockId, u64)>
    ensures { NextOf places.now place result }
{
    for n in place as usize..places.len() {
        if let Some(id) = places[n] {
            return Some((id, n as u64 + 1));
        }
    }
    None
}
