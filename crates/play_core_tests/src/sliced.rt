//! Cycles that are marked one block at a time, with every kind of store between two slices.
ghost use Rattle.std.specs.Prelude.{◌≡◌, ◌<◌};

use crate::cycles::Answer::{Begun, Block, Condemned, Done, Null, Number, Settled};
use crate::cycles::Ask::{
    Begin, Condemn, Drop, GetAssoc, GetRoot, Load, ReadWeak, Reclaim, Retain, Scanned, SetAssoc,
    SetRoot, SetWeak, Store,
};
use crate::cycles::{Row, is_row, world};
use crate::tests::closes;
use az_base::{Mode, Steps, ThreadNo};
use play_core::World;
use std::alloc::Global;
use std::marker::Brand;
use std::sync::ledger::{Blank, Ledger};
use std::test::*;
use zone_model::Call;

/// One block is scanned where the thread's own cycle marks.
fn slice<L: Ledger>(world: &mut World, thread: ThreadNo, steps: &mut Steps<L>) {
    if world.is_running(thread) && world.may(thread, &Call::Condemn) {
        let _ = world.slice(thread, 1, steps);
    }
}

/// Whether all calls answer so, with a slice before each where thread 1 marks, and the zone then ends with an entry for each
/// of them and for the leave of each of two threads.
fn are_sliced<L: Ledger>(
    alloc: Global,
    world: &mut World,
    rows: &[Row],
    steps: &mut Steps<L>,
) -> bool {
    let Some(one) = ThreadNo::new(1) else {
        return false;
    };
    for row in rows {
        slice(world, one, steps);
        if !is_row(alloc, world, row) {
            return false;
        }
    }
    closes(alloc, world) && world.journal().len().checked_sub(2) == Some(rows.len())
}

fn with_blank<L: Ledger>(alloc: Global, world: &mut World, rows: &[Row], blank: Blank) -> bool
    requires name { blank.name ≡ L.name }
    requires parts { blank.parts ≡ L.parts }
    requires some { 0 < L.parts }
{
    let mut steps = Steps::<L>::new(blank);
    are_sliced(alloc, world, rows, &mut steps)
}

/// Whether the rows answer so in a new world, with slices between them.
fn plays(alloc: Global, local: u32, rows: &[Row]) -> bool {
    match world(alloc, local) {
        Some(mut world) => with_blank::<Brand>(alloc, &mut world, rows, Blank::new(1)),
        None => false,
    }
}

// Block 0 moves from block 1 to block 6, block 2 from block 3 to an association of block 6, and block 7 from a root to a
// retain count, while the cycle marks. Blocks 4 and 5 refer to each other alone. Blocks 1 and 8 are dropped while it marks:
// the next cycle takes them.
#[test]
fn stores_between_slices_hide_nothing(rt: HostRuntime) -> Result<(), Fail> {
    let rows = [
        (1, Scanned(0), Block(0)),
        (1, Scanned(1), Block(1)),
        (1, Store(1, 0, 0), Done),
        (1, SetRoot(0, 1), Done),
        (1, Scanned(0), Block(2)),
        (1, Scanned(1), Block(3)),
        (1, Store(1, 0, 0), Done),
        (1, SetRoot(1, 1), Done),
        (1, Scanned(0), Block(4)),
        (1, Scanned(1), Block(5)),
        (1, Store(0, 0, 1), Done),
        (1, Store(1, 0, 0), Done),
        (1, Drop(0), Done),
        (1, Drop(1), Done),
        (1, Scanned(2), Block(6)),
        (1, Scanned(3), Block(7)),
        (1, SetWeak(0, 3), Block(7)),
        (1, SetRoot(2, 3), Done),
        (1, Drop(3), Done),
        (1, Begin(Mode::Full), Begun),
        (1, GetRoot(0, 0), Block(1)),
        (1, Load(1, 0, 0), Block(0)),
        (1, Store(0, 0, 9), Done),
        (1, Store(2, 0, 1), Done),
        (1, Drop(1), Done),
        (1, SetRoot(0, 9), Done),
        (1, GetRoot(0, 1), Block(3)),
        (1, Load(1, 0, 0), Block(2)),
        (1, SetAssoc(2, 0, 1), Null),
        (1, Store(0, 0, 9), Done),
        (1, Drop(1), Done),
        (1, ReadWeak(0, 0), Block(7)),
        (1, Retain(0), Number(1)),
        (1, SetRoot(2, 9), Done),
        (1, Scanned(0), Block(8)),
        (1, SetWeak(1, 2), Block(6)),
        (1, Drop(0), Done),
        (1, Condemn, Condemned(&[4, 5])),
        (1, Reclaim, Settled(&[4, 5], &[])),
        (1, Load(0, 2, 0), Block(0)),
        (1, GetAssoc(0, 2, 0), Block(2)),
        (1, ReadWeak(0, 0), Block(7)),
        (1, Drop(0), Done),
        (1, Begin(Mode::Full), Begun),
        (1, Condemn, Condemned(&[1, 8])),
        (1, Reclaim, Settled(&[1, 8], &[])),
    ];
    let worked = plays(rt.alloc(), 0, &rows);
    assert!(rt; worked);
    Ok(())
}

// Block 1 moves from block 0 to a word of block 3, which is known to its thread alone, and escapes with it while the cycle
// marks. Nothing leads to block 2.
#[test]
fn what_escapes_between_slices_keeps_what_it_refers_to(rt: HostRuntime) -> Result<(), Fail> {
    let rows = [
        (1, Scanned(0), Block(0)),
        (1, Scanned(1), Block(1)),
        (1, Store(0, 0, 1), Done),
        (1, SetRoot(0, 0), Done),
        (1, Drop(0), Done),
        (1, Drop(1), Done),
        (1, Scanned(2), Block(2)),
        (1, SetRoot(1, 2), Done),
        (1, Drop(2), Done),
        (1, SetRoot(1, 9), Done),
        (1, Begin(Mode::Full), Begun),
        (1, Scanned(0), Block(3)),
        (1, GetRoot(1, 0), Block(0)),
        (1, Load(2, 1, 0), Block(1)),
        (1, Store(0, 0, 2), Done),
        (1, Drop(2), Done),
        (1, Store(1, 0, 9), Done),
        (1, SetRoot(2, 0), Done),
        (1, Drop(0), Done),
        (1, Drop(1), Done),
        (1, Condemn, Condemned(&[2])),
        (1, Reclaim, Settled(&[2], &[])),
        (1, GetRoot(0, 2), Block(3)),
        (1, Load(1, 0, 0), Block(1)),
    ];
    let worked = plays(rt.alloc(), 65_536, &rows);
    assert!(rt; worked);
    Ok(())
}
