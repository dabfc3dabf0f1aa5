ghost use Rattle.az_base.specs.OptionRanges.{IsValid};

use crate::rows::Answer::{Block, Done, Gone, Holds, Is, Null, Number, Refused};
use crate::rows::Ask::{
    Collect, Copy, Count, Drop, Flush, GetAssoc, GetRoot, Leave, Load, ReadWeak, Retain, Scanned,
    SetAssoc, SetRoot, SetWeak, Stats, Store,
};
use crate::rows::{Row, are_answered};
use az_base::{Misuse, Options, ThreadNo};
use local_set::Local;
use std::alloc::Global;
use std::test::*;
use zone_escape::Core;

/// Whether the calls of the rows answer so in a new zone under these options.
fn plays(alloc: Global, options: Options, rows: &[Row]) -> bool
    requires { IsValid options }
{
    let (Some(one), Some(two), Some(three)) = (ThreadNo::new(1), ThreadNo::new(2), ThreadNo::new(3))
    else {
        return false;
    };
    let Ok(mut core) = Core::new(alloc, options) else {
        return false;
    };
    let mut first = Local::new(alloc, one, options);
    let mut second = Local::new(alloc, two, options);
    let mut third = Local::new(alloc, three, options);
    are_answered(alloc, &mut core, &mut first, &mut second, &mut third, rows)
}

/// The same under the usual options, but for the quanta of escaped blocks and the entries that may wait.
fn plays_within(alloc: Global, heap_quanta: u32, pending: u32, rows: &[Row]) -> bool {
    let mut options = Options::usual();
    options.heap_quanta = heap_quanta;
    options.pending = pending;
    options.is_valid() && plays(alloc, options, rows)
}

#[test]
fn others_find_what_a_thread_published(rt: HostRuntime) -> Result<(), Fail> {
    let rows = [
        (1, Scanned(0, 1), Block(1, 0)),
        (2, Scanned(0, 1), Block(2, 0)),
        (1, SetRoot(0, 0), Done),
        (2, GetRoot(1, 0), Block(1, 0)),
        (2, Store(0, 0, 1), Done),
        (2, SetRoot(1, 0), Done),
        (1, GetRoot(2, 1), Block(2, 0)),
        (1, Load(3, 2, 0), Block(1, 0)),
        (3, Stats, Holds(2, 2)),
    ];
    let worked = plays(rt.alloc(), Options::usual(), &rows);
    assert!(rt; worked);
    Ok(())
}

#[test]
fn blocks_of_two_threads_refer_to_one(rt: HostRuntime) -> Result<(), Fail> {
    let rows = [
        (1, Scanned(0, 0), Block(1, 0)),
        (1, SetRoot(0, 0), Done),
        (2, GetRoot(0, 0), Block(1, 0)),
        (3, GetRoot(0, 0), Block(1, 0)),
        (2, Scanned(1, 1), Block(2, 0)),
        (3, Scanned(1, 1), Block(3, 0)),
        (2, Store(1, 0, 0), Done),
        (3, Store(1, 0, 0), Done),
        (2, SetRoot(2, 1), Done),
        (3, SetRoot(3, 1), Done),
        (1, GetRoot(1, 2), Block(2, 0)),
        (1, Load(2, 1, 0), Block(1, 0)),
        (1, GetRoot(1, 3), Block(3, 0)),
        (1, Load(2, 1, 0), Block(1, 0)),
        (1, Stats, Holds(3, 3)),
    ];
    let worked = plays(rt.alloc(), Options::usual(), &rows);
    assert!(rt; worked);
    Ok(())
}

#[test]
fn one_entry_may_wait(rt: HostRuntime) -> Result<(), Fail> {
    let rows = [
        (1, Scanned(0, 1), Block(1, 0)),
        (1, Drop(0), Refused),
        (1, Flush, Done),
        (1, Drop(0), Done),
        (1, Copy(1, 0), Refused),
        (1, GetRoot(0, 0), Null),
        (1, Copy(1, 0), Done),
        (1, Collect, Refused),
        (1, Flush, Done),
        (1, Collect, Gone(&[0])),
    ];
    let worked = plays_within(rt.alloc(), 1, 1, &rows);
    assert!(rt; worked);
    Ok(())
}

#[test]
fn what_does_not_fit_stays_private(rt: HostRuntime) -> Result<(), Fail> {
    let rows = [
        (1, Scanned(0, 1), Block(1, 0)),
        (1, Scanned(1, 3), Block(1, 1)),
        (1, Store(1, 0, 0), Done),
        (1, SetRoot(0, 1), Is(Misuse::ZoneFull)),
        (2, Stats, Holds(0, 0)),
        (1, SetRoot(0, 0), Done),
        (2, Stats, Holds(1, 1)),
        (1, SetRoot(1, 1), Is(Misuse::ZoneFull)),
        (1, Load(2, 1, 0), Block(1, 0)),
        (1, Collect, Gone(&[])),
        (1, Drop(1), Done),
        (1, Collect, Gone(&[1])),
    ];
    let worked = plays_within(rt.alloc(), 2, 4096, &rows);
    assert!(rt; worked);
    Ok(())
}

#[test]
fn threads_end_in_any_order(rt: HostRuntime) -> Result<(), Fail> {
    let rows = [
        (2, Scanned(0, 1), Block(2, 0)),
        (2, Scanned(1, 1), Block(2, 1)),
        (2, SetRoot(0, 0), Done),
        (1, GetRoot(0, 0), Block(2, 0)),
        (2, Leave, Gone(&[1])),
        (2, Drop(0), Refused),
        (2, Stats, Refused),
        (1, Leave, Gone(&[])),
        (3, GetRoot(5, 0), Block(2, 0)),
        (3, Stats, Holds(1, 1)),
        (3, Leave, Gone(&[])),
    ];
    let worked = plays(rt.alloc(), Options::usual(), &rows);
    assert!(rt; worked);
    Ok(())
}

#[test]
fn a_register_is_written_over_after_its_block_was_published(rt: HostRuntime) -> Result<(), Fail> {
    let rows = [
        (1, Scanned(0, 0), Block(1, 0)),
        (1, SetRoot(0, 0), Done),
        (2, GetRoot(0, 0), Block(1, 0)),
        (1, Drop(0), Done),
        (1, Scanned(0, 1), Block(1, 1)),
        (1, Flush, Done),
        (2, Retain(0), Number(1)),
        (3, GetRoot(0, 0), Block(1, 0)),
        (3, Count(0), Number(1)),
        (1, Count(0), Number(0)),
    ];
    let worked = plays(rt.alloc(), Options::usual(), &rows);
    assert!(rt; worked);
    Ok(())
}

#[test]
fn a_local_collection_comes_between_publications(rt: HostRuntime) -> Result<(), Fail> {
    let rows = [
        (1, Scanned(0, 1), Block(1, 0)),
        (1, Scanned(1, 1), Block(1, 1)),
        (2, Scanned(0, 0), Block(2, 0)),
        (2, Flush, Done),
        (1, Drop(1), Done),
        (1, Collect, Gone(&[1])),
        (3, GetRoot(0, 7), Null),
        (1, SetAssoc(0, 4, 0), Null),
        (2, Flush, Done),
        (1, GetAssoc(2, 0, 4), Block(1, 0)),
        (1, SetWeak(9, 0), Block(1, 0)),
        (2, ReadWeak(3, 9), Block(1, 0)),
        (3, Stats, Holds(1, 1)),
    ];
    let worked = plays(rt.alloc(), Options::usual(), &rows);
    assert!(rt; worked);
    Ok(())
}
