//! Collections of two threads, step by step.
use crate::cycles::Answer::{Begun, Block, Busy, Condemned, Done, Finalised, Null, Settled};
use crate::cycles::Ask::{
    Begin, Condemn, Drop, Finalise, GetRoot, Keeper, Reclaim, Scanned, SetRoot, SetWeak, Store,
};
use crate::tests::closes;
use az_base::{Action, BlockId, Class, Key, Mode, Options, Reg, RootNo, ThreadNo, WeakNo};
use block_layouts::Layout;
use play_core::World;
use std::alloc::Global;
use std::test::*;
use zone_model::{ActionList, Call, Loc, Reply};

/// What a thread is asked for; registers, places and numbers are as in a script.
#[derive(Clone, Copy)]
pub(crate) enum Ask {
    Scanned(u32),
    /// An object of one data word whose finaliser keeps it in a root.
    Keeper(u32, u8),
    Drop(u32),
    Store(u32, u32, u32),
    SetRoot(u8, u32),
    GetRoot(u32, u8),
    SetWeak(u8, u32),
    ReadWeak(u32, u8),
    Load(u32, u32, u32),
    SetAssoc(u32, u8, u32),
    GetAssoc(u32, u32, u8),
    Retain(u32),
    Begin(Mode),
    Condemn,
    Finalise,
    Reclaim,
}

/// What it answers. All blocks are of thread 1, and told by their serials.
#[derive(Clone, Copy)]
pub(crate) enum Answer {
    Done,
    Null,
    Block(u32),
    Number(u64),
    Busy,
    Begun,
    Condemned(&'static [u32]),
    Finalised(u32),
    Settled(&'static [u32], &'static [u32]),
}

/// A thread, what it is asked for, and what it answers.
pub(crate) type Row = (u32, Ask, Answer);

/// Whether the ids have these serials, in their order.
fn are_serials(ids: &[BlockId], serials: &[u32]) -> bool {
    if ids.len() != serials.len() {
        return false;
    }
    for (id, serial) in ids.iter().zip(serials) {
        if id.serial != *serial {
            return false;
        }
    }
    true
}

/// Whether the reply is the answer.
fn is_answer(reply: &Reply, answer: &Answer) -> bool {
    match (reply, answer) {
        (Reply::Done, Answer::Done) => true,
        (Reply::Block(None), Answer::Null) => true,
        (Reply::Block(Some(id)), Answer::Block(serial)) => id.serial == *serial,
        (Reply::Number(n), Answer::Number(m)) => *n == *m,
        (Reply::Busy, Answer::Busy) => true,
        (Reply::Begun, Answer::Begun) => true,
        (Reply::Condemned(ids), Answer::Condemned(serials)) => are_serials(ids.as_slice(), serials),
        (Reply::Finalised(id), Answer::Finalised(serial)) => id.serial == *serial,
        (Reply::Settled { reclaimed, kept }, Answer::Settled(gone, left)) => {
            are_serials(reclaimed.as_slice(), gone) && are_serials(kept.as_slice(), left)
        }
        _ => false,
    }
}

/// The call for an object with a finaliser that keeps it.
fn keeper(alloc: Global, to: u32, root: u8) -> Option<Call> {
    let to = Reg::new(to)?;
    let Ok(layout) = Layout::object(alloc, &[Class::Plain]) else {
        return None;
    };
    let actions = ActionList::from_slice(&[Action::Keep(RootNo(root))])?;
    Some(Call::New {
        to,
        layout,
        actions,
    })
}

/// The call for a block of one Strong word.
fn birth(to: u32) -> Option<Call> {
    let to = Reg::new(to)?;
    let Ok(layout) = Layout::scanned(1) else {
        return None;
    };
    Some(Call::New {
        to,
        layout,
        actions: ActionList::new(),
    })
}

/// The call that is asked for.
fn call_of(alloc: Global, asked: &Ask) -> Option<Call> {
    match *asked {
        Ask::Scanned(to) => birth(to),
        Ask::Keeper(to, root) => keeper(alloc, to, root),
        Ask::Drop(reg) => Some(Call::DropReg {
            reg: Reg::new(reg)?,
        }),
        Ask::Store(into, at, from) => Some(Call::Store {
            into: Reg::new(into)?,
            at,
            from: Reg::new(from)?,
        }),
        Ask::SetRoot(root, from) => Some(Call::SetRoot {
            root: RootNo(root),
            from: Reg::new(from)?,
        }),
        Ask::GetRoot(to, root) => Some(Call::GetRoot {
            to: Reg::new(to)?,
            root: RootNo(root),
        }),
        Ask::SetWeak(weak, from) => Some(Call::SetWeak {
            loc: Loc::Root(WeakNo(weak)),
            from: Reg::new(from)?,
        }),
        Ask::ReadWeak(to, weak) => Some(Call::ReadWeak {
            to: Reg::new(to)?,
            loc: Loc::Root(WeakNo(weak)),
        }),
        Ask::Load(to, from, at) => Some(Call::Load {
            to: Reg::new(to)?,
            from: Reg::new(from)?,
            at,
        }),
        Ask::SetAssoc(object, key, value) => Some(Call::SetAssoc {
            object: Reg::new(object)?,
            key: Key(key),
            value: Reg::new(value)?,
        }),
        Ask::GetAssoc(to, object, key) => Some(Call::GetAssoc {
            to: Reg::new(to)?,
            object: Reg::new(object)?,
            key: Key(key),
        }),
        Ask::Retain(reg) => Some(Call::Retain {
            reg: Reg::new(reg)?,
        }),
        Ask::Begin(mode) => Some(Call::Begin { mode }),
        Ask::Condemn => Some(Call::Condemn),
        Ask::Finalise => Some(Call::Finalise),
        Ask::Reclaim => Some(Call::Reclaim),
    }
}

/// The reply, where the thread is there and may make the call.
fn reply_of(alloc: Global, world: &mut World, thread: ThreadNo, call: &Call) -> Option<Reply> {
    if !world.is_running(thread) {
        return None;
    }
    if !world.may(thread, call) {
        return None;
    }
    world.step(alloc, thread, call).ok()
}

/// Whether the row's thread may make its call, and it answers so.
pub(crate) fn is_row(alloc: Global, world: &mut World, row: &Row) -> bool {
    let (Some(thread), Some(call)) = (ThreadNo::new(row.0), call_of(alloc, &row.1)) else {
        return false;
    };
    match reply_of(alloc, world, thread, &call) {
        Some(reply) => is_answer(&reply, &row.2),
        None => false,
    }
}

/// Whether all calls answer so, and the zone then ends with so many entries.
fn are_rows(alloc: Global, world: &mut World, rows: &[Row], entries: usize) -> bool {
    for row in rows {
        if !is_row(alloc, world, row) {
            return false;
        }
    }
    closes(alloc, world) && world.journal().len() == entries
}

/// A world of these threads, with no unescaped blocks where `local` is 0.
pub(crate) fn world(alloc: Global, local: u32) -> Option<World> {
    let (one, two) = (ThreadNo::new(1)?, ThreadNo::new(2)?);
    let mut options = Options::usual();
    options.local_quanta = local;
    if !options.is_valid() {
        return None;
    }
    World::new(alloc, &[one, two], options).ok()
}

/// Whether the rows answer so in a new world.
fn plays(alloc: Global, local: u32, rows: &[Row], entries: usize) -> bool {
    match world(alloc, local) {
        Some(mut world) => are_rows(alloc, &mut world, rows, entries),
        None => false,
    }
}

#[test]
fn another_thread_is_busy(rt: HostRuntime) -> Result<(), Fail> {
    let rows = [
        (1, Begin(Mode::Full), Begun),
        (2, Begin(Mode::Young), Busy),
        (1, Condemn, Condemned(&[])),
        (1, Reclaim, Settled(&[], &[])),
        (2, Begin(Mode::Young), Begun),
        (2, Condemn, Condemned(&[])),
        (2, Reclaim, Settled(&[], &[])),
    ];
    let worked = plays(rt.alloc(), 65_536, &rows, 9);
    assert!(rt; worked);
    Ok(())
}

#[test]
fn a_condemned_block_shows_no_weak_location_until_it_was_kept(rt: HostRuntime) -> Result<(), Fail> {
    let rows = [
        (1, Keeper(0, 3), Block(0)),
        (1, Drop(0), Done),
        (1, Begin(Mode::Full), Begun),
        (1, Condemn, Condemned(&[0])),
        (1, Finalise, Finalised(0)),
        (2, GetRoot(0, 3), Block(0)),
        (2, SetWeak(0, 0), Null),
        (1, Reclaim, Settled(&[], &[0])),
        (2, SetWeak(0, 0), Block(0)),
    ];
    let worked = plays(rt.alloc(), 65_536, &rows, 11);
    assert!(rt; worked);
    Ok(())
}

#[test]
fn what_dead_blocks_outside_refer_to_is_kept(rt: HostRuntime) -> Result<(), Fail> {
    let rows = [
        (1, Scanned(0), Block(0)),
        (1, Keeper(1, 3), Block(1)),
        (1, Drop(1), Done),
        (1, Begin(Mode::Full), Begun),
        (1, Condemn, Condemned(&[1])),
        (1, Finalise, Finalised(1)),
        (1, GetRoot(1, 3), Block(1)),
        (1, Store(0, 0, 1), Done),
        (1, SetRoot(3, 2), Done),
        (1, Drop(1), Done),
        (1, Drop(0), Done),
        (1, Reclaim, Settled(&[], &[1])),
        (1, Begin(Mode::Full), Begun),
        (1, Condemn, Condemned(&[0, 1])),
        (1, Reclaim, Settled(&[0, 1], &[])),
    ];
    let worked = plays(rt.alloc(), 0, &rows, 17);
    assert!(rt; worked);
    Ok(())
}
