//! Calls of three threads, with what each has to answer.
ghost use Rattle.std.specs.Prelude.{◌≡◌, false};
ghost use Rattle.zone_escape.specs.Cores.{IsCore, BelongsTo};
ghost use Rattle.zone_escape_tests.specs.Turns.{AreOf, Turned};

use crate::turns::{make, publishes};
use az_base::{BlockId, Key, Misuse, Reg, RootNo, WeakNo};
use block_layouts::Layout;
use local_set::Local;
use std::alloc::Global;
use zone_escape::Core;
use zone_model::{ActionList, Call, Loc, Reply};

/// What a thread is asked for; registers, places and numbers are as in a script.
#[derive(Clone, Copy)]
pub enum Ask {
    Scanned(u32, u32),
    Load(u32, u32, u32),
    Store(u32, u32, u32),
    Copy(u32, u32),
    Drop(u32),
    Collect,
    SetRoot(u8, u32),
    GetRoot(u32, u8),
    Retain(u32),
    Count(u32),
    SetAssoc(u32, u8, u32),
    GetAssoc(u32, u32, u8),
    SetWeak(u8, u32),
    ReadWeak(u32, u8),
    Stats,
    Leave,
    /// Publishes what waits.
    Flush,
}

/// What it answers. A block is told by its thread and serial, and the statistics by blocks and quanta.
#[derive(Clone, Copy)]
pub enum Answer {
    Done,
    Null,
    Block(u32, u32),
    Number(u64),
    Gone(&'static [u32]),
    Holds(u64, u64),
    Is(Misuse),
    Refused,
}

/// A thread, 1 to 3, what it is asked for, and what it answers.
pub type Row = (u32, Ask, Answer);

/// Whether the ids have these serials, in their order.
fn are_serials(ids: &[BlockId], serials: &[u32]) -> bool {
    if ids.len() != serials.len() {
        return false;
    }
    for (id, serial) in ids.iter().zip(serials) {
        if id.serial != *serial {
            return false;
        }
    }
    true
}

/// Whether the reply is the answer.
fn is_answer(reply: &Reply, answer: &Answer) -> bool {
    match (reply, answer) {
        (Reply::Done, Answer::Done) => true,
        (Reply::Block(None), Answer::Null) => true,
        (Reply::Block(Some(id)), Answer::Block(thread, serial)) => {
            id.thread.get() == *thread && id.serial == *serial
        }
        (Reply::Number(found), Answer::Number(number)) => *found == *number,
        (Reply::Reclaimed(gone), Answer::Gone(serials)) => are_serials(gone.as_slice(), serials),
        (Reply::Stats(stats), Answer::Holds(blocks, quanta)) => {
            stats.blocks == *blocks && stats.quanta == *quanta
        }
        (Reply::Misuse(found), Answer::Is(misuse)) => *found == *misuse,
        _ => false,
    }
}

/// The call for a block of scanned memory.
fn birth(to: u32, words: u32) -> Option<Call> {
    let to = Reg::new(to)?;
    match Layout::scanned(words) {
        Ok(layout) => Some(Call::New {
            to,
            layout,
            actions: ActionList::new(),
        }),
        Err(_) => None,
    }
}

/// The call that is asked for; None where a register isn't there, and for a publication.
fn call_of(asked: &Ask) -> Option<Call> {
    match *asked {
        Ask::Scanned(to, words) => birth(to, words),
        Ask::Load(to, from, at) => Some(Call::Load {
            to: Reg::new(to)?,
            from: Reg::new(from)?,
            at,
        }),
        Ask::Store(into, at, from) => Some(Call::Store {
            into: Reg::new(into)?,
            at,
            from: Reg::new(from)?,
        }),
        Ask::Copy(to, from) => Some(Call::Copy {
            to: Reg::new(to)?,
            from: Reg::new(from)?,
        }),
        Ask::Drop(reg) => Some(Call::DropReg {
            reg: Reg::new(reg)?,
        }),
        Ask::Collect => Some(Call::CollectLocal),
        Ask::SetRoot(root, from) => Some(Call::SetRoot {
            root: RootNo(root),
            from: Reg::new(from)?,
        }),
        Ask::GetRoot(to, root) => Some(Call::GetRoot {
            to: Reg::new(to)?,
            root: RootNo(root),
        }),
        Ask::Retain(reg) => Some(Call::Retain {
            reg: Reg::new(reg)?,
        }),
        Ask::Count(reg) => Some(Call::Count {
            reg: Reg::new(reg)?,
        }),
        Ask::SetAssoc(object, key, value) => Some(Call::SetAssoc {
            object: Reg::new(object)?,
            key: Key(key),
            value: Reg::new(value)?,
        }),
        Ask::GetAssoc(to, object, key) => Some(Call::GetAssoc {
            to: Reg::new(to)?,
            object: Reg::new(object)?,
            key: Key(key),
        }),
        Ask::SetWeak(weak, from) => Some(Call::SetWeak {
            loc: Loc::Root(WeakNo(weak)),
            from: Reg::new(from)?,
        }),
        Ask::ReadWeak(to, weak) => Some(Call::ReadWeak {
            to: Reg::new(to)?,
            loc: Loc::Root(WeakNo(weak)),
        }),
        Ask::Stats => Some(Call::Stats),
        Ask::Leave => Some(Call::Leave),
        Ask::Flush => None,
    }
}

/// Whether a call answers so.
fn is_answered(
    alloc: Global,
    local: &mut Local,
    core: &mut Core,
    asked: &Ask,
    answer: &Answer,
) -> bool
    requires state { IsCore core.old }
    requires belongs { BelongsTo local.old core.old }
    ensures { Turned local.old local.new core.old core.new }
{
    let Some(call) = call_of(asked) else {
        return publishes(local, core) && matches!(answer, Answer::Done);
    };
    match make(alloc, local, core, &call) {
        Some(reply) => is_answer(&reply, answer),
        None => matches!(answer, Answer::Refused),
    }
}

/// Whether the thread of the row answers so.
fn is_row(
    alloc: Global,
    core: &mut Core,
    first: &mut Local,
    second: &mut Local,
    third: &mut Local,
    row: &Row,
) -> bool
    requires { AreOf core.old first.old second.old third.old }
    ensures { AreOf core.new first.new second.new third.new }
{
    match row.0 {
        1 => is_answered(alloc, first, core, &row.1, &row.2),
        2 => is_answered(alloc, second, core, &row.1, &row.2),
        _ => is_answered(alloc, third, core, &row.1, &row.2),
    }
}

/// Whether each call of the rows answers as they say, one after another.
pub fn are_answered(
    alloc: Global,
    core: &mut Core,
    first: &mut Local,
    second: &mut Local,
    third: &mut Local,
    rows: &[Row],
) -> bool
    requires { AreOf core.old first.old second.old third.old }
    ensures { AreOf core.new first.new second.new third.new }
{
    let mut good = true;
    for row in rows {
        if !is_row(alloc, core, first, second, third, row) {
            good = false;
        }
    }
    good
}
