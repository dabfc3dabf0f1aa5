//! Calls of a local set, with what each has to answer.
ghost use Rattle.std.specs.Prelude.{◌≡◌, false};

use az_base::{BlockId, Misuse, NoMemory, Options, Reg, ThreadNo};
use block_layouts::Layout;
use local_set::{Local, LocalErr};
use std::alloc::Global;
use zone_model::Reply;

/// A call; registers, places and numbers are as in a script.
#[derive(Clone, Copy)]
pub enum Ask {
    Scanned(u32, u32),
    Object(u32, &'static str),
    Load(u32, u32, u32),
    Store(u32, u32, u32),
    Put(u32, u32, u64),
    Get(u32, u32),
    Copy(u32, u32),
    Drop(u32),
    Collect,
}

/// What it answers. A block of the thread is told by its serial.
#[derive(Clone, Copy)]
pub enum Answer {
    Done,
    Null,
    Block(u32),
    Number(u64),
    Gone(&'static [u32]),
    Is(Misuse),
    Refused(LocalErr),
}

/// Whether the ids are those of thread 1 with these serials, in their order.
fn are_serials(ids: &[BlockId], serials: &[u32]) -> bool {
    if ids.len() != serials.len() {
        return false;
    }
    for (id, serial) in ids.iter().zip(serials) {
        if id.thread.get() != 1 || id.serial != *serial {
            return false;
        }
    }
    true
}

/// Whether the answer is the one that is asked for.
fn is_answer(given: &Result<Reply, LocalErr>, answer: &Answer) -> bool {
    match (given, answer) {
        (Ok(Reply::Done), Answer::Done) => true,
        (Ok(Reply::Block(None)), Answer::Null) => true,
        (Ok(Reply::Block(Some(id))), Answer::Block(serial)) => {
            id.thread.get() == 1 && id.serial == *serial
        }
        (Ok(Reply::Number(found)), Answer::Number(number)) => *found == *number,
        (Ok(Reply::Reclaimed(gone)), Answer::Gone(serials)) => are_serials(
            gone.as_slice(),
            serials,
        ),
        (Ok(Reply::Misuse(found)), Answer::Is(misuse)) => *found == *misuse,
        (Err(found), Answer::Refused(why)) => *found == *why,
        _ => false,
    }
}

/// A block of scanned memory is born.
fn make_scanned(
    alloc: Global,
    local: &mut Local,
    to: u32,
    words: u32,
) -> Option<Result<Reply, LocalErr>>
    requires { local.old.ended ≡ false }
    ensures { local.new.ended ≡ false }
{
    let to = Reg::new(to)?;
    match Layout::scanned(words) {
        Ok(layout) => Some(local.new_block(alloc, to, layout)),
        Err(_) => None,
    }
}

/// An object is born.
fn make_object(
    alloc: Global,
    local: &mut Local,
    to: u32,
    letters: &str,
) -> Option<Result<Reply, LocalErr>>
    requires { local.old.ended ≡ false }
    ensures { local.new.ended ≡ false }
{
    let to = Reg::new(to)?;
    match Layout::parse(alloc, letters) {
        Ok(layout) => Some(local.new_block(alloc, to, layout)),
        Err(_) => None,
    }
}

/// What a call answers; None where a register isn't there.
fn make(alloc: Global, local: &mut Local, asked: &Ask) -> Option<Result<Reply, LocalErr>>
    requires { local.old.ended ≡ false }
    ensures { local.new.ended ≡ false }
{
    match asked {
        Ask::Scanned(to, words) => make_scanned(alloc, local, *to, *words),
        Ask::Object(to, letters) => make_object(alloc, local, *to, letters),
        Ask::Load(to, from, at) => Some(local.load(Reg::new(*to)?, Reg::new(*from)?, *at)),
        Ask::Store(into, at, from) => Some(local.store(Reg::new(*into)?, *at, Reg::new(*from)?)),
        Ask::Put(into, at, number) => Some(local.put(Reg::new(*into)?, *at, *number)),
        Ask::Get(from, at) => Some(local.get(Reg::new(*from)?, *at)),
        Ask::Copy(to, from) => Some(local.copy(Reg::new(*to)?, Reg::new(*from)?)),
        Ask::Drop(reg) => Some(local.drop_reg(Reg::new(*reg)?)),
        Ask::Collect => Some(local.collect_local(alloc)),
    }
}

/// Whether a call answers so.
fn is_answered(alloc: Global, local: &mut Local, row: &(Ask, Answer)) -> bool
    requires { local.old.ended ≡ false }
    ensures { local.new.ended ≡ false }
{
    match make(alloc, local, &row.0) {
        Some(given) => is_answer(&given, &row.1),
        None => false,
    }
}

/// Whether each call of the rows answers as they say, one after another.
pub fn are_answered(alloc: Global, local: &mut Local, rows: &[(Ask, Answer)]) -> bool
    requires { local.old.ended ≡ false }
    ensures { local.new.ended ≡ false }
{
    let mut good = true;
    for row in rows {
        if !is_answered(alloc, local, row) {
            good = false;
        }
    }
    good
}
