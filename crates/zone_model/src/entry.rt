//! What a zone answers, and what a history keeps of it.
use crate::call::Call;
use crate::lists::IdList;
use az_base::{BlockId, Misuse, NoMemory, ThreadNo};
use std::alloc::Global;

/// How much a zone holds: escaped blocks and their small quanta, blocks with a positive count, weak locations that show
/// a block, and associations.
#[derive(Clone, Copy, Debug, PartialEq, Eq)]
pub struct Stats {
    pub blocks: u64,
    pub quanta: u64,
    pub retained: u64,
    pub weak: u64,
    pub assocs: u64,
}

/// The answer to a call. Lists of ids are ascending.
#[derive(Debug, Drop)]
pub enum Reply {
    Done,
    /// A block, or null.
    Block(Option<BlockId>),
    Number(u64),
    /// Another thread's collection is open; nothing changed.
    Busy,
    Begun,
    Condemned(IdList),
    Finalised(BlockId),
    Reclaimed(IdList),
    /// What a collection reclaimed of its condemned blocks, and what it kept.
    Settled { reclaimed: IdList, kept: IdList },
    Stats(Stats),
    /// The call was a misuse; nothing changed.
    Misuse(Misuse),
}

/// A call of a thread, with its reply.
#[derive(Debug, Drop)]
pub struct Entry {
    pub thread: ThreadNo,
    pub call: Call,
    pub reply: Reply,
}

impl Reply {
    ghost use Rattle.std.specs.Prelude.{◌≡◌, IfOk};
    ghost use Rattle.zone_model.specs.Bare.{bare_reply};

    /// An equal reply, but for the room of its lists. O(ids of its lists).
    pub fn try_copy(&self, alloc: Global) -> Result<Reply, NoMemory>
        ensures { IfOk result (λ reply. bare_reply reply ≡ bare_reply self.now) }
    {
        match self {
            Reply::Done => Ok(Reply::Done),
            Reply::Block(id) => Ok(Reply::Block(*id)),
            Reply::Number(number) => Ok(Reply::Number(*number)),
            Reply::Busy => Ok(Reply::Busy),
            Reply::Begun => Ok(Reply::Begun),
            Reply::Condemned(ids) => {
                let ids = ids.try_copy(alloc)?;
                Ok(Reply::Condemned(ids))
            }
            Reply::Finalised(id) => Ok(Reply::Finalised(*id)),
            Reply::Reclaimed(ids) => {
                let ids = ids.try_copy(alloc)?;
                Ok(Reply::Reclaimed(ids))
            }
            Reply::Settled { reclaimed, kept } => {
                let reclaimed = reclaimed.try_copy(alloc)?;
                let kept = kept.try_copy(alloc)?;
                Ok(Reply::Settled { reclaimed, kept })
            }
            Reply::Stats(stats) => Ok(Reply::Stats(*stats)),
            Reply::Misuse(misuse) => Ok(Reply::Misuse(*misuse)),
        }
    }
}
