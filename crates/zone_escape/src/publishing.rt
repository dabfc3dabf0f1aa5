//! What waits is published.
ghost use Rattle.std.specs.Prelude.{◌≡◌, ◌≤◌, ◌+◌, ◌++◌, [], length, OnOk, OnErr};
ghost use Rattle.std.specs.Result.{IsOk};
ghost use Rattle.zone_model.specs.History.{Legal};
ghost use Rattle.zone_escape.specs.Cores.{BelongsTo, IsCore};
ghost use Rattle.zone_escape.specs.Publications.{Flushed, Untouched};

use crate::telling::tell;
use crate::zone_core::Core;
use az_base::{NoMemory, Reg};
use local_set::Local;
use zone_history::Journal;

/// The waiting entries go into the journal, in their order.
fn push_waiting(local: &mut Local, journal: &mut Journal)
    requires { journal.old.owed + length local.old.waiting ≤ journal.old.spare }
    ensures entries { journal.new.entries ≡ journal.old.entries ++ local.old.waiting }
    ensures room { journal.old.spare ≤ journal.new.spare + length local.old.waiting }
    ensures owed { journal.new.owed ≡ journal.old.owed }
    ensures local { local.new ≡ record local.old { waiting = []; spare = local.new.spare } }
{
    let mut waiting = local.take_pending();
    journal.append(&mut waiting);
    local.reuse_room(waiting);
}

/// Room for the waiting entries, and for `more`.
fn reserve(local: &Local, journal: &mut Journal, more: u32) -> Result<(), NoMemory>
    ensures entries { journal.new.entries ≡ journal.old.entries }
    ensures owed { journal.new.owed ≡ journal.old.owed }
    ensures room { OnOk result (journal.new.owed + (length local.now.waiting + more) ≤ journal.new.spare) }
    ensures err { OnErr result (journal.new ≡ journal.old) }
{
    let waiting = local.pending().len() as u64;
    journal.reserve(waiting + u64::from(more))
}

/// Where nothing waits, takes room for `more` entries: what the thread holds is as it was published.
fn take_room(local: &Local, core: &mut Core, more: u32) -> Result<(), NoMemory>
    requires belongs { BelongsTo local.now core.old }
    requires out { local.now.waiting ≡ [] }
    ensures ok { OnOk result (Flushed local.now local.now core.old core.new) }
    ensures room { OnOk result (core.new.journal.owed + more ≤ core.new.journal.spare) }
    ensures err { OnErr result (Untouched local.now local.now core.old core.new) }
    ensures sure { more ≡ 0 → IsOk result }
    ensures legal { Legal core.new.heap.options core.new.journal.entries }
    ensures state { IsCore core.new }
{
    // what is owed has its room
    let _owed = core.journal.owed();
    core.journal.reserve(u64::from(more))
}

/// A thread has sixteen registers.
fn has_sixteen(local: &Local)
    ensures { length local.now.published ≡ 16 }
{
    let Some(reg) = Reg::new(0) else {
        unreachable!()
    };
    let _ = local.published(reg);
}

/// Publishes what waits, and takes room for `more` entries beside. NoMemory leaves all as it was.
fn publish_waiting(local: &mut Local, core: &mut Core, more: u32) -> Result<(), NoMemory>
    requires { BelongsTo local.old core.old }
    ensures ok { OnOk result (Flushed local.old local.new core.old core.new) }
    ensures room { OnOk result (core.new.journal.owed + more ≤ core.new.journal.spare) }
    ensures err { OnErr result (Untouched local.old local.new core.old core.new) }
    ensures legal { Legal core.new.heap.options core.new.journal.entries }
    ensures state { IsCore core.new }
{
    reserve(local, &mut core.journal, more)?;
    tell(local, &mut core.heap);
    push_waiting(local, &mut core.journal);
    local.mark_published();
    has_sixteen(local);
    Ok(())
}

/// Publishes what waits, if anything does, and takes room for `more` entries beside. NoMemory leaves all as it was.
pub(crate) fn publish(local: &mut Local, core: &mut Core, more: u32) -> Result<(), NoMemory>
    requires { BelongsTo local.old core.old }
    ensures ok { OnOk result (Flushed local.old local.new core.old core.new) }
    ensures room { OnOk result (core.new.journal.owed + more ≤ core.new.journal.spare) }
    ensures err { OnErr result (Untouched local.old local.new core.old core.new) }
    ensures sure { local.old.waiting ≡ [] → more ≡ 0 → IsOk result }
    ensures legal { Legal core.new.heap.options core.new.journal.entries }
    ensures state { IsCore core.new }
{
    if local.pending().is_empty() {
        take_room(local, core, more)
    } else {
        publish_waiting(local, core, more)
    }
}

/// Publishes what waits. NoMemory leaves all as it was; where nothing waits, no room is asked for. O(waiting entries, and
/// what changed since the last publication) expected, and O(journal) where that grows.
pub fn flush(local: &mut Local, core: &mut Core) -> Result<(), NoMemory>
    requires { BelongsTo local.old core.old }
    ensures ok { OnOk result (Flushed local.old local.new core.old core.new) }
    ensures err { OnErr result (Untouched local.old local.new core.old core.new) }
    ensures sure { local.old.waiting ≡ [] → IsOk result }
    ensures legal { Legal core.new.heap.options core.new.journal.entries }
    ensures state { IsCore core.new }
{
    publish(local, core, 0)
}
