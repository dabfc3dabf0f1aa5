//! A collection of escaped blocks, as one line of a play.
//!
//! It is a Begin, and where that isn't Busy, a Condemn, a Finalise for each condemned block that waits for its finaliser, and
//! a Reclaim, with nothing of another thread between. The Begin takes the room for all of them, so it alone may be refused.
ghost use Rattle.std.specs.Prelude.{◌≡◌, [], true, ℕ, replicate, OnOk, OnErr};
ghost use Rattle.zone_model.specs.declared.call.Call.TheVariants as call;
ghost use Rattle.zone_model.specs.declared.entry.Reply.{Reply};
ghost use Rattle.zone_model.specs.Phases.{Free, May, Settling, is_closing, left_in};
ghost use Rattle.play_order.specs.Playing.{IsTold};
ghost use Rattle.play_core.specs.Collecting.{Collects, Closes, PublishesCalls};
ghost use Rattle.play_core.specs.Worlds.{AtEnd, IsQuiet, is_running, waits_of, seen, Stops};

use crate::world::World;
use az_base::{Mode, NoMemory, ThreadNo};
use std::alloc::Global;
use zone_model::{Call, Reply};

/// The thread goes on with its cycle by a Condemn, a Finalise or a Reclaim, which is never refused.
fn close(alloc: Global, world: &mut World, thread: ThreadNo, call: &Call)
    requires running { is_running world.old thread ≡ true }
    requires out { waits_of world.old thread ≡ [] }
    requires closing { is_closing call.now ≡ true }
    requires may { AtEnd world.old (λ z. May z thread call.now) }
    ensures { (reply : Reply) × Closes world.old world.new thread call.now reply }
{
    let Ok(_) = world.step(alloc, thread, call) else {
        unreachable!();
    };
}

/// The finalisers run that wait, one after another.
fn finalise_all(alloc: Global, world: &mut World, thread: ThreadNo)
    requires running { is_running world.old thread ≡ true }
    requires out { waits_of world.old thread ≡ [] }
    requires settling { AtEnd world.old (λ z. Settling (left_in z) z thread) }
    ensures entries { (n : ℕ) × PublishesCalls world.old world.new thread (replicate n call.Finalise) }
    ensures settled { AtEnd world.new (λ z. Settling 0 z thread) }
{
    for _ in 0..world.to_finalise() {
        close(alloc, world, thread, &Call::Finalise);
    }
}

/// The thread collects: its own entries and then those of the collection are published, which is the Begin alone where
/// another thread's cycle is open. NoMemory leaves all as it was, or what waited of the thread was published and nothing
/// else has happened. The cost of the calls.
pub fn collect(
    alloc: Global,
    world: &mut World,
    thread: ThreadNo,
    mode: Mode,
) -> Result<(), NoMemory>
    requires running { is_running world.old thread ≡ true }
    requires free { AtEnd world.old (λ z. Free z thread) }
    ensures told { IsTold (seen world.old) thread }
    ensures ok { OnOk result (Collects world.old world.new thread mode) }
    ensures quiet { OnOk result (IsQuiet world.old → IsQuiet world.new) }
    ensures err { OnErr result (Stops (seen world.old) (seen world.new) thread) }
{
    if let Reply::Busy = world.step(alloc, thread, &Call::Begin { mode })? {
        return Ok(());
    }
    close(alloc, world, thread, &Call::Condemn);
    finalise_all(alloc, world, thread);
    close(alloc, world, thread, &Call::Reclaim);
    Ok(())
}
