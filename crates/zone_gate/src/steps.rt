//! The steps on the gate's table. Each function is one kind of step, but for `put_back`, which is in and give back, and
//! `unite`, which is a join and a look.
ghost use Rattle.std.specs.Prelude.{◌≡◌, ◌++◌, [], ◌∷◌, true, false, None, Some, length};
ghost use mathlib.Core.List.{IsPrefix};
ghost use Rattle.zone_gate.specs.Owning.{OwnIn, owned, first_only, after_first};
ghost use Rattle.zone_gate.specs.Views.{resting, longer};
ghost use Rattle.zone_gate.specs.Tokens.{IsSized, AtRest, IsOfThread, SameToken, IsOut};
ghost use Rattle.zone_gate.specs.Shown.{GrewBy};
ghost use Rattle.zone_gate.specs.Steps.{waiting, Taken};
ghost use Rattle.zone_model.specs.History.{entries_of};

use crate::bells::Bells;
use crate::held::Token;
use crate::kept::Kept;
use crate::rule::{Draw, GateRule, GiveBack, JoinBoth, Look, SplitFirst, SplitSeen};
use crate::view::{Setting, View};
use atomic_table::Shared;
use az_base::ThreadNo;
use std::hint::spin_loop;
use std::snapshot::Snapshot;
use std::sync::Wait;

pub(crate) type GateTable<V> = Shared<Option<V>, View, Setting, GateRule>;

// The words, and the slot.
const TICKET: usize = 0;

const SERVING: usize = 1;

const VALUE: usize = 0;

// How often the seat that is next looks before it sleeps: some microseconds.
const SPINS: u32 = 100;

// Draws a ticket. The thread is for the contract alone.
pub(crate) fn draw<V: Kept>(table: &GateTable<V>, token: &mut Token<V>, thread: ThreadNo) -> u64
    requires table { token.old.table_id ≡ table.now.table_id }
    requires sized { IsSized table.now.table_id }
    requires rest { AtRest token.old.me }
    requires one { IsOfThread thread token.old.me }
    ensures same { SameToken token.old token.new }
    ensures drawn { token.new.me ≡ (waiting token.old.me.0 result, token.old.me.1) }
{
    let _ = thread;
    table.fetch_add::<Draw>(token, TICKET, 1)
}

// Waits until the ticket is served, and takes the slot.
pub(crate) fn wait_turn<V: Kept, R: Wait>(
    rt: &R,
    table: &GateTable<V>,
    bells: &Bells,
    token: &mut Token<V>,
    ticket: u64,
)
    requires table { token.old.table_id ≡ table.now.table_id }
    requires sized { IsSized table.now.table_id }
    requires waits { (token.old.me.0.ticket ≡ Some ticket) × (token.old.me.0.holds ≡ false) }
    ensures same { SameToken token.old token.new }
    ensures taken { Taken V.list V.chosen token.old.me token.new.me }
{
    let mut spins = SPINS;
    for _ in rt.forever() {
        // Read before the look: whoever serves this ticket afterwards rings afterwards.
        let rung = bells.rung(ticket);
        let serving = table.load::<Look>(token, SERVING);
        if serving == ticket {
            return;
        }
        if 0 < spins && serving.wrapping_add(1) == ticket {
            spins -= 1;
            spin_loop();
        } else {
            bells.sleep(rt, ticket, rung);
        }
    }
    unreachable!()
}

// Takes the value out of the slot.
pub(crate) fn take_out<V: Kept>(table: &GateTable<V>, token: &mut Token<V>) -> V
    requires table { token.old.table_id ≡ table.now.table_id }
    requires slot { (value : _) × (token.old.me.1 ≡ (0, Some value) ∷ []) }
    ensures same { SameToken token.old token.new }
    ensures value { token.old.me.1 ≡ (0, Some result) ∷ [] }
    ensures out { token.new.me ≡ (token.old.me.0, (0, None) ∷ []) }
{
    let value = table.exchange(token, VALUE, None);
    let Some(value) = value else { unreachable!() };
    value
}

// The value goes into the slot, the slot goes home, and the next ticket is served. `was` and the thread are for the
// contract alone.
pub(crate) fn put_back<V: Kept>(
    table: &GateTable<V>,
    bells: &Bells,
    token: &mut Token<V>,
    was: &Snapshot<V>,
    value: V,
    thread: ThreadNo,
)
    requires table { token.old.table_id ≡ table.now.table_id }
    requires sized { IsSized table.now.table_id }
    requires out { IsOut V.list V.chosen thread was.now.value token.old.me }
    requires options { V.chosen value ≡ V.chosen was.now.value }
    requires grew { GrewBy thread (V.list was.now.value) (V.list value) }
    ensures same { SameToken token.old token.new }
    ensures rest { token.new.me ≡ (resting token.old.me.0.options (V.list value) (owned thread (entries_of thread (V.list value)) ∷ []), []) }
{
    let _ = was;
    let _ = thread;
    let left = table.exchange(token, VALUE, Some(value));
    let None = left else { unreachable!() };
    let served = table.fetch_add::<GiveBack>(token, SERVING, 1);
    let next = served.wrapping_add(1);
    // Who draws the next ticket only after this finds it served, and doesn't sleep.
    if table.peek(TICKET) != next {
        bells.ring(next);
    }
}

// A new token that has seen as much, and has no thread.
pub(crate) fn split_seen<V: Kept>(table: &GateTable<V>, token: &mut Token<V>) -> Token<V>
    requires table { token.old.table_id ≡ table.now.table_id }
    requires sized { IsSized table.now.table_id }
    requires rest { AtRest token.old.me }
    ensures same { SameToken token.old token.new × (token.new.me ≡ token.old.me) }
    ensures note { (result.table_id ≡ token.old.table_id) × (result.me ≡ (resting token.old.me.0.options token.old.me.0.seen [], [])) }
{
    table.split_seat::<SplitSeen>(token)
}

// A new token that has the first thread.
pub(crate) fn split_first<V: Kept>(table: &GateTable<V>, token: &mut Token<V>) -> Token<V>
    requires table { token.old.table_id ≡ table.now.table_id }
    requires sized { IsSized table.now.table_id }
    requires rest { AtRest token.old.me }
    ensures same { SameToken token.old token.new × (token.new.me ≡ (resting token.old.me.0.options token.old.me.0.seen (after_first token.old.me.0.own), [])) }
    ensures first { (result.table_id ≡ token.old.table_id) × (result.me ≡ (resting token.old.me.0.options token.old.me.0.seen (first_only token.old.me.0.own), [])) }
{
    table.split_seat::<SplitFirst>(token)
}

// Takes in another token. The longer of what the two had seen is kept, and the threads of both. That each of the two
// lists begins it is told by the look.
pub(crate) fn unite<V: Kept>(table: &GateTable<V>, token: &mut Token<V>, other: Token<V>)
    requires table { (token.old.table_id ≡ table.now.table_id) × (other.table_id ≡ table.now.table_id) }
    requires sized { IsSized table.now.table_id }
    requires rest { AtRest token.old.me × AtRest other.me }
    ensures same { SameToken token.old token.new }
    ensures both { token.new.me ≡ (resting token.old.me.0.options (longer token.old.me.0.seen other.me.0.seen) (token.old.me.0.own ++ other.me.0.own), []) }
    ensures begins { IsPrefix token.old.me.0.seen (longer token.old.me.0.seen other.me.0.seen) × IsPrefix other.me.0.seen (longer token.old.me.0.seen other.me.0.seen) }
    ensures own { OwnIn (longer token.old.me.0.seen other.me.0.seen) (token.old.me.0.own ++ other.me.0.own) }
{
    table.join_seat::<JoinBoth>(token, other);
    table.load::<Look>(token, SERVING);
}
