//! The gate: turns at one value.
ghost use Rattle.std.specs.Prelude.{◌≡◌, ◌+◌, ◌-◌, drop, ◌<◌, ◌≤◌, ℕ, [], ◌∷◌, ◌++◌, map, length, All, AllPairs, Contains, IfOk};
ghost use mathlib.Core.List.{IsPrefix};
ghost use Rattle.zone_model.specs.History.{entries_of};
ghost use Rattle.zone_gate.specs.Shown.{IsSeatOf, IsNoteOf, IsHeldOf, KeepsSeat, HasAllThreads, new_seat, GrewBy, cut_of};
ghost use Rattle.zone_gate.specs.Views.{longer};

use crate::bells::Bells;
use crate::cuts::Cuts;
use crate::gather::{copied, deal_seats, unite_all};
use crate::held::{Held, Token, Turn};
use crate::kept::Kept;
use crate::rule::GateRule;
use crate::seat::{Note, Seat};
use crate::steps::{draw, put_back, split_seen, take_out, unite, wait_turn};
use crate::view::{Setting, View};
use atomic_table::{Badge, Refused, Table};
use az_base::{NoMemory, ThreadNo};
use std::alloc::Global;
use std::marker::Model;
use std::mem;
use std::snapshot::Snapshot;
use std::sync::Wait;

/// One value, which the seats of its threads hold in turn. Contracts see which gate it is, the options of the value,
/// and the threads.
#[derive(Drop)]
pub struct Gate<V: Kept> {
    table: Table<Option<V>, View, Setting, GateRule, Global>,
    bells: Bells,
}

impl<V: Kept> Model for Gate<V> {
    ghost use Rattle.std.specs.Prelude.{◌≡◌, ◌<◌, length};
    ghost use Rattle.zone_gate.specs.Shown.{GateShown};

    ghost Value = { GateShown };

    ghost view = { λ g. record { id = g.table.shared.table_id; options = g.table.shared.key.options; threads = g.table.shared.key.threads.value.items } };

    ghost invariant = { λ g. (g.table.shared.table_id.words ≡ 2) × (g.table.shared.table_id.slots ≡ 1) × (0 < length g.table.shared.key.threads.value.items) };
}

impl<V: Kept> Gate<V> {
    /// Waits for the seat's turn, and takes the value out. Turns come in the order in which threads drew their tickets,
    /// but nothing says that one ever comes: whoever never gives the value back keeps all others waiting.
    ///
    /// O(1): two atomic steps where nobody has the value. Else it sleeps in the kernel until its ticket is served; the
    /// thread that is next spins first, some microseconds.
    pub fn hold<R: Wait>(&self, rt: &R, seat: Seat) -> Held<V>
        requires { IsSeatOf self.now seat }
        ensures of { IsHeldOf V.chosen self.now result }
        ensures seat { KeepsSeat seat result }
        ensures was { result.was ≡ result.value }
        ensures seen { IsPrefix seat.seen (V.list result.value) }
        ensures own { entries_of seat.thread (V.list result.value) ≡ seat.own }
        ensures options { V.chosen result.value ≡ self.now.options }
    {
        let Seat {
            badge,
            thread,
            cuts,
        } = seat;
        let mut token: Token<V> = badge.into_seat::<Option<V>>();
        let ticket = draw::<V>(&self.table.shared, &mut token, thread);
        wait_turn::<V, R>(rt, &self.table.shared, &self.bells, &mut token, ticket);
        let value = take_out::<V>(&self.table.shared, &mut token);
        let was = Snapshot::of(&value);
        Held {
            value,
            token,
            thread,
            cuts,
            was,
        }
    }

    /// Puts the value back with what the thread has added to its list, and lets the next seat hold it. The seat has then
    /// seen all of the list. O(1): one atomic step, and where others wait, the next of them is woken. It waits for nobody.
    pub fn give_back(&self, held: Held<V>) -> Seat
        requires of { IsHeldOf V.chosen self.now held }
        requires options { V.chosen held.value ≡ V.chosen held.was }
        requires grew { GrewBy held.thread (V.list held.was) (V.list held.value) }
        ensures of { IsSeatOf self.now result }
        ensures thread { result.thread ≡ held.thread }
        ensures seen { result.seen ≡ V.list held.value }
        ensures own { result.own ≡ held.own ++ drop (length (V.list held.was)) (V.list held.value) }
        ensures all { result.own ≡ entries_of held.thread (V.list held.value) }
        ensures cut { result.cuts ≡ held.cuts ++ cut_of V.black V.grey held.was held.value result.own ∷ [] }
    {
        let Held {
            value,
            mut token,
            thread,
            cuts,
            was,
        } = held;
        let turn = Turn {
            thread,
            was,
            now: Snapshot::of(&value),
        };
        let cuts = Cuts::then(&cuts, &turn);
        put_back::<V>(
            &self.table.shared,
            &self.bells,
            &mut token,
            &turn.was,
            value,
            thread,
        );
        Seat {
            badge: token.into_badge(),
            thread,
            cuts,
        }
    }

    /// A note of what the seat has seen, which any seat of the gate can take in. O(1), without memory or waiting.
    pub fn split(&self, seat: &mut Seat) -> Note
        requires { IsSeatOf self.now seat.old }
        ensures of { IsNoteOf self.now result }
        ensures note { result.seen ≡ seat.old.seen }
        ensures seat { seat.new ≡ seat.old }
    {
        let badge = mem::replace(&mut seat.badge, Badge::blank());
        let mut token: Token<V> = badge.into_seat::<Option<V>>();
        let noted = split_seen::<V>(&self.table.shared, &mut token);
        seat.badge = token.into_badge();
        Note {
            badge: noted.into_badge(),
        }
    }

    /// The seat has then seen the longer of what it had seen and what the note has; the other begins it. O(1), without
    /// memory or waiting.
    pub fn join(&self, seat: &mut Seat, note: Note)
        requires seat { IsSeatOf self.now seat.old }
        requires note { IsNoteOf self.now note }
        ensures seen { seat.new ≡ record seat.old { seen = longer seat.old.seen note.seen } }
        ensures begins { IsPrefix seat.old.seen seat.new.seen × IsPrefix note.seen seat.new.seen }
        ensures own { seat.new.own ≡ entries_of seat.new.thread seat.new.seen }
    {
        let Note { badge: noted } = note;
        let badge = mem::replace(&mut seat.badge, Badge::blank());
        let mut token: Token<V> = badge.into_seat::<Option<V>>();
        unite::<V>(
            &self.table.shared,
            &mut token,
            noted.into_seat::<Option<V>>(),
        );
        seat.badge = token.into_badge();
    }

    /// Both seats have then seen the longer of what the two had seen; the other begins it. O(1), without memory or
    /// waiting.
    pub fn meet(&self, a: &mut Seat, b: &mut Seat)
        requires a { IsSeatOf self.now a.old }
        requires b { IsSeatOf self.now b.old }
        ensures a { a.new ≡ record a.old { seen = longer a.old.seen b.old.seen } }
        ensures b { b.new ≡ record b.old { seen = longer a.old.seen b.old.seen } }
        ensures begins { IsPrefix a.old.seen a.new.seen × IsPrefix b.old.seen a.new.seen }
        ensures own { (a.new.own ≡ entries_of a.new.thread a.new.seen) × (b.new.own ≡ entries_of b.new.thread b.new.seen) }
    {
        let note = self.split(b);
        self.join(a, note);
        let note = self.split(a);
        self.join(b, note);
    }

    /// The value, once each thread's seat is there. Its list begins with all that they saw, has each one's own entries in
    /// order, and no entry of anyone else. O(seats).
    pub fn close(self, mut seats: Vec<Seat>) -> V
        requires of { All (λ s. IsSeatOf self s) seats.items }
        requires all { HasAllThreads self seats.items }
        ensures begins { All (λ s. IsPrefix s.seen (V.list result)) seats.items }
        ensures own { All (λ s. entries_of s.thread (V.list result) ≡ s.own) seats.items }
        ensures others { All (λ e. Contains self.threads e.thread) (V.list result) }
        ensures options { V.chosen result ≡ self.options }
    {
        let Gate { table, bells: _ } = self;
        let Some(first) = seats.pop() else {
            unreachable!()
        };
        let Seat {
            badge,
            thread: _,
            cuts: _,
        } = first;
        let mut token: Token<V> = badge.into_seat::<Option<V>>();
        unite_all::<V>(&table.shared, &mut token, seats);
        let mut closed = table.close_with(token);
        let value = closed.take(0);
        closed.free();
        let Some(value) = value else { unreachable!() };
        value
    }
}

impl<V: Kept + Drop> Gate<V> {
    /// A gate round the value, and a seat for each thread, in their order. NoMemory drops the value. O(threads).
    pub fn new(
        alloc: Global,
        value: V,
        threads: &[ThreadNo],
    ) -> Result<(Gate<V>, Vec<Seat>), NoMemory>
        requires some { 0 < length threads.now }
        requires ascending { AllPairs (λ t u. t < u) threads.now }
        requires empty { V.list value ≡ [] }
        ensures gate { IfOk result (λ r. (r.0.options ≡ V.chosen value) × (r.0.threads ≡ threads.now)) }
        ensures seats { IfOk result (λ r. r.1.items ≡ map (new_seat r.0.id r.0.options) threads.now) }
    {
        let options = value.options();
        let kept = copied(alloc, threads)?;
        let bells = Bells::hang(alloc, threads.len())?;
        let Ok(seats) = Vec::with_capacity(alloc, threads.len()) else {
            return Err(NoMemory);
        };
        let Ok(mut slots) = Vec::with_capacity(alloc, 1) else {
            return Err(NoMemory);
        };
        slots.push_reserved(Some(value));
        let about = Setting {
            options,
            threads: Snapshot::of(&kept),
        };
        match Table::new(alloc, &[0, 0], slots, &about) {
            Ok((table, token)) => {
                let seats = deal_seats::<V>(&table.shared, token, threads, seats);
                Ok((Gate { table, bells }, seats))
            }
            Err(Refused { slots: _ }) => Err(NoMemory),
        }
    }
}
