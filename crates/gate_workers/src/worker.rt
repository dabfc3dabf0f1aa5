//! What one worker does.
ghost use Rattle.std.specs.Prelude.{◌≡◌, ◌++◌, [], ◌∷◌, IfOk};
ghost use Rattle.gate_workers.specs.Workers.{written};
ghost use Rattle.zone_gate.specs.Shown.{IsSeatOf};

use crate::diary::Diary;
use az_base::NoMemory;
use std::sync::Wait;
use zone_gate::{Gate, Seat};

/// A seat, and the lines that its thread is to write.
#[derive(Drop)]
pub struct Job {
    pub seat: Seat,
    pub lines: Vec<u64>,
}

/// A turn: holds the diary, writes one line, and gives it back.
pub fn write_line<R: Wait>(
    rt: &R,
    gate: &Gate<Diary>,
    seat: Seat,
    line: u64,
) -> (Seat, Result<(), NoMemory>)
    requires { IsSeatOf gate.now seat }
    ensures of { IsSeatOf gate.now result.0 }
    ensures thread { result.0.thread ≡ seat.thread }
    ensures own { IfOk result.1 (λ _. result.0.own ≡ seat.own ++ written seat.thread (line ∷ [])) }
{
    let thread = seat.thread();
    let mut held = gate.hold(rt, seat);
    let made = held.value().write(thread, line);
    (gate.give_back(held), made)
}

/// Writes all lines, each in a turn of its own.
pub fn work<R: Wait>(rt: &R, gate: &Gate<Diary>, job: Job) -> Result<Seat, NoMemory>
    requires { IsSeatOf gate.now job.seat }
    ensures of { IfOk result (λ s. IsSeatOf gate.now s) }
    ensures thread { IfOk result (λ s. s.thread ≡ job.seat.thread) }
    ensures own { IfOk result (λ s. s.own ≡ job.seat.own ++ written job.seat.thread job.lines.items) }
{
    let Job { mut seat, lines } = job;
    for line in lines {
        let (after, made) = write_line(rt, gate, seat, line);
        seat = after;
        made?;
    }
    Ok(seat)
}
