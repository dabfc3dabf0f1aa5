//! What a thread's lines are for a session.
ghost use Rattle.std.specs.Prelude.{◌≡◌, ◌≤◌, ◌<◌, ◌∷◌, [], All, MatchResult, length, map, OnOk, OnErr, IfErr, Err, true, false};
ghost use Rattle.local_set.specs.Calls.{Answers};
ghost use Rattle.zone_model.specs.declared.act.Act.TheVariants as act;
ghost use Rattle.zone_model.specs.Part.{is_local};
ghost use Rattle.local_set.specs.LocalSets.{part_in};
ghost use Rattle.zone_gate.specs.Shown.{IsSeatOf};
ghost use Rattle.heap_script.specs.Scripts.{AllNamed};
ghost use Rattle.call_words.specs.Ranges.{IsNamed};
ghost use Rattle.run_zone.specs.Works.{acts_of, Lines, Stopped, Worked};

use crate::pace::Pace;
use auto_zone::{Ended, Session, Zone};
use az_base::{Mode, NoMemory};
use heap_script::Line;
use local_set::LocalErr;
use std::alloc::Global;
use std::sync::Wait;
use zone_model::{Act, Call};

/// The most blocks that a slice of a collection scans.
const BUDGET: u32 = 256;

/// Does the lines, and leaves. A local line waits in the session; where as many wait as the option pending says, they are
/// published first. Any other line is published after what waits. `pace` is called round each line. NoMemory hands the
/// session back: it has the entries of the lines before the refused one, and where the leave was refused, those of all.
/// The cost of the calls.
pub fn work<R: Wait, P: Pace>(
    rt: &R,
    alloc: Global,
    zone: &Zone,
    mut session: Session,
    lines: &[Line],
    pace: &P,
) -> Result<Ended, (Session, NoMemory)>
    requires zone { IsSeatOf zone.now session.seat }
    requires named { AllNamed lines.now }
    ensures { MatchResult result (λ u. Worked session.seat u session.local (acts_of lines.now)) (λ e. Stopped session.seat e.0.seat session.local e.0.local (acts_of lines.now)) }
{
    match do_lines(rt, alloc, zone, &mut session, lines, pace) {
        Ok(()) => session.leave(rt, alloc, zone),
        Err(e) => Err((session, e)),
    }
}

/// Does the lines.
fn do_lines<R: Wait, P: Pace>(
    rt: &R,
    alloc: Global,
    zone: &Zone,
    session: &mut Session,
    lines: &[Line],
    pace: &P,
) -> Result<(), NoMemory>
    requires zone { IsSeatOf zone.now session.old.seat }
    requires named { AllNamed lines.now }
    ensures ok { OnOk result (Lines session.old.seat session.new.seat session.old.local session.new.local (acts_of lines.now)) }
    ensures err { OnErr result (Stopped session.old.seat session.new.seat session.old.local session.new.local (acts_of lines.now)) }
{
    let mut place = 0u32;
    for line in lines {
        do_line(rt, alloc, zone, session, line, place, pace)?;
        place = place.saturating_add(1);
    }
    Ok(())
}

/// Does a line, between the two calls of the pace.
fn do_line<R: Wait, P: Pace>(
    rt: &R,
    alloc: Global,
    zone: &Zone,
    session: &mut Session,
    line: &Line,
    place: u32,
    pace: &P,
) -> Result<(), NoMemory>
    requires zone { IsSeatOf zone.now session.old.seat }
    requires named { IsNamed line.now.act }
    ensures ok { OnOk result (Lines session.old.seat session.new.seat session.old.local session.new.local (line.now.act ∷ [])) }
    ensures err { OnErr result (Stopped session.old.seat session.new.seat session.old.local session.new.local []) }
{
    pace.before(line.thread, place, session);
    do_act(rt, alloc, zone, session, &line.act)?;
    pace.after(line.thread, place, session);
    Ok(())
}

/// A call, or a collection.
fn do_act<R: Wait>(
    rt: &R,
    alloc: Global,
    zone: &Zone,
    session: &mut Session,
    act: &Act,
) -> Result<(), NoMemory>
    requires zone { IsSeatOf zone.now session.old.seat }
    requires named { IsNamed act.now }
    ensures ok { OnOk result (Lines session.old.seat session.new.seat session.old.local session.new.local (act.now ∷ [])) }
    ensures err { OnErr result (Stopped session.old.seat session.new.seat session.old.local session.new.local []) }
{
    match act {
        Act::Call(call) => do_call(rt, alloc, zone, session, call),
        Act::Collect(mode) => collection(rt, alloc, zone, session, *mode),
    }
}

/// A collection.
fn collection<R: Wait>(
    rt: &R,
    alloc: Global,
    zone: &Zone,
    session: &mut Session,
    mode: Mode,
) -> Result<(), NoMemory>
    requires zone { IsSeatOf zone.now session.old.seat }
    ensures ok { OnOk result (Lines session.old.seat session.new.seat session.old.local session.new.local (act.Collect mode ∷ [])) }
    ensures err { OnErr result (Stopped session.old.seat session.new.seat session.old.local session.new.local []) }
{
    session.collect(rt, alloc, zone, mode, BUDGET)?;
    Ok(())
}

/// A local line waits; where too many wait, those are published first. Any other is published, with what waits.
fn do_call<R: Wait>(
    rt: &R,
    alloc: Global,
    zone: &Zone,
    session: &mut Session,
    call: &Call,
) -> Result<(), NoMemory>
    requires zone { IsSeatOf zone.now session.old.seat }
    requires named { IsNamed (act.Call call.now) }
    ensures ok { OnOk result (Lines session.old.seat session.new.seat session.old.local session.new.local (act.Call call.now ∷ [])) }
    ensures err { OnErr result (Stopped session.old.seat session.new.seat session.old.local session.new.local []) }
{
    let Err(refusal) = locally(session, alloc, call) else {
        return Ok(());
    };
    match refusal {
        LocalErr::NotLocal => shared(rt, alloc, zone, session, call),
        LocalErr::PendingFull => after_sync(rt, alloc, zone, session, call),
        LocalErr::NoMemory => Err(NoMemory),
    }
}

/// A local line that waits.
fn locally(session: &mut Session, alloc: Global, call: &Call) -> Result<(), LocalErr>
    ensures ok { OnOk result (Lines session.old.seat session.new.seat session.old.local session.new.local (act.Call call.now ∷ [])) }
    ensures err { IfErr result (λ e. Answers session.old.local session.new.local call.now (Err e) × (session.new.seat ≡ session.old.seat)) }
{
    session.local(alloc, call)?;
    Ok(())
}

/// A line that isn't local.
fn shared<R: Wait>(
    rt: &R,
    alloc: Global,
    zone: &Zone,
    session: &mut Session,
    call: &Call,
) -> Result<(), NoMemory>
    requires zone { IsSeatOf zone.now session.old.seat }
    requires named { IsNamed (act.Call call.now) }
    requires shared { is_local (part_in session.old.local) call.now ≡ false }
    ensures ok { OnOk result (Lines session.old.seat session.new.seat session.old.local session.new.local (act.Call call.now ∷ [])) }
    ensures err { OnErr result (Stopped session.old.seat session.new.seat session.old.local session.new.local []) }
{
    session.call(rt, alloc, zone, call)?;
    Ok(())
}

/// A local line, where too many wait.
fn after_sync<R: Wait>(
    rt: &R,
    alloc: Global,
    zone: &Zone,
    session: &mut Session,
    call: &Call,
) -> Result<(), NoMemory>
    requires zone { IsSeatOf zone.now session.old.seat }
    requires named { IsNamed (act.Call call.now) }
    requires full { session.old.local.options.pending ≤ length session.old.local.waiting }
    ensures ok { OnOk result (Lines session.old.seat session.new.seat session.old.local session.new.local (act.Call call.now ∷ [])) }
    ensures err { OnErr result (Stopped session.old.seat session.new.seat session.old.local session.new.local []) }
{
    session.sync(rt, zone)?;
    let Ok(()) = locally(session, alloc, call) else {
        return Err(NoMemory);
    };
    Ok(())
}
