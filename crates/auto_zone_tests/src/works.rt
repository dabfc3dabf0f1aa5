//! A session that works through lines, behind what waits of it.
ghost use Rattle.std.specs.Prelude.{IfSome};
ghost use Rattle.zone_gate.specs.Shown.{IsSeatOf};

use crate::sessions::{is_born, is_first};
use crate::zones::{closed, zone_of_one};
use auto_zone::{Ended, Session, Zone};
use az_base::Reg;
use heap_script::parse;
use run_zone::{NoPace, work};
use std::alloc::Global;
use std::sync::Wait;
use std::test::*;
use zone_model::{Call, Entry, Reply};

const LINES: &str = "1 copy r1 r0\n1 setroot g0 r1\n";

/// The session makes a block that waits, and then works through the lines; None where it is refused.
fn worked<R: Wait>(rt: &R, alloc: Global, zone: &Zone, mut session: Session) -> Option<Ended>
    requires { IsSeatOf zone.now session.seat }
    ensures { IfSome result (λ e. IsSeatOf zone.now e) }
{
    let to = Reg::new(0)?;
    if !is_born(alloc, &mut session, to) {
        return None;
    }
    let Ok(script) = parse(alloc, LINES.as_bytes()) else {
        return None;
    };
    match work(rt, alloc, zone, session, script.lines.as_slice(), &NoPace) {
        Ok(ended) => Some(ended),
        Err(_) => None,
    }
}

/// Whether the entries are a birth, a copy, what a root is set to, and a leave that reclaims none.
fn are_worked(entries: &[Entry]) -> bool {
    let [born, copied, set, left] = entries else {
        return false;
    };
    matches!(born.call, Call::New { .. })
        && matches!(born.reply, Reply::Block(Some(id)) if is_first(id))
        && matches!(copied.call, Call::Copy { .. })
        && matches!(copied.reply, Reply::Done)
        && matches!(set.call, Call::SetRoot { .. })
        && matches!(set.reply, Reply::Done)
        && matches!(left.call, Call::Leave)
        && matches!(&left.reply, Reply::Reclaimed(gone) if gone.is_empty())
}

/// Whether what waited, the lines and the leave are the entries, in this order, and one block of one quantum is left.
fn works_behind_what_waits<R: Wait>(rt: &R, alloc: Global) -> bool {
    let Some((zone, session)) = zone_of_one(alloc) else {
        return false;
    };
    let Some(ended) = worked(rt, alloc, &zone, session) else {
        return false;
    };
    let Ok(ended) = vec![in alloc; ended] else {
        return false;
    };
    let Some(closed) = closed(alloc, zone, ended) else {
        return false;
    };
    are_worked(closed.journal.entries()) && closed.stats.blocks == 1 && closed.stats.quanta == 1
}

#[test]
fn lines_follow_what_waits(rt: HostRuntime) -> Result<(), Fail> {
    let worked = works_behind_what_waits(&rt, rt.alloc());
    assert!(rt; worked);
    Ok(())
}
