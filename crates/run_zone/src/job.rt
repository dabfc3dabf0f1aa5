//! What one worker does.
ghost use Rattle.std.specs.Prelude.{◌≡◌, All};
ghost use Rattle.zone_gate.specs.Shown.{IsSeatOf};
ghost use Rattle.heap_script.specs.Scripts.{AllNamed};
ghost use Rattle.run_zone.specs.Runs.{Does};

use crate::lines::work;
use crate::pace::Pace;
use auto_zone::{Ended, Session, Zone};
use az_base::NoMemory;
use heap_script::Line;
use std::alloc::Global;
use std::sync::Wait;

/// A session, and the lines of its thread.
#[derive(Drop)]
pub(crate) struct Job {
    pub(crate) session: Session,
    pub(crate) lines: Vec<Line>,
}

/// Does the lines, and leaves.
pub(crate) fn do_job<R: Wait, P: Pace>(
    rt: &R,
    alloc: Global,
    zone: &Zone,
    job: Job,
    pace: &P,
) -> Result<Ended, NoMemory>
    requires zone { IsSeatOf zone.now job.session.seat }
    requires named { AllNamed job.lines.items }
    ensures { Does job result }
{
    let Job { session, lines } = job;
    match work(rt, alloc, zone, session, lines.as_slice(), pace) {
        Ok(ended) => Ok(ended),
        Err((_, e)) => Err(e),
    }
}
