//! The lines of a script, dealt out to their threads.
ghost use Rattle.std.specs.Prelude.{◌≡◌, ◌==◌, filter, map, All, IfOk};
ghost use Rattle.heap_script.specs.Scripts.{AllNamed};
ghost use Rattle.run_zone.specs.Runs.{IsDealt};

use crate::job::Job;
use auto_zone::Session;
use az_base::{NoMemory, ThreadNo};
use heap_script::{Act, Line};
use std::alloc::Global;

/// An equal line. It takes memory for the classes of a new object alone.
fn copied(alloc: Global, line: &Line) -> Result<Line, NoMemory>
    ensures { IfOk result (λ copy. copy ≡ line.now) }
{
    let act = match &line.act {
        Act::Call(call) => Act::Call(call.try_copy(alloc)?),
        Act::Collect(mode) => Act::Collect(*mode),
    };
    Ok(Line {
        thread: line.thread,
        act,
    })
}

/// The thread's lines, in their order. O(lines).
fn lines_of(alloc: Global, lines: &[Line], thread: ThreadNo) -> Result<Vec<Line>, NoMemory>
    ensures { IfOk result (λ own. own.items ≡ filter (λ line. line.thread == thread) lines.now) }
{
    let mut own = Vec::new(alloc);
    for line in lines {
        if line.thread == thread {
            own.push(copied(alloc, line)?)?;
        }
    }
    Ok(own)
}

/// A job for each session, of its thread's lines. O(lines) for each.
pub(crate) fn jobs_of(
    alloc: Global,
    sessions: Vec<Session>,
    lines: &[Line],
) -> Result<Vec<Job>, NoMemory>
    ensures sessions { IfOk result (λ jobs. map (λ j. j.session) jobs.items ≡ sessions.items) }
    ensures dealt { IfOk result (λ jobs. All (IsDealt lines.now) jobs.items) }
{
    let mut jobs = Vec::new(alloc);
    for session in sessions {
        let thread = session.part().thread();
        let lines = lines_of(alloc, lines, thread)?;
        jobs.push(Job { session, lines })?;
    }
    Ok(jobs)
}
