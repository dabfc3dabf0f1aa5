//! A whole script, played by a world.
ghost use Rattle.std.specs.Prelude.{◌≡◌, [], ◌∷◌, ◌++◌, true, All, IfOk, OnOk, if◌then◌else◌};
ghost use Rattle.az_base.specs.OptionRanges.{IsValid};
ghost use Rattle.call_words.specs.Ranges.{IsNamed};
ghost use Rattle.heap_script.specs.Scripts.{AllNamed};
ghost use Rattle.zone_history.specs.Histories.{IsHistoryOf, is_asked};
ghost use Rattle.play_order.specs.Play.{IsPlayOf, IsProper, threads_of as asked_threads};
ghost use Rattle.play_order.specs.Playing.{SoFar};
ghost use Rattle.play_core.specs.Playing.{AreAsked, PlaysLine, CanPlay, requests, requests_of};
ghost use Rattle.play_core.specs.Worlds.{seen};

use crate::collecting::collect;
use crate::world::World;
use az_base::{MOST_THREADS, NoMemory, ThreadNo};
use heap_script::{Act, Line, Script};
use std::alloc::Global;
use zone_model::{Entry, Stats};

/// The history of a script, and the statistics of its end.
#[derive(Drop)]
pub struct Recording {
    pub entries: Vec<Entry>,
    pub stats: Stats,
}

/// For each number up to the most of a thread, whether a line is that thread's. O(lines).
fn asked(lines: &[Line]) -> [bool; 17]
    ensures { AreAsked lines.now result }
{
    let mut asked = [false; 17];
    for line in lines {
        asked[line.thread.get() as usize] = true;
    }
    asked
}

/// The thread goes behind the others where it is asked for something.
fn add_asked(threads: &mut Vec<ThreadNo>, is_asked: bool, thread: ThreadNo) -> Result<(), NoMemory>
    ensures { OnOk result (threads.new.items ≡ threads.old.items ++ (if is_asked then thread ∷ [] else [])) }
{
    if is_asked {
        threads.push(thread)?;
    }
    Ok(())
}

/// The threads that are asked for something, ascending. O(lines).
pub fn threads_of(alloc: Global, lines: &[Line]) -> Result<Vec<ThreadNo>, NoMemory>
    ensures { IfOk result (λ threads. threads.items ≡ asked_threads (requests lines.now)) }
{
    let asked = asked(lines);
    let mut threads = Vec::new(alloc);
    for n in 1..MOST_THREADS + 1 {
        let Some(thread) = ThreadNo::new(n) else {
            unreachable!();
        };
        add_asked(&mut threads, asked[n as usize], thread)?;
    }
    Ok(threads)
}

/// One line is played: the thread makes the call, or collects.
fn play_line(
    alloc: Global,
    world: &mut World,
    lines: &[Line],
    thread: ThreadNo,
    act: &Act,
) -> Result<(), NoMemory>
    requires named { IsNamed act.now }
    requires asked { is_asked (requests lines.now) thread ≡ true }
    requires running { CanPlay world.old (requests lines.now) }
    ensures turn { OnOk result (PlaysLine world.old world.new (thread, act.now)) }
    ensures proper { IsProper (thread, act.now) }
    ensures running { OnOk result (CanPlay world.new (requests lines.now)) }
    ensures options { OnOk result (world.new.options ≡ world.old.options) }
{
    // a thread's number is in its range
    let _number = thread.get();
    match act {
        Act::Call(call) => {
            world.step(alloc, thread, call)?;
            Ok(())
        }
        Act::Collect(mode) => collect(alloc, world, thread, *mode),
    }
}

/// Plays the lines in their order.
fn play_lines(alloc: Global, world: &mut World, lines: &[Line]) -> Result<(), NoMemory>
    requires named { AllNamed lines.now }
    requires opened { SoFar [] (seen world.old) }
    requires running { CanPlay world.old (requests lines.now) }
    ensures so_far { OnOk result (SoFar (requests lines.now) (seen world.new)) }
    ensures proper { OnOk result (All IsProper (requests lines.now)) }
    ensures running { OnOk result (CanPlay world.new (requests lines.now)) }
    ensures options { OnOk result (world.new.options ≡ world.old.options) }
{
    for line in lines {
        play_line(alloc, world, lines, line.thread, &line.act)?;
    }
    Ok(())
}

/// Plays the lines, and then the ends; the statistics of the end.
fn play_all(alloc: Global, world: &mut World, lines: &[Line]) -> Result<Stats, NoMemory>
    requires named { AllNamed lines.now }
    requires opened { SoFar [] (seen world.old) }
    requires running { CanPlay world.old (requests lines.now) }
    ensures play { IfOk result (λ stats. IsPlayOf world.new.options (requests lines.now) world.new.journal stats) }
    ensures options { OnOk result (world.new.options ≡ world.old.options) }
    ensures proper { OnOk result (All IsProper (requests lines.now)) }
{
    play_lines(alloc, world, lines)?;
    world.end(alloc)
}

/// The history of a script, whose entries stand in the order of `play`, and the statistics of its end. The cost of the calls,
/// and O(1) for each line.
pub fn play(alloc: Global, script: &Script) -> Result<Recording, NoMemory>
    requires options { IsValid script.now.options }
    requires named { AllNamed script.now.lines }
    ensures history { IfOk result (λ p. IsHistoryOf script.now.options (requests_of script.now) p.entries.items p.stats) }
    ensures ordered { IfOk result (λ p. IsPlayOf script.now.options (requests_of script.now) p.entries.items p.stats) }
{
    let lines = script.lines.as_slice();
    let threads = threads_of(alloc, lines)?;
    let mut world = World::new(alloc, &threads, script.options)?;
    let played = play_all(alloc, &mut world, lines);
    let entries = world.into_journal().into_vec();
    match played {
        Ok(stats) => Ok(Recording { entries, stats }),
        Err(err) => Err(err),
    }
}
